//! Laws of parts, each the contract of a function that does nothing.
ghost use Rattle.std.specs.Prelude.{◌≡◌, ◌≢◌, ℕ, ℤ, List, [], ◌∷◌, ◌++◌, true, false, map};
ghost use Rattle.prv_model.specs.Boards.{IsInput, Covers};
ghost use Rattle.prv_model.specs.Terms.{holds};
ghost use Rattle.prv_model.specs.Comparison.{verdict};
ghost use Rattle.prv_model.specs.declared.entry.Reason.{Reason};
ghost use Rattle.prv_model.specs.declared.program.Pair.{Pair};
ghost use Rattle.prv_model.specs.declared.term.Term.{Term};
ghost use Rattle.prv_model.specs.declared.verdict.Verdict.TheVariants as v;
ghost use Rattle.prv_pool.specs.Folding.{negation};
ghost use Rattle.prv_part.specs.Literals.{decided_equality};
ghost use Rattle.prv_part.specs.Parts.{Other, rests, partition, parts_of, AreTrue, IsOver, AreOver};
ghost use Rattle.prv_part.specs.declared.shape.Shape.{Shape};
ghost use Rattle.prv_part.specs.declared.shape.Shape.TheVariants as shape;

/// The inputs of a region on which some literals hold, whole or cut in two by a term, and the rests cover
/// the region: each of its inputs lies in exactly one of them.
pub fn rests_cover_a_region()
    ensures whole { (n : ℕ) (region literals : List Term) → Covers n region ((region ++ literals) ∷ rests region literals) }
    ensures split { (n : ℕ) (region literals : List Term) (t : Term) →
        Covers n region (((region ++ literals) ++ t ∷ []) ∷ ((region ++ literals) ++ negation t ∷ []) ∷ rests region literals) }
{}

/// The parts of each shape cover their region.
pub fn parts_cover_their_region()
    ensures { (pair : Pair) (n : ℕ) (region : List Term) (shape : Shape) (t : List ℤ) (other : Other) (why : Reason) →
        Covers n region (map (λ p. p.region) (parts_of pair region shape t other why)) }
{}

/// An input of a region lies in its own partition.
pub fn partitions_hold_their_input()
    ensures { (pair : Pair) (region : List Term) (t : List ℤ) → IsInput pair.before.params t → holds region t ≡ true → holds (partition pair region t) t ≡ true }
{}

/// The parts of each shape speak of the pair's parameters alone, where their region does.
pub fn parts_are_over_parameters()
    ensures { (pair : Pair) (region : List Term) (shape : Shape) (t : List ℤ) (other : Other) (why : Reason) →
        IsOver pair.before.params region → AreOver pair.before.params (parts_of pair region shape t other why) }
{}

/// The parts of each shape are true: of an empty region where no input lies in it; of one that is stuck
/// always; of the others where the input that was run lies in the region, and its runs pass the bound on
/// turns (beyond) or don't (whole and split). Of a whole region moreover no input of the partition lies
/// in the second part, and of a split region the other input lies there, if one is shown.
pub fn parts_are_true()
    ensures empty { (pair : Pair) (region : List Term) (t : List ℤ) (other : Other) (why : Reason) →
        ((x : List ℤ) → IsInput pair.before.params x → holds region x ≡ false) → AreTrue pair (parts_of pair region shape.Empty t other why) }
    ensures stuck { (pair : Pair) (region : List Term) (t : List ℤ) (other : Other) (why : Reason) → AreTrue pair (parts_of pair region shape.Stuck t other why) }
    ensures beyond { (pair : Pair) (region : List Term) (t : List ℤ) (other : Other) (why : Reason) →
        IsInput pair.before.params t → holds region t ≡ true → verdict pair t ≡ v.Beyond → AreTrue pair (parts_of pair region shape.Beyond t other why) }
    ensures whole { (pair : Pair) (region : List Term) (t : List ℤ) (other : Other) (why : Reason) →
        IsInput pair.before.params t → holds region t ≡ true → verdict pair t ≢ v.Beyond →
        ((x : List ℤ) → IsInput pair.before.params x → holds (partition pair region t ++ negation (decided_equality pair t) ∷ []) x ≡ false) →
        AreTrue pair (parts_of pair region shape.Whole t other why) }
    ensures found { (pair : Pair) (region : List Term) (t y : List ℤ) (why : Reason) →
        IsInput pair.before.params t → holds region t ≡ true → verdict pair t ≢ v.Beyond →
        IsInput pair.before.params y → holds (partition pair region t ++ negation (decided_equality pair t) ∷ []) y ≡ true →
        AreTrue pair (parts_of pair region shape.Split t (Other.Found y) why) }
    ensures left { (pair : Pair) (region : List Term) (t : List ℤ) (left why : Reason) →
        IsInput pair.before.params t → holds region t ≡ true → verdict pair t ≢ v.Beyond → AreTrue pair (parts_of pair region shape.Split t (Other.Left left) why) }
{}
