//! Laws of folding, each the contract of a function that does nothing.
ghost use Rattle.std.specs.Prelude.{◌≡◌, ℕ, ℤ, Bool, true, not, List, All, if◌then◌else◌};
ghost use Rattle.prv_model.specs.Words.{IsWord, is_zero, flag};
ghost use Rattle.prv_model.specs.Terms.{IsTerm, term_value, total};
ghost use Rattle.prv_model.specs.declared.op.TermOp.{TermOp};
ghost use Rattle.prv_model.specs.declared.term.Term.{Term};
ghost use Rattle.prv_model.specs.declared.term.Term.TheVariants.{Op};
ghost use Rattle.prv_pool.specs.Folding.{folded, folded_pick, negation, truth, is_folded, is_settled, is_truth_shaped};

/// The folded term of an operator or a choice has the value of the operator or the choice, on every input.
pub fn folding_keeps_values()
    ensures operators { (n : ℕ) (op : TermOp) (a b : Term) (x : List ℤ) → IsTerm n a → IsTerm n b → All IsWord x →
        term_value (folded op a b) x ≡ total op (term_value a x) (term_value b x) }
    ensures choices { (n : ℕ) (c a b : Term) (x : List ℤ) → IsTerm n c → IsTerm n a → IsTerm n b → All IsWord x →
        term_value (folded_pick c a b) x ≡ (if is_zero (term_value c x) then term_value b x else term_value a x) }
{}

/// The negation of a term is 1 exactly where the term is 0, and else 0; its truth is 1 exactly where it is not.
pub fn negations_and_truths()
    ensures negation { (n : ℕ) (a : Term) (x : List ℤ) → IsTerm n a → All IsWord x → term_value (negation a) x ≡ flag (is_zero (term_value a x)) }
    ensures truth { (n : ℕ) (a : Term) (x : List ℤ) → IsTerm n a → All IsWord x → term_value (truth a) x ≡ flag (not (is_zero (term_value a x))) }
{}

/// A folding of terms over some parameters is a term over these.
pub fn foldings_are_terms()
    ensures operators { (n : ℕ) (op : TermOp) (a b : Term) → IsTerm n a → IsTerm n b → IsTerm n (folded op a b) }
    ensures choices { (n : ℕ) (c a b : Term) → IsTerm n c → IsTerm n a → IsTerm n b → IsTerm n (folded_pick c a b) }
    ensures negations { (n : ℕ) (a : Term) → IsTerm n a → IsTerm n (negation a) }
    ensures truths { (n : ℕ) (a : Term) → IsTerm n a → IsTerm n (truth a) }
{}

/// A folding of folded terms is a folded term.
pub fn folding_gives_folded_terms()
    ensures op { (op : TermOp) (a b : Term) → is_folded a ≡ true → is_folded b ≡ true → is_folded (folded op a b) ≡ true }
    ensures pick { (t a b : Term) → is_folded t ≡ true → is_folded a ≡ true → is_folded b ≡ true → is_folded (folded_pick t a b) ≡ true }
    ensures negation { (t : Term) → is_folded t ≡ true → is_folded (negation t) ≡ true }
    ensures truth { (t : Term) → is_folded t ≡ true → is_folded (truth t) ≡ true }
{}

/// An operator to which no rule applies is its own folding.
pub fn folded_terms_are_fixed()
    ensures { (op : TermOp) (a b : Term) → is_settled op a b ≡ true → folded op a b ≡ Op op a b }
{}

/// The negation of the negation of a truth is the truth itself.
pub fn negation_of_a_negation()
    ensures { (t : Term) → is_folded t ≡ true → is_truth_shaped t ≡ true → negation (negation t) ≡ t }
{}
