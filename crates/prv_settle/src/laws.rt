//! Laws of settling, each the contract of a function that does nothing. They are what the layers above may rest on
//! without a look into the definitions of records and their grounds.
ghost use Rattle.std.specs.Prelude.{◌≡◌, ℕ, ◌<◌, ◌≤◌, ◌^◌, List, length, ℤ, Some, true, false};
ghost use Rattle.std.specs.List.{AllByRecursion};
ghost use Rattle.prv_model.specs.Boards.{IsInput};
ghost use Rattle.prv_model.specs.Terms.{IsTerm, holds};
ghost use Rattle.prv_model.specs.declared.program.Pair.{Pair};
ghost use Rattle.prv_model.specs.declared.term.Term.{Term};
ghost use Rattle.prv_check.specs.LogLines.{LogLine};
ghost use Rattle.prv_part.specs.Settlements.{Finding, IsSettlement};
ghost use Rattle.prv_part.specs.declared.part.Part.{Part};
ghost use Rattle.prv_board.specs.Replays.{Replay, slots};
ghost use Rattle.prv_board.specs.Slots.{part_at, may_replace};
ghost use Rattle.prv_record.specs.Fields.{HasFields};
ghost use Rattle.prv_record.specs.Payloads.{payload_length};
ghost use Rattle.prv_record.specs.declared.raw.Raw.{Raw};
ghost use Rattle.prv_settle.specs.Grounds.{IsRefuted, is_granted, other_part};
ghost use Rattle.prv_settle.specs.Answers.{IsShown};
ghost use Rattle.prv_settle.specs.Settlings.{IsRecord, IsSettled, IsSettledAt};
ghost use Rattle.prv_settle.specs.Supported.{IsSupported};
ghost use Rattle.prv_settle.specs.Boards.{IsSupportedOn};
ghost use Rattle.prv_settle.specs.declared.limits.TheConstants.{MAX_PAYLOAD};

/// No input meets a condition on at most 8 words whose formula a log refutes.
pub fn refuted_conditions_have_no_input()
    ensures { (n : ℕ) (condition : List Term) (log : List LogLine) → n ≤ 8 → AllByRecursion (IsTerm n) condition → IsRefuted condition log →
        (x : List ℤ) → IsInput n x → holds condition x ≡ false }
{}

/// The other part of a partition that is settled by itself has no input.
pub fn granted_partitions_have_no_other_part()
    ensures { (pair : Pair) (region : List Term) (t x : List ℤ) → is_granted pair region t ≡ true → holds (other_part pair region t) x ≡ false }
{}

/// A settlement that a record supports is true, if its region's terms are over the pair's parameters and
/// neither they nor its numbers are too many.
pub fn supported_settlements_are_true()
    ensures { (f : Finding) (raw : Raw) → AllByRecursion (IsTerm f.pair.before.params) f.region → length f.region ≤ 2 ^ 48 → f.numbers < 2 ^ 62 →
        IsSupported f raw → IsSettlement f }
{}

/// The record that supports a settlement has the fields of its shape and is small enough for a journal, if its
/// region's terms are over the pair's parameters.
pub fn supporting_records_are_small()
    ensures fields { (f : Finding) (raw : Raw) → AllByRecursion (IsTerm f.pair.before.params) f.region → IsSupported f raw → HasFields raw }
    ensures small { (f : Finding) (raw : Raw) → AllByRecursion (IsTerm f.pair.before.params) f.region → IsSupported f raw → payload_length raw ≤ MAX_PAYLOAD }
{}

/// What settling a region may come to, from an input that is searched or at one that is given, is what
/// a record may support.
pub fn settled_regions_are_supported()
    ensures searched { (pair : Pair) (region : List Term) (entry lines : ℕ) (raw : Raw) → IsSettled pair region entry lines raw →
        IsRecord (IsShown pair.before.params) pair region entry raw }
    ensures given { (pair : Pair) (region : List Term) (entry lines : ℕ) (t : List ℤ) (raw : Raw) → IsInput pair.before.params t → holds region t ≡ true →
        IsSettledAt pair region entry lines t raw → IsRecord (IsShown pair.before.params) pair region entry raw }
{}

/// A board and a record determine the settlement that the record supports there.
pub fn boards_and_records_determine_settlements()
    ensures { (b : Replay) (f g : Finding) (raw : Raw) → IsSupportedOn b f raw → IsSupportedOn b g raw → f ≡ g }
{}

/// A settlement that a record supports is supported on each board of its pair on which a live entry of its number
/// has its region and is open to its parts.
pub fn open_entries_take_supported_settlements()
    ensures { (b : Replay) (f : Finding) (raw : Raw) (part : Part) → part_at (slots b) f.entry ≡ Some part → f.pair ≡ b.pair → f.region ≡ part.region →
        may_replace f.parts part.kind ≡ true → IsSupported f raw → IsSupportedOn b f raw }
{}
