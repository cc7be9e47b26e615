//! The slice of a program at an input.
//!
//! The program is run once, with its evaluations recorded. Of these the choice keeps those that what is
//! shown depends on; each evaluation gets a term over the parameters; and the conditions are those of what
//! is kept. So the slice says of every input that meets them what the run says of its own: the generalisation
//! step of concolic execution, with fewer conditions than the whole path has.
ghost use Rattle.std.specs.Prelude.{◌≡◌, ℕ, ℤ, ◌<◌, ◌≤◌, List, ◌++◌, length, map, true, Err, IfOk, OnOk};
ghost use Rattle.prv_model.specs.Boards.{IsInput};
ghost use Rattle.prv_model.specs.Outcomes.{outcome};
ghost use Rattle.prv_model.specs.Terms.{holds, term_value};
ghost use Rattle.prv_model.specs.declared.term.Term.{Term};
ghost use Rattle.prv_pool.specs.Tables.{add_terms};
ghost use Rattle.prv_run.specs.Runs.{run_of};
ghost use Rattle.prv_select.specs.Choices.{choose, nothing};
ghost use Rattle.prv_sym.specs.Calls.{Names, AllStand};
ghost use Rattle.prv_general.specs.Slices.{slice, slice_named};
ghost use Rattle.prv_general.specs.Answers.{IsSlice, IsTraced, terms_at};

use crate::error::GeneralError;
use crate::literals::literals;
use crate::outs::{add_end, outs};
use prv_dep::Writes;
use prv_model::{Ending, Input, Outcome, Program};
use prv_pool::{Pool, PoolError};
use prv_run::{Traced, trace};
use prv_select::select;
use prv_sym::terms;
use sqlite_items::Items;
use std::alloc::Global;

/// The most literals of a slice.
pub const MAX_LITERALS: usize = 1_024;

/// The slice of a program at an input, as nodes of a pool.
#[derive(Debug, Drop)]
pub struct Slice {
    /// The conditions in the order of the run, without the number 1. One may stand more than once.
    pub literals: Items<u32>,
    /// What is put out where the conditions hold; where the run returns, the returned term is the last.
    pub outs: Items<u32>,
    /// How the program ends where they hold.
    pub how: Ending,
    /// The marks that contribute, in rising order.
    pub marks: Items<u8>,
    /// What the program did at the input that the slice is made from.
    pub outcome: Outcome,
}

/// The slice of a program at an input, under a bound on the turns of its loops, however many literals it
/// has.
///
/// On every input on which all literals are nonzero, the program puts out the values of `outs` and ends
/// in this way. The pool has then all terms that are named on the way. After a refusal its nodes keep
/// their numbers; it may have some of these terms more.
///
/// The time and the memory are in proportion to the run and the size of the program.
pub fn slice_at(
    alloc: Global,
    program: &Program,
    input: &Input,
    turns: u32,
    pool: &mut Pool,
) -> Result<Slice, PoolError>
    requires { length input.now ≡ program.now.params }
    ensures slice { IfOk result (λ s. IsSlice pool.new.terms s (slice program.now turns input.now)) }
    ensures fixes { IfOk result (λ s. (y : List ℤ) → IsInput program.now.params y → holds (terms_at pool.new.terms s.literals) y ≡ true →
        outcome program.now turns y ≡ record { outs = map (λ t. term_value t y) (terms_at pool.new.terms s.outs); how = s.how }) }
    ensures outcome { IfOk result (λ s. s.outcome ≡ outcome program.now turns input.now) }
    ensures member { IfOk result (λ s. holds (terms_at pool.new.terms s.literals) input.now ≡ true) }
    ensures names { Names (slice_named program.now turns input.now) pool.old pool.new result }
{
    let _ = input.as_slice();
    let deps = Writes::of(alloc, program)?;
    let traced = trace(alloc, program, input, turns)?;
    let chosen = select(alloc, program, &traced, &deps)?;
    let nodes = make_nodes(alloc, program, &traced, chosen.events.as_slice(), pool)?;
    Ok(Slice {
        literals: nodes.literals,
        outs: nodes.outs,
        how: traced.outcome.how,
        marks: chosen.marks,
        outcome: traced.outcome,
    })
}

/// The slice of a program at an input, as `slice_at` makes it, if it has at most 1,024 literals.
///
/// The pool has then all terms that are named on the way, also where the literals are too many. Any other
/// refusal leaves a beginning of these.
pub fn generalise(
    alloc: Global,
    program: &Program,
    input: &Input,
    turns: u32,
    pool: &mut Pool,
) -> Result<Slice, GeneralError>
    requires { length input.now ≡ program.now.params }
    ensures slice { IfOk result (λ s. IsSlice pool.new.terms s (slice program.now turns input.now)) }
    ensures fixes { IfOk result (λ s. (y : List ℤ) → IsInput program.now.params y → holds (terms_at pool.new.terms s.literals) y ≡ true →
        outcome program.now turns y ≡ record { outs = map (λ t. term_value t y) (terms_at pool.new.terms s.outs); how = s.how }) }
    ensures outcome { IfOk result (λ s. s.outcome ≡ outcome program.now turns input.now) }
    ensures member { IfOk result (λ s. holds (terms_at pool.new.terms s.literals) input.now ≡ true) }
    ensures grows { OnOk result (pool.new.terms ≡ add_terms pool.old.terms (slice_named program.now turns input.now)) }
    ensures counted { result ≡ Err GeneralError.Literals → pool.new.terms ≡ add_terms pool.old.terms (slice_named program.now turns input.now) }
    ensures kept { (made : List Term) × (pool.new.terms ≡ pool.old.terms ++ made) }
    ensures only { (rest : List Term) × (add_terms pool.old.terms (slice_named program.now turns input.now) ≡ pool.new.terms ++ rest) }
    ensures limit { pool.new.max_nodes ≡ pool.old.max_nodes }
    ensures few { OnOk result (length (slice program.now turns input.now).literals ≤ 1024) }
    ensures literals { result ≡ Err GeneralError.Literals → 1024 < length (slice program.now turns input.now).literals }
    ensures wide { result ≡ Err GeneralError.Wide → pool.old.max_nodes < length (add_terms pool.old.terms (slice_named program.now turns input.now)) }
{
    let slice = slice_at(alloc, program, input, turns, pool)?;
    if slice.literals.len() > MAX_LITERALS {
        return Err(GeneralError::Literals);
    }
    Ok(slice)
}

/// The nodes of a slice.
#[derive(Drop)]
struct SliceNodes {
    /// Those of its conditions.
    literals: Items<u32>,
    /// Those of what it puts out.
    outs: Items<u32>,
}

/// Makes the nodes of a slice: those of the run, of what it puts out, and of its conditions.
fn make_nodes(
    alloc: Global,
    program: &Program,
    traced: &Traced,
    kept: &[bool],
    pool: &mut Pool,
) -> Result<SliceNodes, PoolError>
    requires { (x : List ℤ) × (turns : ℕ) × IsTraced program.now turns x traced.now × (kept.now ≡ (choose (run_of program.now turns x) nothing).kept) }
    ensures literals { (x : List ℤ) (turns : ℕ) → IsTraced program.now turns x traced.now → kept.now ≡ (choose (run_of program.now turns x) nothing).kept →
        IfOk result (λ n. AllStand pool.new.terms n.literals (slice program.now turns x).literals) }
    ensures outs { (x : List ℤ) (turns : ℕ) → IsTraced program.now turns x traced.now → kept.now ≡ (choose (run_of program.now turns x) nothing).kept →
        IfOk result (λ n. AllStand pool.new.terms n.outs (slice program.now turns x).outs) }
    ensures names { (x : List ℤ) (turns : ℕ) → IsTraced program.now turns x traced.now → kept.now ≡ (choose (run_of program.now turns x) nothing).kept →
        Names (slice_named program.now turns x) pool.old pool.new result }
{
    let symbols = terms(alloc, program, traced, pool)?;
    let events = traced.events.as_slice();
    let values = symbols.values.as_slice();
    let mut outs = outs(alloc, events, values)?;
    add_end(&mut outs, traced.outcome.outs.len(), pool)?;
    let literals = literals(alloc, events, kept, values, symbols.safes.as_slice(), pool)?;
    Ok(SliceNodes { literals, outs })
}
