//! What a slice puts out: the nodes of the words that the run puts out, as terms over the parameters.
ghost use Rattle.std.specs.Prelude.{◌≡◌, List, [], ◌∷◌, ◌++◌, length, pos, IfOk, OnOk};
ghost use Rattle.prv_model.specs.declared.term.Term.{Term};
ghost use Rattle.prv_model.specs.declared.term.Term.TheVariants.{Num};
ghost use Rattle.prv_sym.specs.Calls.{Names, StandsFor, AllStand};
ghost use Rattle.prv_general.specs.Conditions.{along, event_outs, puts as puts_of, end_by};

use prv_pool::{Pool, PoolError};
use prv_run::{Event, What};
use sqlite_items::Items;
use std::alloc::{AllocError, Global};

/// The nodes of what the evaluations of a run put out, by the nodes of their values.
pub fn outs(alloc: Global, events: &[Event], values: &[u32]) -> Result<Items<u32>, AllocError>
    requires { length values.now ≡ length events.now }
    ensures { (terms ts : List Term) → AllStand terms values.now ts → IfOk result (λ outs. AllStand terms outs (along event_outs events.now ts)) }
{
    let mut outs = Items::new(alloc);
    for k in 0..events.len() {
        add_out(events[k], values[k], &mut outs)?;
    }
    Ok(outs)
}

/// Adds the node of an evaluation's value, where it is put out or returned.
fn add_out(event: Event, value: u32, outs: &mut Items<u32>) -> Result<(), AllocError>
    ensures { (terms ts : List Term) (t : Term) → AllStand terms outs.old ts → StandsFor terms value t → OnOk result (AllStand terms outs.new (ts ++ event_outs event t)) }
{
    if event.safe && puts(event.what) {
        outs.push(value)?;
        Ok(())
    } else {
        Ok(())
    }
}

/// Whether a value is put out or returned.
fn puts(what: What) -> bool
    ensures { result ≡ puts_of what }
{
    matches!(what, What::Out | What::Return)
}

/// Adds the node of the 0 at the end of `main`, where more words were put out than these nodes.
pub fn add_end(outs: &mut Items<u32>, words: usize, pool: &mut Pool) -> Result<(), PoolError>
    ensures stands { (ts : List Term) → AllStand pool.old.terms outs.old ts → OnOk result (AllStand pool.new.terms outs.new (ts ++ end_by (length outs.old) words)) }
    ensures names { Names (end_by (length outs.old) words) pool.old pool.new result }
{
    if outs.len() < words {
        add_zero(outs, pool)
    } else {
        Ok(())
    }
}

/// Adds the node of 0.
fn add_zero(outs: &mut Items<u32>, pool: &mut Pool) -> Result<(), PoolError>
    ensures stands { (ts : List Term) → AllStand pool.old.terms outs.old ts → OnOk result (AllStand pool.new.terms outs.new (ts ++ Num (pos 0) ∷ [])) }
    ensures names { Names (Num (pos 0) ∷ []) pool.old pool.new result }
{
    let zero = pool.num(0)?;
    outs.push(zero)?;
    Ok(())
}
