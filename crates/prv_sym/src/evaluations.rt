//! The symbolic walk along a run: each evaluation becomes the nodes of its value and of its safety.
ghost use Rattle.std.specs.Prelude.{◌≡◌, ℕ, ℤ, List, IfOk, OnOk, map, slice_set};
ghost use Rattle.prv_pool.specs.Tables.{Table};
ghost use Rattle.prv_run.specs.Runs.{run_of, events as events_of};
ghost use Rattle.prv_sym.specs.Calls.{Names, AllStand, AreSlots, terms_of};
ghost use Rattle.prv_sym.specs.Named.{run_named, run_symbols};
ghost use Rattle.prv_sym.specs.Symbols.{start_terms};
ghost use Rattle.prv_sym.specs.Walks.{Walked, Reached, seen, row_of, slots_by, with_own, with_row, walked};
ghost use Rattle.prv_model.specs.declared.term.Term.{Term};

use crate::expressions::symbol;
use crate::statements::{Evaluation, evaluations, row};
use crate::symbol_nodes::Slot;
use prv_model::Program;
use prv_pool::{Pool, PoolError};
use prv_run::{Event, Traced};
use sqlite_items::Items;
use std::alloc::{AllocError, Global};

/// The nodes of the values and of the safety of a run's evaluations, in their order.
#[derive(Debug, Drop)]
pub struct Symbols {
    pub values: Items<u32>,
    pub safes: Items<u32>,
}

/// Where a walk along the evaluations of a run stands: what the variables have, and the nodes so far.
#[derive(Drop)]
pub struct Walk {
    pub slots: Items<Slot>,
    pub values: Items<u32>,
    pub safes: Items<u32>,
}

/// The terms that the evaluations of a run have over the parameters, and those of their safety.
///
/// The trace is the one that `trace` answers for this program. The pool has then all terms that are
/// named on the way. After a refusal its nodes keep their numbers; it may have some of them more.
pub fn terms(
    alloc: Global,
    program: &Program,
    trace: &Traced,
    pool: &mut Pool,
) -> Result<Symbols, PoolError>
    ensures values { (x : List ℤ) (turns : ℕ) → trace.now.events ≡ events_of (run_of program.now turns x) →
        IfOk result (λ s. AllStand pool.new.terms s.values (map (λ y. y.term) (run_symbols (run_of program.now turns x) (start_terms program.now)))) }
    ensures safes { (x : List ℤ) (turns : ℕ) → trace.now.events ≡ events_of (run_of program.now turns x) →
        IfOk result (λ s. AllStand pool.new.terms s.safes (map (λ y. y.safe) (run_symbols (run_of program.now turns x) (start_terms program.now)))) }
    ensures names { (x : List ℤ) (turns : ℕ) → trace.now.events ≡ events_of (run_of program.now turns x) →
        Names (run_named (run_of program.now turns x) (start_terms program.now)) pool.old pool.new result }
{
    let rows = evaluations(alloc, program.body.as_slice())?;
    let slots = first_slots(alloc, program)?;
    let mut walk = Walk {
        slots,
        values: Items::new(alloc),
        safes: Items::new(alloc),
    };
    go_along(trace.events.as_slice(), rows.as_slice(), &mut walk, pool)?;
    Ok(Symbols {
        values: walk.values,
        safes: walk.safes,
    })
}

/// Goes on along evaluations.
fn go_along(
    events: &[Event],
    rows: &[Option<Evaluation<'_>>],
    walk: &mut Walk,
    pool: &mut Pool,
) -> Result<(), PoolError>
    requires { AreSlots pool.old.terms walk.old.slots }
    ensures slots { OnOk result (AreSlots pool.new.terms walk.new.slots) }
    ensures reached { (first : Table) (w : Walked) → Reached first pool.old walk.old w →
        OnOk result (Reached first pool.new walk.new (walked (map row_of rows.now) events.now w)) }
    ensures names { (first : Table) (w : Walked) → Reached first pool.old walk.old w →
        Names (walked (map row_of rows.now) events.now w).named first pool.new result }
{
    for event in events {
        go_on(row(rows, event.stmt), event.safe, walk, pool)?;
    }
    Ok(())
}

/// Goes on by what a statement evaluates, if anything.
fn go_on(
    row: Option<Evaluation<'_>>,
    safe: bool,
    walk: &mut Walk,
    pool: &mut Pool,
) -> Result<(), PoolError>
    requires { AreSlots pool.old.terms walk.old.slots }
    ensures slots { OnOk result (AreSlots pool.new.terms walk.new.slots) }
    ensures reached { (first : Table) (w : Walked) → Reached first pool.old walk.old w →
        OnOk result (Reached first pool.new walk.new (with_row (row_of row.entry) safe w)) }
    ensures names { (first : Table) (w : Walked) → Reached first pool.old walk.old w →
        Names (with_row (row_of row.entry) safe w).named first pool.new result }
{
    match row {
        None => Ok(()),
        Some(own) => evaluate(own, safe, walk, pool),
    }
}

/// Goes on by one evaluation.
fn evaluate(
    own: Evaluation<'_>,
    safe: bool,
    walk: &mut Walk,
    pool: &mut Pool,
) -> Result<(), PoolError>
    requires { AreSlots pool.old.terms walk.old.slots }
    ensures slots { OnOk result (AreSlots pool.new.terms walk.new.slots) }
    ensures reached { (first : Table) (w : Walked) → Reached first pool.old walk.old w →
        OnOk result (Reached first pool.new walk.new (with_own (seen own.entry) safe w)) }
    ensures names { (first : Table) (w : Walked) → Reached first pool.old walk.old w →
        Names (with_own (seen own.entry) safe w).named first pool.new result }
{
    let nodes = symbol(own.expr, walk.slots.as_slice(), pool)?;
    walk.values.push(nodes.value)?;
    walk.safes.push(nodes.safe)?;
    assign(&mut walk.slots, own.sets, safe, nodes.value);
    Ok(())
}

/// Gives the variable that is set, if one is, a node's term, where the evaluation had a value.
fn assign(slots: &mut Items<Slot>, sets: Option<u8>, safe: bool, node: u32)
    ensures { slots.new ≡ slots_by sets safe node slots.old }
{
    if safe {
        match sets {
            None => {}
            Some(v) => set(slots, v, node),
        }
    }
}

/// Gives a variable a node's term.
fn set(slots: &mut Items<Slot>, var: u8, node: u32)
    ensures { slots.new ≡ slice_set slots.old var (Slot.Node node) }
{
    if (var as usize) < slots.len() {
        slots.set(var as usize, Slot::Node(node));
    }
}

/// What the variables have before a run.
fn first_slots(alloc: Global, program: &Program) -> Result<Items<Slot>, AllocError>
    ensures slots { (terms : List Term) → IfOk result (λ slots. AreSlots terms slots) }
    ensures terms { (terms : List Term) → IfOk result (λ slots. terms_of terms slots ≡ start_terms program.now) }
{
    let mut slots = Items::new(alloc);
    for k in 0..program.params {
        slots.push(Slot::Param(k))?;
    }
    for _ in 0..program.names.len() - program.params as usize {
        slots.push(Slot::Zero)?;
    }
    Ok(slots)
}
