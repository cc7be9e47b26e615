//! The conditions of a slice: what has to hold of an input so that the run takes the same way.
//!
//! They are the path condition of the evaluations that are kept: of each its safety, or that it faults, and
//! of a test or an assertion also that it is on the same side. A condition that folds to the number 1 says
//! nothing and is left out.
ghost use Rattle.std.specs.Prelude.{◌≡◌, ◌<◌, List, [], ◌∷◌, ◌++◌, length, filter, All, IfOk, OnOk};
ghost use Rattle.prv_model.specs.Words.{is_zero as is_zero_of};
ghost use Rattle.prv_model.specs.declared.term.Term.{Term};
ghost use Rattle.prv_pool.specs.Nodes.{node_term};
ghost use Rattle.prv_pool.specs.Tables.{term_at};
ghost use Rattle.prv_sym.specs.Calls.{Names, StandsFor, AreIn, AllStand, symbol_at};
ghost use Rattle.prv_general.specs.Slices.{says_something as says_something_of, branch_condition as branch_condition_of, branch_condition_named};
ghost use Rattle.prv_general.specs.Conditions.{node_is_one, decision, decision_names, conditions, condition_names, decides as decides_of, flagged, if_kept, along, symbols_at};

use prv_pool::{Node, Pool, PoolError};
use prv_run::{Event, What};
use prv_sym::SymbolNodes;
use sqlite_items::Items;
use std::alloc::{AllocError, Global};

/// The nodes of the conditions of the evaluations that are kept, by the nodes of their values and of
/// their safety.
pub fn literals(
    alloc: Global,
    events: &[Event],
    kept: &[bool],
    values: &[u32],
    safes: &[u32],
    pool: &mut Pool,
) -> Result<Items<u32>, PoolError>
    requires flags { length kept.now ≡ length events.now }
    requires values { length values.now ≡ length events.now }
    requires safes { length safes.now ≡ length events.now }
    requires values_in { All (λ n. n < length pool.old.terms) values.now }
    requires safes_in { All (λ n. n < length pool.old.terms) safes.now }
    ensures stand { IfOk result (λ literals. AllStand pool.new.terms literals (filter says_something_of (along (if_kept conditions) events.now (flagged kept.now (symbols_at pool.old.terms values.now safes.now))))) }
    ensures names { Names (along (if_kept condition_names) events.now (flagged kept.now (symbols_at pool.old.terms values.now safes.now))) pool.old pool.new result }
{
    let mut literals = Items::new(alloc);
    for k in 0..events.len() {
        let nodes = SymbolNodes {
            value: values[k],
            safe: safes[k],
        };
        add_if_kept(kept[k], events[k], nodes, &mut literals, pool)?;
    }
    Ok(literals)
}

/// Adds the conditions of an evaluation, if it is kept.
fn add_if_kept(
    kept: bool,
    event: Event,
    nodes: SymbolNodes,
    literals: &mut Items<u32>,
    pool: &mut Pool,
) -> Result<(), PoolError>
    requires { AreIn pool.old.terms nodes }
    ensures stand { (ts : List Term) → AllStand pool.old.terms literals.old (filter says_something_of ts) →
        OnOk result (AllStand pool.new.terms literals.new (filter says_something_of (ts ++ if_kept conditions event (record { kept = kept; symbol = symbol_at pool.old.terms nodes })))) }
    ensures names { Names (if_kept condition_names event (record { kept = kept; symbol = symbol_at pool.old.terms nodes })) pool.old pool.new result }
{
    if kept {
        add_conditions(event, nodes, literals, pool)
    } else {
        Ok(())
    }
}

/// Adds the conditions of an evaluation: that it faults, or that it doesn't and that it decides as it did.
fn add_conditions(
    event: Event,
    nodes: SymbolNodes,
    literals: &mut Items<u32>,
    pool: &mut Pool,
) -> Result<(), PoolError>
    requires { AreIn pool.old.terms nodes }
    ensures stand { (ts : List Term) → AllStand pool.old.terms literals.old (filter says_something_of ts) →
        OnOk result (AllStand pool.new.terms literals.new (filter says_something_of (ts ++ conditions event (symbol_at pool.old.terms nodes)))) }
    ensures names { Names (condition_names event (symbol_at pool.old.terms nodes)) pool.old pool.new result }
{
    if event.safe {
        add(nodes.safe, literals, pool)?;
        add_decision(event, nodes.value, literals, pool)
    } else {
        let faults = pool.not(nodes.safe)?;
        add(faults, literals, pool)?;
        Ok(())
    }
}

/// Adds the condition that an evaluation decides as it did, where it decides.
fn add_decision(
    event: Event,
    value: u32,
    literals: &mut Items<u32>,
    pool: &mut Pool,
) -> Result<(), PoolError>
    requires { value < length pool.old.terms }
    ensures stand { (ts : List Term) → AllStand pool.old.terms literals.old (filter says_something_of ts) →
        OnOk result (AllStand pool.new.terms literals.new (filter says_something_of (ts ++ decision event (term_at pool.old.terms value)))) }
    ensures names { Names (decision_names event (term_at pool.old.terms value)) pool.old pool.new result }
{
    if decides(event.what) {
        let condition = branch_condition(event, value, pool)?;
        add(condition, literals, pool)?;
        Ok(())
    } else {
        Ok(())
    }
}

/// Whether it matters to a run if a value is 0.
fn decides(what: What) -> bool
    ensures { result ≡ decides_of what }
{
    matches!(what, What::Test | What::Assert)
}

/// The node that a term is nonzero, where the evaluation's word is, and that it is 0, where the word is 0.
fn branch_condition(event: Event, node: u32, pool: &mut Pool) -> Result<u32, PoolError>
    requires { node < length pool.old.terms }
    ensures stands { IfOk result (λ n. StandsFor pool.new.terms n (branch_condition_of event.value (term_at pool.old.terms node))) }
    ensures names { Names (branch_condition_named event.value (term_at pool.old.terms node)) pool.old pool.new result }
{
    let truth = pool.truth(node)?;
    if is_zero(event) {
        pool.not(truth)
    } else {
        Ok(truth)
    }
}

/// Whether an evaluation's word is 0.
fn is_zero(event: Event) -> bool
    ensures { result ≡ is_zero_of event.value }
{
    event.value == 0
}

/// Adds a condition, unless it is the number 1.
fn add(node: u32, literals: &mut Items<u32>, pool: &Pool) -> Result<(), AllocError>
    requires { node < length pool.now.terms }
    ensures { (ts : List Term) → AllStand pool.now.terms literals.old (filter says_something_of ts) →
        OnOk result (AllStand pool.now.terms literals.new (filter says_something_of (ts ++ term_at pool.now.terms node ∷ []))) }
{
    if says_something(pool.node(node)) {
        literals.push(node)?;
        Ok(())
    } else {
        Ok(())
    }
}

/// Whether a node's term is another one than the number 1.
fn says_something(node: Node) -> bool
    ensures { (terms : List Term) → result ≡ says_something_of (node_term terms node) }
{
    !is_one(node)
}

/// Whether a node is the number 1.
fn is_one(node: Node) -> bool
    ensures { result ≡ node_is_one node }
{
    match node {
        Node::Num(n) => n == 1,
        _ => false,
    }
}
