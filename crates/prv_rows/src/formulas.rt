//! Formulas of conditions: what is found of them within some lines, and what they cost.
ghost use Rattle.std.specs.Prelude.{◌≡◌, ◌≤◌, length, true, nat_lt, IfOk, OnOk};
ghost use Rattle.std.specs.List.{AllByRecursion, list_all};
ghost use Rattle.prv_model.specs.Terms.{IsTerm};
ghost use Rattle.prv_settle.specs.declared.limits.TheConstants.{MAX_LINES};

use crate::nodes::{node_of, op_of, op_on};
use crate::refusal::Refusal;
use prv_blast::{BlastError, Blasted, blast};
use prv_check::check;
use prv_model::Input;
use prv_pool::Pool;
use prv_region::Cond;
use prv_sat::{Found, solve_from};
use prv_settle::MAX_LINES;
use std::alloc::{AllocError, Global};
use std::sync::Arc;

/// What a condition's formula shows.
#[derive(Drop)]
pub enum Shown {
    /// An input that meets the condition.
    Met(Input),
    /// A log refutes it, which the checker accepts.
    Refuted,
    /// The lines are spent.
    Open,
    /// It has more than a million clauses.
    Large,
    /// There is none, since the condition costs so much.
    Costs(u64),
}

/// What is shown of the condition whose literals are left on a stack by the words of a text: `a`, `b` and `c`, numbers,
/// and operators behind their operands. With one line that is what unit propagation shows.
pub fn shown_of(alloc: Global, text: &str, lines: u32) -> Result<Shown, Refusal>
    requires some { 1 ≤ lines }
    requires few { lines ≤ MAX_LINES }
{
    let mut pool = Pool::new(alloc, 1_000);
    let cond = condition_of(alloc, &mut pool, text)?;
    match blast(alloc, &pool, &cond) {
        Ok(blasted) => solved(alloc, &blasted, lines),
        Err(BlastError::Clauses { count }) => Ok(Shown::Costs(count)),
        Err(BlastError::Memory) => Err(Refusal::Memory(AllocError)),
    }
}

/// What the solver shows within so many lines.
fn solved(alloc: Global, blasted: &Blasted, lines: u32) -> Result<Shown, Refusal>
    requires some { 1 ≤ lines }
    requires few { lines ≤ MAX_LINES }
{
    if blasted.cnf.clauses().len() > 1_000_000 {
        return Ok(Shown::Large);
    }
    match solve_from(alloc, &blasted.cnf, lines, 1_000_000_000, 0)? {
        Found::Values(values) => Ok(Shown::Met(blasted.input_of(alloc, values.as_slice())?)),
        Found::Refuted(log) => {
            check(alloc, &blasted.cnf, &log)?;
            Ok(Shown::Refuted)
        }
        Found::Spent { log: _, next: _ } => Ok(Shown::Open),
    }
}

/// The condition of a text.
fn condition_of(alloc: Global, pool: &mut Pool, text: &str) -> Result<Cond, Refusal>
    requires known { AllByRecursion (IsTerm 8) pool.old.terms }
    ensures known { OnOk result (AllByRecursion (IsTerm 8) pool.new.terms) }
    ensures there { IfOk result (λ cond. list_all (λ n. nat_lt n (length pool.new.terms)) cond ≡ true) }
    ensures few { IfOk result (λ cond. length cond ≤ 1000) }
{
    let roots = roots_of(alloc, pool, text)?;
    if roots.len() > 1_000 || !are_nodes(pool, roots.as_slice()) {
        return Err(Refusal::Row);
    }
    let roots = Arc::new(alloc, roots)?;
    Ok(Cond::new(roots))
}

/// Whether nodes have these numbers.
fn are_nodes(pool: &Pool, numbers: &[u32]) -> bool
    ensures { result ≡ list_all (λ n. nat_lt n (length pool.now.terms)) numbers.now }
{
    let nodes = pool.len();
    numbers.iter().all(|number| *number < nodes)
}

/// The numbers that a text leaves on its stack.
fn roots_of(alloc: Global, pool: &mut Pool, text: &str) -> Result<Vec<u32>, Refusal>
    requires { AllByRecursion (IsTerm 8) pool.old.terms }
    ensures { OnOk result (AllByRecursion (IsTerm 8) pool.new.terms) }
{
    let mut stack = Vec::new(alloc);
    for word in text.split(' ') {
        step(pool, &mut stack, word)?;
    }
    Ok(stack)
}

/// Puts the node of a word on the stack, in the place of its operands.
fn step(pool: &mut Pool, stack: &mut Vec<u32>, word: &str) -> Result<(), Refusal>
    requires known { AllByRecursion (IsTerm 8) pool.old.terms }
    ensures known { OnOk result (AllByRecursion (IsTerm 8) pool.new.terms) }
{
    let node = match op_of(word) {
        None => node_of(pool, word)?,
        Some(operator) => {
            let b = stack.pop().ok_or(Refusal::Row)?;
            let a = stack.pop().ok_or(Refusal::Row)?;
            op_on(pool, operator, a, b)?
        }
    };
    stack.push(node)?;
    Ok(())
}
