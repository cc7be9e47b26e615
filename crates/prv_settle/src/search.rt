//! The search for an input that meets a condition. A few fixed inputs are tried first, since they cost one evaluation
//! of the terms each; only where none of them serves is the condition turned into clauses and the solver asked.
ghost use Rattle.std.specs.Prelude.{◌≡◌, ◌≤◌, ◌++◌, ◌-◌, None, List, length, map, replicate, pos, IfOk, MatchOption};
ghost use Rattle.prv_model.specs.Boards.{IsInput};
ghost use Rattle.prv_model.specs.declared.entry.Reason.TheVariants as r;
ghost use Rattle.prv_model.specs.declared.term.Term.{Term};
ghost use Rattle.prv_cnf.specs.Models.{values_of};
ghost use Rattle.prv_pool.specs.Tables.{term_at};
ghost use Rattle.prv_blast.specs.Inputs.{input_at};
ghost use Rattle.prv_settle.specs.Probes.{first_probe as first_probe_of};
ghost use Rattle.prv_settle.specs.Answers.{IsSearched};
ghost use Rattle.prv_settle.specs.Asking.{IsAsked, IsCondition};

use crate::answer::Answer;
use crate::limits::MAX_NUMBERS;
use crate::probe::first_probe;
use crate::task::Options;
use prv_blast::{BlastError, Blasted, MAX_CLAUSES, blast};
use prv_check::{Line, Log};
use prv_model::{Input, Reason};
use prv_pool::Pool;
use prv_record::Proof;
use prv_region::Cond;
use prv_sat::{Found, solve_from};
use std::alloc::{AllocError, Global};

/// Searches for an input of so many words that meets a condition, within a budget: the probes are tried,
/// and then the solver is asked.
pub(crate) fn search(
    alloc: Global,
    pool: &Pool,
    cond: &Cond,
    params: u8,
    options: Options,
) -> Result<Answer, AllocError>
    requires { IsCondition params pool.now.terms cond.now }
    ensures { IfOk result (λ answer. IsSearched params options.lines (map (term_at pool.now.terms) cond.now) answer) }
{
    match first_probe(alloc, pool, cond, params)? {
        Some(probe) => Ok(Answer::Held(probe)),
        None => {
            let answer = solved(alloc, pool, cond, params, options)?;
            Ok(answer)
        }
    }
}

/// Asks the solver for an input that meets a condition that no probe meets.
fn solved(
    alloc: Global,
    pool: &Pool,
    cond: &Cond,
    params: u8,
    options: Options,
) -> Result<Answer, AllocError>
    requires condition { IsCondition params pool.now.terms cond.now }
    requires unmet { first_probe_of params (map (term_at pool.now.terms) cond.now) ≡ None }
    ensures { IfOk result (λ answer. IsSearched params options.lines (map (term_at pool.now.terms) cond.now) answer) }
{
    match blast(alloc, pool, cond) {
        Ok(blasted) => {
            let answer = solved_formula(alloc, &blasted, params, options)?;
            Ok(answer)
        }
        Err(BlastError::Clauses { count }) => Ok(Answer::Undecided(
            Reason::Clauses { count },
            Proof::None,
        )),
        Err(BlastError::Memory) => Err(AllocError),
    }
}

/// Asks the solver for a model of a condition's formula.
fn solved_formula(
    alloc: Global,
    blasted: &Blasted,
    params: u8,
    options: Options,
) -> Result<Answer, AllocError>
    requires { (condition : List Term) × IsAsked params condition blasted.now }
    ensures { (condition : List Term) → IsAsked params condition blasted.now → IfOk result (λ answer. IsSearched params options.lines condition answer) }
{
    let inputs = 32 * u32::from(blasted.params);
    match solve_from(alloc, &blasted.cnf, options.lines, MAX_NUMBERS, inputs)? {
        Found::Values(values) => {
            let input = input_of(alloc, blasted, values.as_slice(), params)?;
            Ok(Answer::Held(input))
        }
        Found::Refuted(log) => Ok(Answer::Refuted(log)),
        Found::Spent { log, next } => {
            let why = reason(&log, &next, options.lines);
            Ok(Answer::Undecided(why, Proof::Spent { log, next }))
        }
    }
}

/// The input of so many words whose bits are the values of the first variables; the words past the
/// formula's are 0.
fn input_of(
    alloc: Global,
    blasted: &Blasted,
    values: &[bool],
    params: u8,
) -> Result<Input, AllocError>
    requires { blasted.now.params ≤ params }
    ensures words { IfOk result (λ x. x ≡ input_at blasted.now.params (values_of values.now) ++ replicate (params - blasted.now.params) (pos 0)) }
    ensures input { IfOk result (λ x. IsInput params x) }
{
    let mut input = blasted.input_of(alloc, values)?;
    for _ in blasted.params..params {
        input.push(0)?;
    }
    let _ = input.as_slice();
    Ok(input)
}

/// Why a budget of so many lines was spent on a log: all its lines are there, or the line that would come
/// next would pass the numbers.
fn reason(log: &Log, next: &Option<Line>, lines: u32) -> Reason
    requires { length log.now ≤ MAX_NUMBERS }
    ensures { MatchOption next.now (result ≡ r.Lines lines) (λ _. result ≡ r.Numbers (length log.now)) }
{
    match next {
        None => Reason::Lines { budget: lines },
        Some(_) => Reason::Numbers {
            lines: log.lines().len() as u32,
        },
    }
}
