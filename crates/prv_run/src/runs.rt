//! The runs of a program: its outcome, and its outcome with what was evaluated.
ghost use Rattle.std.specs.Prelude.{◌≡◌, ◌≤◌, ◌-◌, ◌++◌, [], pos, length, replicate, IfOk, OnOk};
ghost use Rattle.prv_model.specs.Numbers.{statements_all};
ghost use Rattle.prv_model.specs.Outcomes.{outcome, finish as finish_of};
ghost use Rattle.prv_run.specs.Runs.{run_of, events as events_of};
ghost use Rattle.prv_run.specs.Telling.{tell, Knows};

use crate::event::Traced;
use crate::execute::{Frame, execute_all};
use crate::record::Recorder;
use crate::sizes::sizes;
use prv_model::{Ending, Input, Outcome, Program};
use sqlite_items::Items;
use std::alloc::{AllocError, Global};

/// Runs a program on an input, under a bound on the turns of its loops.
///
/// The time is in proportion to the statements and expressions that are run, and the memory to the
/// words that are put out and the variables.
pub fn run(
    alloc: Global,
    program: &Program,
    input: &Input,
    turns: u32,
) -> Result<Outcome, AllocError>
    requires { length input.now ≡ program.now.params }
    ensures { IfOk result (λ o. o ≡ outcome program.now turns input.now) }
{
    let mut recorder = Recorder::Off;
    run_told(alloc, program, input, turns, &mut recorder)
}

/// Runs a program as `run` does, and answers beside the outcome what was evaluated, in order.
///
/// The time and the memory are in proportion to the statements and expressions that are run, and to the
/// size of the program.
pub fn trace(
    alloc: Global,
    program: &Program,
    input: &Input,
    turns: u32,
) -> Result<Traced, AllocError>
    requires { length input.now ≡ program.now.params }
    ensures events { IfOk result (λ t. t.events ≡ events_of (run_of program.now turns input.now)) }
    ensures outcome { IfOk result (λ t. t.outcome ≡ outcome program.now turns input.now) }
{
    let mut recorder = Recorder::On {
        sizes: sizes(alloc, program.body.as_slice())?,
        events: Items::new(alloc),
    };
    let outcome = run_told(alloc, program, input, turns, &mut recorder)?;
    Ok(Traced {
        events: recorder.into_events(alloc),
        outcome,
    })
}

/// Runs a program, and tells a recorder of each evaluation.
fn run_told(
    alloc: Global,
    program: &Program,
    input: &Input,
    turns: u32,
    recorder: &mut Recorder,
) -> Result<Outcome, AllocError>
    requires arity { length input.now ≡ program.now.params }
    requires known { Knows recorder.old 0 (statements_all program.now.body) }
    ensures done { IfOk result (λ o. o ≡ outcome program.now turns input.now) }
    ensures told { OnOk result (recorder.new ≡ tell recorder.old (events_of (run_of program.now turns input.now))) }
{
    let state = initial_state(alloc, input.as_slice(), program.names.len())?;
    let mut frame = Frame {
        state,
        outs: Items::new(alloc),
        turns,
    };
    let ending = execute_all(program.body.as_slice(), 0, &mut frame, recorder)?;
    finish(ending, frame.outs)
}

/// The words of an input, and 0 for each variable past the parameters.
fn initial_state(alloc: Global, words: &[i32], count: usize) -> Result<Items<i32>, AllocError>
    requires { length words.now ≤ count }
    ensures { IfOk result (λ state. state ≡ words.now ++ replicate (count - length words.now) (pos 0)) }
{
    let mut state = Items::from_slice(alloc, words)?;
    for _ in 0..count - words.len() {
        state.push(0)?;
    }
    Ok(state)
}

/// The outcome of a run that has put out these words and has this ending, if any; the end of `main`
/// returns 0.
fn finish(ending: Option<Ending>, outs: Items<i32>) -> Result<Outcome, AllocError>
    ensures { IfOk result (λ o. o ≡ finish_of ending outs) }
{
    let mut outs = outs;
    match ending {
        Some(how) => Ok(Outcome { outs, how }),
        None => {
            outs.push(0)?;
            Ok(Outcome {
                outs,
                how: Ending::Returned,
            })
        }
    }
}
