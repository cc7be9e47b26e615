//! From the bytes of a text to its tokens, its tree, its version and its runs.
ghost use Rattle.std.specs.Prelude.{◌≡◌, length};

use crate::refusal::Refusal;
use prv_dep::Writes;
use prv_lex::tokens;
use prv_line::TURNS;
use prv_marks::pair;
use prv_model::{Input, Outcome, Pair, Program};
use prv_names::Version;
use prv_parse::{Tree, parse};
use prv_pool::Pool;
use prv_run::Traced;
use prv_select::{Chosen, select};
use prv_sym::{Symbols, terms};
use prv_version::read_version;
use std::alloc::Global;

pub fn tree_of(alloc: Global, text: &[u8]) -> Result<Tree, Refusal> {
    let list = tokens(alloc, text)?;
    if list.len() > 65_536 {
        return Err(Refusal::Row);
    }
    let end = text.len().min(65_536) as u32;
    Ok(parse(alloc, list.as_slice(), end)?)
}

pub fn version_of(alloc: Global, text: &[u8]) -> Result<Version, Refusal> {
    Ok(read_version(alloc, text)?)
}

pub fn pair_of(alloc: Global, before: &[u8], after: &[u8]) -> Result<Pair, Refusal> {
    let before = version_of(alloc, before)?;
    let after = version_of(alloc, after)?;
    Ok(pair(before, after, TURNS.default)?)
}

/// A program, with an input and a bound on its turns, which are the numbers before it.
#[derive(Drop)]
struct Case {
    /// The program.
    program: Program,
    /// Its input.
    input: Input,
    /// The turns of a run.
    turns: u32,
    ghost arity: { length input ≡ program.params },
}

fn case_of(alloc: Global, numbers: &str, text: &[u8]) -> Result<Case, Refusal> {
    let (turns, words) = numbers.split_once(' ').ok_or(Refusal::Row)?;
    let turns: u32 = turns.parse()?;
    let mut input = Input::new(alloc);
    for word in words.split(' ') {
        let word: i32 = word.parse()?;
        input.push(word)?;
    }
    let program = version_of(alloc, text)?.program;
    if input.as_slice().len() != program.params as usize {
        return Err(Refusal::Row);
    }
    Ok(Case {
        program,
        input,
        turns,
    })
}

/// What a program shows on an input of these numbers, after the bound on its turns.
pub fn run_of(alloc: Global, numbers: &str, text: &[u8]) -> Result<Outcome, Refusal> {
    let case = case_of(alloc, numbers, text)?;
    Ok(prv_run::run(alloc, &case.program, &case.input, case.turns)?)
}

/// What is evaluated in that run, and what it shows.
pub fn trace_of(alloc: Global, numbers: &str, text: &[u8]) -> Result<Traced, Refusal> {
    let case = case_of(alloc, numbers, text)?;
    Ok(prv_run::trace(alloc, &case.program, &case.input, case.turns)?)
}

/// Which evaluations of that run are kept, and which marks contribute.
pub fn chosen_of(alloc: Global, numbers: &str, text: &[u8]) -> Result<Chosen, Refusal> {
    let case = case_of(alloc, numbers, text)?;
    let traced = prv_run::trace(alloc, &case.program, &case.input, case.turns)?;
    let deps = Writes::of(alloc, &case.program)?;
    Ok(select(alloc, &case.program, &traced, &deps)?)
}

/// The terms of what is evaluated in the run of a program of two parameters, on two zeros.
pub fn terms_of(alloc: Global, text: &[u8], pool: &mut Pool) -> Result<Symbols, Refusal> {
    let case = case_of(alloc, "0 0 0", text)?;
    let traced = prv_run::trace(alloc, &case.program, &case.input, case.turns)?;
    Ok(terms(alloc, &case.program, &traced, pool)?)
}
