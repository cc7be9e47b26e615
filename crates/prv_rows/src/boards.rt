//! Boards of pairs, made by the settlements that a row asks for.
ghost use Rattle.std.specs.Prelude.{◌≡◌, ◌≤◌, [], length, IfOk};
ghost use Rattle.prv_board.specs.Replays.{AreCaps};
ghost use Rattle.prv_settle.specs.declared.limits.TheConstants.{MAX_LINES};

use crate::expansion::expanded;
use crate::refusal::Refusal;
use crate::stages::pair_of;
use prv_board::Board;
use prv_model::{Input, Pair};
use prv_part::Caps;
use prv_pool::Pool;
use prv_region::{Cond, Region, Scratch};
use prv_settle::{MAX_LINES, Options, Settled, settle, settle_at};
use std::alloc::{AllocError, Global};
use std::sync::Arc;

/// More than any row needs.
const AMPLE: Caps = Caps {
    entries: 200_000,
    numbers: 50_000_000,
    literals: 50_000_000,
};

/// An entry that is to be settled, by so many lines, and at this input where one is given.
#[derive(Drop)]
struct Step {
    /// The entry's number.
    entry: u32,
    /// The budget of each search.
    lines: u32,
    /// The input, where one is given.
    input: Option<Input>,
    ghost some: { 1 ≤ lines },
    ghost budget: { lines ≤ MAX_LINES },
}

/// The words of an input, with `,` between them.
fn input_of(alloc: Global, words: &str) -> Result<Input, Refusal> {
    let mut input = Input::new(alloc);
    for word in words.split(',') {
        let word: i32 = word.parse()?;
        input.push(word)?;
    }
    Ok(input)
}

/// A step as it is written: `ENTRY/LINES`, or `ENTRY/LINES@INPUT`.
fn step_of(alloc: Global, text: &str) -> Result<Step, Refusal> {
    let (what, words) = text.split_once('@').unwrap_or((text, ""));
    let (entry, lines) = what.split_once('/').ok_or(Refusal::Row)?;
    let entry: u32 = entry.parse()?;
    let lines: u32 = lines.parse()?;
    let input = if words.is_empty() {
        None
    } else {
        Some(input_of(alloc, words)?)
    };
    if lines == 0 || lines > MAX_LINES {
        return Err(Refusal::Row);
    }
    Ok(Step {
        entry,
        lines,
        input,
    })
}

/// The region of all inputs.
fn all_inputs(alloc: Global) -> Result<Region, AllocError>
    ensures { IfOk result (λ region. region ≡ []) }
{
    let pool = Arc::new(alloc, Pool::new(alloc, 0))?;
    let cond = Cond::new(Arc::new(alloc, Vec::new(alloc))?);
    Ok(Region::new(pool, cond))
}

/// What a step finds of its entry.
fn settle_step(alloc: Global, board: &Board, step: &Step) -> Result<Settled, Refusal> {
    let part = board.entry(step.entry).ok_or(Refusal::Row)?;
    let pair = board.pair();
    let options = Options { lines: step.lines };
    match &step.input {
        None => Ok(settle(alloc, pair, step.entry, &part.region, options)?),
        Some(input) => {
            if input.as_slice().len() != pair.before.params as usize {
                return Err(Refusal::Row);
            }
            Ok(settle_at(alloc, pair, step.entry, &part.region, options, input)?)
        }
    }
}

/// Takes each step in turn and applies what it finds. The answer is what the last one found, if there was one.
fn take_steps(alloc: Global, board: &mut Board, steps: &str) -> Result<Option<Settled>, Refusal> {
    let mut last = None;
    for text in steps.split(' ') {
        let step = step_of(alloc, text)?;
        let settled = settle_step(alloc, board, &step)?;
        board.apply(Arc::try_clone(settled.settlement())?)?;
        last = Some(settled);
    }
    Ok(last)
}

/// The pair of two texts with ` <> ` between them.
fn pair_in(alloc: Global, texts: &str) -> Result<Pair, Refusal> {
    let (before, after) = texts.split_once(" <> ").ok_or(Refusal::Row)?;
    let before = expanded(alloc, before)?;
    let after = expanded(alloc, after)?;
    pair_of(alloc, before.as_slice(), after.as_slice())
}

/// The board of a pair over all inputs to which nothing was applied.
fn board_of(alloc: Global, texts: &str, caps: Caps) -> Result<Board, Refusal>
    requires { AreCaps caps }
{
    let pair = Arc::new(alloc, pair_in(alloc, texts)?)?;
    Ok(Board::new(alloc, pair, all_inputs(alloc)?, caps)?)
}

/// What the last step finds. Steps and pair have ` : ` between them.
pub fn last_settled(alloc: Global, text: &str) -> Result<Settled, Refusal> {
    let (steps, texts) = text.split_once(" : ").ok_or(Refusal::Row)?;
    let mut board = board_of(alloc, texts, AMPLE)?;
    take_steps(alloc, &mut board, steps)?.ok_or(Refusal::Row)
}

/// The board behind its steps.
pub fn board_behind(alloc: Global, text: &str) -> Result<Board, Refusal> {
    let (steps, texts) = text.split_once(" : ").ok_or(Refusal::Row)?;
    let mut board = board_of(alloc, texts, AMPLE)?;
    take_steps(alloc, &mut board, steps)?;
    Ok(board)
}

/// A board of at most so many live entries, and why it didn't take a step, if there was one that it didn't take.
pub fn capped(alloc: Global, text: &str) -> Result<(Board, Option<Refusal>), Refusal> {
    let (entries, text) = text.split_once(' ').ok_or(Refusal::Row)?;
    let (steps, texts) = text.split_once(" : ").ok_or(Refusal::Row)?;
    let entries: u32 = entries.parse()?;
    if entries == 0 || entries > 200_000 {
        return Err(Refusal::Row);
    }
    let mut board = board_of(alloc, texts, Caps { entries, ..AMPLE })?;
    let why = take_steps(alloc, &mut board, steps).err();
    Ok((board, why))
}

/// An input that is looked up on a board.
#[derive(Drop)]
pub struct Question {
    /// The board behind the steps.
    pub board: Board,
    /// The input that is looked up.
    pub input: Input,
    ghost arity: { length input ≡ board.replay.pair.before.params },
}

/// An input that stands before the steps, and the board behind them.
pub fn asked(alloc: Global, text: &str) -> Result<Question, Refusal> {
    let (words, text) = text.split_once(' ').ok_or(Refusal::Row)?;
    let input = input_of(alloc, words)?;
    let board = board_behind(alloc, text)?;
    if input.as_slice().len() != board.pair().before.params as usize {
        return Err(Refusal::Row);
    }
    Ok(Question { board, input })
}

/// The number of the entry that holds an input.
pub fn find(alloc: Global, question: &Question) -> Result<u32, Refusal> {
    let Question { board, input } = question;
    let mut scratch = Scratch::new(alloc);
    board.reserve(&mut scratch)?;
    if !board.in_space(input, &mut scratch) {
        return Err(Refusal::Row);
    }
    Ok(board.find(input, &mut scratch))
}

/// The numbers of the entries that held an input, from 0 on.
pub fn path(alloc: Global, question: &Question) -> Result<Vec<u32>, Refusal> {
    let Question { board, input } = question;
    let mut scratch = Scratch::new(alloc);
    board.reserve(&mut scratch)?;
    if !board.in_space(input, &mut scratch) {
        return Err(Refusal::Row);
    }
    Ok(board.path(input, &mut scratch)?)
}
