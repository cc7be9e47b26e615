//! What is shown of settlements and boards.
use crate::boards::{asked, board_behind, capped, find, last_settled, path};
use crate::refusal::Refusal;
use crate::terms::show_term;
use prv_board::{ApplyError, Board, Totals};
use prv_model::{Input, Kind, Reason};
use prv_part::Part;
use prv_record::Proof;
use prv_region::Region;
use std::alloc::{AllocError, Global};

/// The steps of a board, with ` : ` between them and its pair: of what the last one finds the shape, the input
/// that was run, what proves it, and the parts.
pub fn settle_answer(alloc: Global, text: &str) -> Result<String, Refusal> {
    let settled = last_settled(alloc, text)?;
    let settlement = settled.settlement();
    let shape = settlement.shape();
    let mut line = format!(in alloc; "{shape:?}")?;
    if let Some(member) = settlement.member() {
        line.push_str(" at")?;
        show_input(&mut line, member)?;
    }
    show_proof(&mut line, settled.proof())?;
    for part in settlement.parts() {
        line.push_str("; ")?;
        show_part(&mut line, part)?;
    }
    Ok(line)
}

/// The steps of a board, with ` : ` between them and its pair: of each live entry its number and what it says.
pub fn board_answer(alloc: Global, text: &str) -> Result<String, Refusal> {
    let board = board_behind(alloc, text)?;
    let mut line = String::new(alloc);
    show_board(&mut line, &board)?;
    Ok(line)
}

/// The most entries of a board before its steps: whether it was full before they were all taken, and the live
/// entries. How many numbers it would hold depends on the solver, so that isn't shown.
pub fn capped_answer(alloc: Global, text: &str) -> Result<String, Refusal> {
    let (board, why) = capped(alloc, text)?;
    let mut line = String::new(alloc);
    match why {
        None => {}
        Some(
            Refusal::Apply(
                ApplyError::Full(
                    Totals {
                        entries,
                        literals,
                        ..
                    },
                ),
            ),
        ) => write!(line, "full at {entries} entries and {literals} literals; ")?,
        Some(why) => return Err(why),
    }
    show_board(&mut line, &board)?;
    Ok(line)
}

/// An input before the steps of a board: the entry that holds it.
pub fn find_answer(alloc: Global, text: &str) -> Result<String, Refusal> {
    let question = asked(alloc, text)?;
    let number = find(alloc, &question)?;
    Ok(format!(in alloc; "{number}")?)
}

/// An input before the steps of a board: the entries that held it, from 0 on.
pub fn path_answer(alloc: Global, text: &str) -> Result<String, Refusal> {
    let question = asked(alloc, text)?;
    let mut line = String::new(alloc);
    for number in path(alloc, &question)?.as_slice() {
        write!(line, "{number} ")?;
    }
    line.pop();
    Ok(line)
}

/// A number before the steps of a board: from which entry and which part its entry comes.
pub fn parent_answer(alloc: Global, text: &str) -> Result<String, Refusal> {
    let (number, text) = text.split_once(' ').ok_or(Refusal::Row)?;
    let number: u32 = number.parse()?;
    match board_behind(alloc, text)?.parent(number) {
        None => Ok("none".to_string(alloc)?),
        Some(parent) => {
            let (entry, part) = (parent.entry, parent.part);
            Ok(format!(in alloc; "entry {entry} part {part}")?)
        }
    }
}

fn show_board(line: &mut String, board: &Board) -> Result<(), AllocError> {
    let mut before = "";
    for number in 0..board.next_number() {
        if let Some(part) = board.entry(number) {
            write!(line, "{before}{number} ")?;
            show_part(line, part)?;
            before = "; ";
        }
    }
    Ok(())
}

/// A part: its kind, its marks, and behind `:` its terms, if it has some.
fn show_part(line: &mut String, part: &Part) -> Result<(), AllocError> {
    show_kind(line, &part.kind)?;
    for mark in part.marks.as_slice() {
        write!(line, " @{mark}")?;
    }
    show_region(line, &part.region)
}

fn show_kind(line: &mut String, kind: &Kind) -> Result<(), AllocError> {
    match kind {
        Kind::Same => line.push_str("Same"),
        Kind::Different { sample } => {
            line.push_str("Different at")?;
            show_input(line, sample)
        }
        Kind::Empty => line.push_str("Empty"),
        Kind::Beyond => line.push_str("Beyond"),
        Kind::Unexplored => line.push_str("Unexplored"),
        Kind::Undecided { reason } => show_reason(line, *reason),
    }
}

/// After how many lines a log has too many numbers depends on the solver, so that isn't shown.
fn show_reason(line: &mut String, reason: Reason) -> Result<(), AllocError> {
    match reason {
        Reason::Numbers { lines: _ } => line.push_str("Undecided Numbers"),
        reason => write!(line, "Undecided {reason:?}"),
    }
}

/// The words of an input, each with a blank before it.
pub(crate) fn show_input(line: &mut String, input: &Input) -> Result<(), AllocError> {
    for word in input.as_slice() {
        write!(line, " {word}")?;
    }
    Ok(())
}

/// How many lines a log has that refutes something, or whose numbers are spent before its lines, depends on the
/// solver, so it isn't shown.
fn show_proof(line: &mut String, proof: &Proof) -> Result<(), AllocError> {
    match proof {
        Proof::None => Ok(()),
        Proof::Log(_) => line.push_str(" by a log"),
        Proof::Spent { next: Some(_), .. } => line.push_str(" by spent numbers"),
        Proof::Spent { log, next: None } => {
            let count = log.lines().len();
            write!(line, " by {count} lines")
        }
    }
}

fn show_region(line: &mut String, region: &Region) -> Result<(), AllocError> {
    let parts = region.parts();
    for (place, root) in parts.roots.iter().enumerate() {
        line.push_str(if place == 0 { ": " } else { ", " })?;
        show_term(line, parts.pool, *root)?;
    }
    Ok(())
}
