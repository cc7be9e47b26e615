//! The reports of a board.
ghost use Rattle.std.specs.Prelude.{◌≡◌, ◌++◌, length, IfOk, OnOk, codes, decimal, flat_map, option_to_list, option_map};
ghost use Rattle.prv_board.specs.Slots.{part_at};
ghost use Rattle.prv_board.specs.Replays.{slots};
ghost use Rattle.prv_text.specs.Lines.{line};
ghost use Rattle.prv_text.specs.Entries.{entry_line};
ghost use Rattle.prv_text.specs.Boards.{numbered, live_entries, names_of, board_regions, board_counts, board_report, generated_report as generated_of};

use crate::counts::push_counts;
use crate::entry::push_line;
use crate::last::{Last, push_last};
use crate::number::push_number;
use prv_board::Board;
use std::alloc::{AllocError, Global};

/// The report of a board: the count of its live entries, a line for each in the order of their numbers, the
/// counts by kind, and a last line. Parameters are named as in the old version.
///
/// Each entry is visited once, and memory is in proportion to the text.
pub fn report(alloc: Global, board: &Board, last: &Last) -> Result<Vec<u8>, AllocError>
    ensures { IfOk result (λ text. text.items ≡ board_report board.now.replay last.now) }
{
    let mut out = Vec::new(alloc);
    push_regions(&mut out, board)?;
    push_board_counts(&mut out, board)?;
    push_last(&mut out, last)?;
    Ok(out)
}

/// The report of the board of a pair that was generated from a number and a size: both with the count of the
/// settlements, the counts by kind, and a last line.
pub fn report_generated(
    alloc: Global,
    number: u32,
    size: u32,
    board: &Board,
    last: &Last,
) -> Result<Vec<u8>, AllocError>
    ensures { IfOk result (λ text. text.items ≡ generated_of number size board.now.replay last.now) }
{
    let mut out = Vec::new(alloc);
    push_generated(&mut out, number, size, board.history().len())?;
    push_board_counts(&mut out, board)?;
    push_last(&mut out, last)?;
    Ok(out)
}

/// Writes the count of a board's live entries, and a line for each.
fn push_regions(out: &mut Vec<u8>, board: &Board) -> Result<(), AllocError>
    ensures { OnOk result (out.new.items ≡ out.old.items ++ board_regions board.now.replay) }
{
    out.extend_from_slice(b"regions ")?;
    push_number(out, board.totals().entries)?;
    out.push(b'\n')?;
    push_live(out, board)?;
    Ok(())
}

/// Writes how many live entries a board has of each kind.
fn push_board_counts(out: &mut Vec<u8>, board: &Board) -> Result<(), AllocError>
    ensures { OnOk result (out.new.items ≡ out.old.items ++ board_counts board.now.replay) }
{
    push_counts(out, &board.counts())
}

/// Writes the first line of the report of a generated pair.
fn push_generated(
    out: &mut Vec<u8>,
    number: u32,
    size: u32,
    settlements: usize,
) -> Result<(), AllocError>
    ensures { OnOk result (out.new.items ≡ out.old.items ++ line (codes "gen " ++ decimal number ++ codes " " ++ decimal size ++ codes " settlements " ++ decimal settlements)) }
{
    out.extend_from_slice(b"gen ")?;
    push_number(out, number)?;
    out.push(b' ')?;
    push_number(out, size)?;
    out.extend_from_slice(b" settlements ")?;
    push_number(out, settlements)?;
    out.push(b'\n')?;
    Ok(())
}

/// Writes a line for each live entry, in the order of their numbers.
fn push_live(out: &mut Vec<u8>, board: &Board) -> Result<(), AllocError>
    ensures { OnOk result (out.new.items ≡ out.old.items ++ flat_map (entry_line (names_of board.now.replay)) (live_entries board.now.replay)) }
{
    for number in 0..board.next_number() {
        push_live_entry(out, board, number)?;
    }
    Ok(())
}

/// Writes the line of the entry of a number, if it is live.
fn push_live_entry(out: &mut Vec<u8>, board: &Board, number: u32) -> Result<(), AllocError>
    ensures { OnOk result (out.new.items ≡ out.old.items ++ flat_map (entry_line (names_of board.now.replay)) (option_to_list (option_map (numbered number) (part_at (slots board.now.replay) number)))) }
{
    match board.entry(number) {
        Some(part) => push_line(
            out,
            board.pair().before.names.as_slice(),
            number,
            &part.kind,
            part.marks.as_slice(),
            &part.region,
        ),
        None => Ok(()),
    }
}
