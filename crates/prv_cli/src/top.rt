//! All that the program does.
ghost use Rattle.std.specs.Prelude.{◌≡◌, ◌≢◌};
ghost use Rattle.prv_io.specs.Faults.{Rose};
ghost use Rattle.prv_line.specs.Views.{texts};
ghost use Rattle.prv_cli.specs.Refusals.{refusal_number};
ghost use Rattle.prv_cli.specs.Answers.{Answered, IsTold};

use crate::command::perform_words;
use crate::refusal::Refusal;
use crate::refusal_line::line_of;
use prv_explore::Progress;
use prv_io::{Files, Sink, write_all};
use std::alloc::Global;

/// Does all that the program does, and answers its status.
///
/// 0, 1 and 2: what was asked for was shown. Of a list of entries 1 says that one is Different, 0 that each is
/// Same or Empty, and 2 that neither holds; a run or a slice that was shown has 0. 3: the words have no reading,
/// or ask for a command that isn't built yet. 4: a file is refused, the versions make no pair, the input has
/// another number of words than the program has parameters, or the slice passes a bound. 5: a file couldn't be
/// read. 6: what is shown couldn't be written. 9: out of memory. Under 3 and above a line goes to `err`, and a
/// failure of `err` changes nothing. `progress` is told how far an exploration is.
pub fn plain<F: Files, O: Sink, E: Sink, P: Progress>(
    alloc: Global,
    words: &[&str],
    files: &mut F,
    out: &mut O,
    err: &mut E,
    progress: &mut P,
) -> u8
    // The words do this, to these files and outputs, and nothing else.
    ensures answered { Answered F.reads (F.known files.old) (texts words.now) files.old files.new (O.taken out.old) (O.taken out.new)
        (record { taken = E.taken err.old; faults = E.faults err.old }) (record { taken = E.taken err.new; faults = E.faults err.new }) result }

    // 5 and 6 come exactly where a read failed, or a write of what is shown.
    ensures read_fault { result ≡ 5 → Rose (F.faults files.old) (F.faults files.new) }
    ensures no_read_fault { result ≢ 5 → F.faults files.new ≡ F.faults files.old }
    ensures write_fault { result ≡ 6 → Rose (O.faults out.old) (O.faults out.new) }
    ensures no_write_fault { result ≢ 6 → O.faults out.new ≡ O.faults out.old }
{
    match perform_words(alloc, words, files, out, progress) {
        Ok(status) => status.number(),
        Err(refusal) => refuse(err, refusal),
    }
}

/// Writes the line of a refusal, and answers its number. It takes no memory.
pub fn refuse<E: Sink>(err: &mut E, refusal: Refusal) -> u8
    ensures number { result ≡ refusal_number refusal }
    ensures told { IsTold refusal (record { taken = E.taken err.old; faults = E.faults err.old }) (record { taken = E.taken err.new; faults = E.faults err.new }) }
{
    let line = line_of(&refusal);
    let _ = write_all(err, line.as_str().as_bytes());
    refusal.number()
}
