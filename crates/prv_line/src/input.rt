//! The words of an input.
ghost use Rattle.std.specs.Prelude.{IfOk, IfErr};
ghost use Rattle.prv_line.specs.Steps.{Tells};
ghost use Rattle.prv_line.specs.Readings.{Inputs};
ghost use Rattle.prv_line.specs.Views.{texts};

use crate::error::LineError;
use crate::text::read_signed;
use prv_model::Input;
use std::alloc::Global;

/// How many words an input has at most.
const MOST_WORDS: usize = 8;

/// Reads 1 to 8 words as an input. The first of them is word `first` of the command line.
pub fn read_input(alloc: Global, words: &[&str], first: u8) -> Result<Input, LineError>
    ensures ok { IfOk result (λ input. Inputs input (texts words.now)) }
    ensures err { IfErr result (Tells Inputs (texts words.now) first) }
{
    if words.is_empty() {
        return Err(LineError::Usage { word: first as u32 });
    }
    let mut input = Input::new(alloc);
    for (index, word) in words.iter().enumerate() {
        let at = first as u32 + index as u32;
        if index == MOST_WORDS {
            return Err(LineError::Usage { word: at });
        }
        match read_signed(word) {
            Some(number) => input.push(number)?,
            None => return Err(LineError::Usage { word: at }),
        }
    }
    Ok(input)
}
