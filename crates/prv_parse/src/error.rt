//! What keeps tokens from being a program: the first place at which no program goes on, or the first past a limit.

use thiserror::Error;

/// What keeps tokens from being a program.
#[derive(Debug, Drop, Error)]
pub enum ParseError {
    /// The first token at which the text can be no program, or the end of the file.
    #[error("syntax at {place}")]
    Syntax { place: u32 },
    /// The first token inside more than 100 open constructs, or the 257th operator of its expression.
    #[error("deep at {place}")]
    Deep { place: u32 },
    /// Memory ran out.
    #[error("out of memory")]
    Memory,
}
