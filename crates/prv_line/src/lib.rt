//! The words of the command line, read as one of the eight commands, or refused at the first word with
//! which no command begins.
//!
//! `read_words` is the one entry. Which words read as which command, and which word is refused, is said
//! in `specs/`, over lists of texts.
#![tactic(auto)]

mod command;
mod error;
mod head;
mod input;
mod laws;
mod limits;
mod option;
mod options;
mod reader;
mod text;

pub use command::{Command, Plan};
pub use error::LineError;
pub use laws::{command_or_usage, one_command, one_usage};
pub use limits::{LINES, Range, SETTLEMENTS, TURNS, WORKERS};
pub use reader::read_words;
