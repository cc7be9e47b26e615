//! The fields of a journal's payloads as bytes, in both forms: numbers, words, texts, inputs and
//! logs. Each field is written in one way only, and read from the front of some bytes up to the
//! first byte with which no field goes on.
#![tactic(auto)]

mod byte;
mod error;
mod form;
mod input;
mod list;
mod log;
mod number;
#[cfg(test)]
mod tests;
mod text;
mod word;

pub use byte::byte_at;
pub use error::ReadError;
pub use form::Form;
pub use input::{input_at, put_input};
pub use log::{line_at, log_at, put_line, put_log};
pub use number::{long_at, number_at, put_long, put_number};
pub use text::{put_text, text_at};
pub use word::{put_word, word_at};
