//! From the bytes of a file to its tokens, or to the first place that can't be read.
//!
//! `tokens` is the one entry. What a text begins with, what its tokens are and where it is refused is
//! said in `specs/`, over lists of bytes; the laws of those definitions are the contracts of `laws`.
#![tactic(auto)]

mod class;
mod comment;
mod error;
mod front;
mod laws;
mod number;
mod scan;
mod symbol;
mod token;
mod word;

pub use error::{LexError, LexWhy};
pub use laws::{one_list_of_tokens, one_refusal, places_rise, tokens_or_refusal, tokens_stand};
pub use scan::tokens;
pub use token::{Key, Sym, Tok, Token};
