//! Grammars as tables of rules: which texts a rule derives, with which value and which skeleton, and what
//! reading it by recursive descent with one token of lookahead comes to. What is proved here holds for every
//! table: that its reader is sound and complete, and that it stops at the first token that fits no text.
#![tactic(auto)]

mod skeleton;

pub use skeleton::{Skel, SkelItem};
