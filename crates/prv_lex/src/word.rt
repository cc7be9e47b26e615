//! The reserved words. A name that is one of them is no name.
ghost use Rattle.std.specs.Prelude.{◌≡◌};
ghost use Rattle.prv_lex.specs.Keywords.{keyword_of};

use crate::token::Key;

/// The reserved word that a word is, if it is one.
pub fn keyword(word: &[u8]) -> Option<Key>
    ensures { result ≡ keyword_of word.now }
{
    match word {
        b"int" => Some(Key::Int),
        b"main" => Some(Key::Main),
        b"if" => Some(Key::If),
        b"else" => Some(Key::Else),
        b"while" => Some(Key::While),
        b"return" => Some(Key::Return),
        b"out" => Some(Key::Out),
        b"assert" => Some(Key::Assert),
        _ => None,
    }
}
