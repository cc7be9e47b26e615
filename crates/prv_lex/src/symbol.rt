//! Symbols: the longest that a text begins with, and how each is spelled.
ghost use Rattle.std.specs.Prelude.{◌≡◌, ◌<◌, length, [], ◌∷◌};
ghost use Rattle.prv_lex.specs.Symbols.{symbol as spelling, symbol_at};

use crate::token::Sym;

/// The longest symbol that a text begins with.
pub fn symbol(text: &[u8]) -> Option<Sym>
    requires { 0 < length text.now }
    ensures { result ≡ symbol_at text.now }
{
    // No symbol has a 0, so it stands for the end of the text.
    let second = if text.len() > 1 { text[1] } else { 0 };
    longest(text[0], second)
}

/// The longest symbol that these two bytes begin with.
fn longest(first: u8, second: u8) -> Option<Sym>
    ensures { result ≡ symbol_at (first ∷ second ∷ []) }
{
    match (first, second) {
        (b'<', b'<') => Some(Sym::ShiftLeft),
        (b'>', b'>') => Some(Sym::ShiftRight),
        (b'<', b'=') => Some(Sym::LessEqual),
        (b'>', b'=') => Some(Sym::GreaterEqual),
        (b'=', b'=') => Some(Sym::EqualEqual),
        (b'!', b'=') => Some(Sym::NotEqual),
        (b'&', b'&') => Some(Sym::AndAnd),
        (b'|', b'|') => Some(Sym::BarBar),
        (b'(', _) => Some(Sym::OpenParen),
        (b')', _) => Some(Sym::CloseParen),
        (b'{', _) => Some(Sym::OpenBrace),
        (b'}', _) => Some(Sym::CloseBrace),
        (b';', _) => Some(Sym::Semicolon),
        (b',', _) => Some(Sym::Comma),
        (b'=', _) => Some(Sym::Assign),
        (b'@', _) => Some(Sym::At),
        (b'?', _) => Some(Sym::Question),
        (b':', _) => Some(Sym::Colon),
        (b'+', _) => Some(Sym::Plus),
        (b'-', _) => Some(Sym::Minus),
        (b'*', _) => Some(Sym::Star),
        (b'/', _) => Some(Sym::Slash),
        (b'%', _) => Some(Sym::Percent),
        (b'<', _) => Some(Sym::Less),
        (b'>', _) => Some(Sym::Greater),
        (b'&', _) => Some(Sym::Ampersand),
        (b'^', _) => Some(Sym::Caret),
        (b'|', _) => Some(Sym::Bar),
        (b'!', _) => Some(Sym::Bang),
        (b'~', _) => Some(Sym::Tilde),
        _ => None,
    }
}

impl Sym {
    /// How many bytes the symbol has.
    pub(crate) fn width(self) -> usize
        ensures { result ≡ length (spelling self) }
    {
        match self {
            Sym::ShiftLeft
            | Sym::ShiftRight
            | Sym::LessEqual
            | Sym::GreaterEqual
            | Sym::EqualEqual
            | Sym::NotEqual
            | Sym::AndAnd
            | Sym::BarBar => 2,
            _ => 1,
        }
    }
}
