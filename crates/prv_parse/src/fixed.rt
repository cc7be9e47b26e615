//! The tokens that stand at a fixed place of a construct, as parentheses and reserved words, and the test for each.

ghost use Rattle.std.specs.Prelude.{◌≡◌};
ghost use Rattle.prv_parse.specs.Fixed.{is_fixed};

use prv_lex::{Key, Sym, Tok};

/// A token that stands at a fixed place of a construct.
#[derive(Clone, Copy, Debug)]
pub enum Fixed {
    OpenParen,
    CloseParen,
    OpenBrace,
    CloseBrace,
    Semicolon,
    Comma,
    Assign,
    Question,
    Colon,
    Int,
    Main,
    Else,
}

impl Fixed {
    /// Whether a token is this one.
    pub fn is(self, tok: &Tok) -> bool
        ensures { result ≡ is_fixed self tok.now }
    {
        match (self, tok) {
            (Fixed::OpenParen, Tok::Sym(Sym::OpenParen)) => true,
            (Fixed::CloseParen, Tok::Sym(Sym::CloseParen)) => true,
            (Fixed::OpenBrace, Tok::Sym(Sym::OpenBrace)) => true,
            (Fixed::CloseBrace, Tok::Sym(Sym::CloseBrace)) => true,
            (Fixed::Semicolon, Tok::Sym(Sym::Semicolon)) => true,
            (Fixed::Comma, Tok::Sym(Sym::Comma)) => true,
            (Fixed::Assign, Tok::Sym(Sym::Assign)) => true,
            (Fixed::Question, Tok::Sym(Sym::Question)) => true,
            (Fixed::Colon, Tok::Sym(Sym::Colon)) => true,
            (Fixed::Int, Tok::Key(Key::Int)) => true,
            (Fixed::Main, Tok::Key(Key::Main)) => true,
            (Fixed::Else, Tok::Key(Key::Else)) => true,
            _ => false,
        }
    }
}
