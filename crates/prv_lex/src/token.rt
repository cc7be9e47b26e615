//! Tokens: names, numbers, reserved words and symbols, each with the place of its first byte, by which every
//! later refusal names its cause.
use prv_model::Name;

/// A token, and where it begins.
#[derive(Debug, Drop)]
pub struct Token {
    /// What it is.
    pub tok: Tok,
    /// The place of its first byte in the file, from 0.
    pub place: u32,
}

/// What a token is.
#[derive(Debug, Drop)]
pub enum Tok {
    /// A name that isn't reserved.
    Name(Name),
    /// A number, from 0 to 2147483647.
    Num(i32),
    Key(Key),
    Sym(Sym),
}

/// A reserved word.
#[derive(Clone, Copy, Debug, PartialEq, Eq)]
pub enum Key {
    Int,
    Main,
    If,
    Else,
    While,
    Return,
    Out,
    Assert,
}

/// A symbol.
#[derive(Clone, Copy, Debug, PartialEq, Eq)]
pub enum Sym {
    /// `(`
    OpenParen,
    /// `)`
    CloseParen,
    /// `{`
    OpenBrace,
    /// `}`
    CloseBrace,
    /// `;`
    Semicolon,
    /// `,`
    Comma,
    /// `=`
    Assign,
    /// `@`
    At,
    /// `?`
    Question,
    /// `:`
    Colon,
    /// `+`
    Plus,
    /// `-`
    Minus,
    /// `*`
    Star,
    /// `/`
    Slash,
    /// `%`
    Percent,
    /// `<<`
    ShiftLeft,
    /// `>>`
    ShiftRight,
    /// `<`
    Less,
    /// `<=`
    LessEqual,
    /// `>`
    Greater,
    /// `>=`
    GreaterEqual,
    /// `==`
    EqualEqual,
    /// `!=`
    NotEqual,
    /// `&`
    Ampersand,
    /// `^`
    Caret,
    /// `|`
    Bar,
    /// `&&`
    AndAnd,
    /// `||`
    BarBar,
    /// `!`
    Bang,
    /// `~`
    Tilde,
}
