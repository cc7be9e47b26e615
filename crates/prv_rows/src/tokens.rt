//! Tokens and skeletons, written with their places.
use prv_lex::{Tok, Token};
use prv_parse::{Skel, SkelItem};
use std::alloc::AllocError;

/// Tokens, each with its place, with `n:` before a name and `#` before a number.
pub fn show_tokens(line: &mut String, tokens: &[Token]) -> Result<(), AllocError> {
    for token in tokens {
        show_tok(line, &token.tok)?;
        let place = token.place;
        write!(line, "@{place} ")?;
    }
    Ok(())
}

/// Items of a skeleton, each with its place.
pub fn show_skeleton(line: &mut String, items: &[Skel]) -> Result<(), AllocError> {
    for skel in items {
        match &skel.item {
            SkelItem::Hole(mark) => write!(line, "hole {mark}")?,
            SkelItem::Tok(tok) => show_tok(line, tok)?,
        }
        let place = skel.place;
        write!(line, "@{place} ")?;
    }
    Ok(())
}

fn show_tok(line: &mut String, tok: &Tok) -> Result<(), AllocError> {
    match tok {
        Tok::Name(name) => {
            write!(line, "n:")?;
            show_bytes(line, name.as_bytes())
        }
        Tok::Num(n) => write!(line, "#{n}"),
        Tok::Key(key) => write!(line, "{key:?}"),
        Tok::Sym(sym) => write!(line, "{sym:?}"),
    }
}

pub fn show_bytes(line: &mut String, bytes: &[u8]) -> Result<(), AllocError> {
    for byte in bytes {
        line.push(char::from(*byte))?;
    }
    Ok(())
}
