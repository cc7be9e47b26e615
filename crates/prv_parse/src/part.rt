//! What statements are made of: full expressions, in parentheses or up to a `;`, and names. Each token that is gone
//! over here is put into the skeleton.

ghost use Rattle.std.specs.Prelude.{◌≡◌, [], ◌∷◌, ◌++◌, OnOk, IfOk, drop};
ghost use Rattle.prv_parse.specs.Reader.{read, expect, full, test as test_of, ended as ended_of, assigned as assigned_of, name as name_of};
ghost use Rattle.prv_parse.specs.Cursors.{left};
ghost use Rattle.prv_parse.specs.Fixed.{is_fixed};
ghost use Rattle.prv_rule.specs.Skeletons.{kept, plain};
ghost use Rattle.prv_parse.specs.Statements.{ReadsFixed, ReadsPart, ReadsName};

use crate::fixed::Fixed;
use crate::reader::Reader;
use crate::stop::Stop;
use crate::tree::{ExprTree, Ident};
use prv_lex::{Tok, Token};
use prv_rule::{Skel, SkelItem};
use std::alloc::{AllocError, Global};

/// The same token once more.
fn copy_tok(alloc: Global, tok: &Tok) -> Result<Tok, AllocError>
    ensures { IfOk result (λ copy. copy ≡ tok.now) }
{
    match tok {
        Tok::Name(name) => Ok(Tok::Name(name.copy(alloc)?)),
        Tok::Num(n) => Ok(Tok::Num(*n)),
        Tok::Key(key) => Ok(Tok::Key(*key)),
        Tok::Sym(sym) => Ok(Tok::Sym(*sym)),
    }
}

impl<'t> Reader<'t> {
    /// Puts a token into the skeleton as it is.
    pub fn keep(&mut self, alloc: Global, token: &Token) -> Result<(), AllocError>
        ensures cursor { self.new.cursor ≡ self.old.cursor }
        ensures kept { OnOk result (self.new.skeleton.items ≡ self.old.skeleton.items ++ kept token.now ∷ []) }
    {
        let tok = copy_tok(alloc, &token.tok)?;
        self.skeleton.push(Skel {
            item: SkelItem::Tok(tok),
            place: token.place,
        })?;
        Ok(())
    }

    /// Goes over a fixed token that has to come next.
    pub fn expect(&mut self, alloc: Global, wanted: Fixed) -> Result<(), Stop>
        ensures tokens { self.new.cursor.tokens.now ≡ self.old.cursor.tokens.now }
        ensures reads { ReadsFixed (expect (is_fixed wanted) (left self.old.cursor)) (left self.new.cursor) self.old.skeleton.items self.new.skeleton.items result }
    {
        let token = self.cursor.expect(wanted)?;
        self.keep(alloc, token)?;
        Ok(())
    }

    /// Reads a full expression.
    fn full(&mut self, alloc: Global, room: u32) -> Result<ExprTree, Stop>
        ensures tokens { self.new.cursor.tokens.now ≡ self.old.cursor.tokens.now }
        ensures reads { ReadsPart (full room (left self.old.cursor)) (left self.new.cursor) self.old.skeleton.items self.new.skeleton.items result }
    {
        let from = self.cursor.at;
        let expr = self.cursor.expression(alloc, 0, room)?;
        self.keep_from(alloc, from)?;
        Ok(expr.tree)
    }

    /// Reads a full expression in parentheses.
    pub fn test(&mut self, alloc: Global, room: u32) -> Result<ExprTree, Stop>
        ensures tokens { self.new.cursor.tokens.now ≡ self.old.cursor.tokens.now }
        ensures reads { ReadsPart (test_of room (left self.old.cursor)) (left self.new.cursor) self.old.skeleton.items self.new.skeleton.items result }
    {
        self.expect(alloc, Fixed::OpenParen)?;
        let expr = self.full(alloc, room)?;
        self.expect(alloc, Fixed::CloseParen)?;
        Ok(expr)
    }

    /// Reads a full expression up to its `;`.
    pub fn ended(&mut self, alloc: Global, room: u32) -> Result<ExprTree, Stop>
        ensures tokens { self.new.cursor.tokens.now ≡ self.old.cursor.tokens.now }
        ensures reads { ReadsPart (ended_of room (left self.old.cursor)) (left self.new.cursor) self.old.skeleton.items self.new.skeleton.items result }
    {
        let expr = self.full(alloc, room)?;
        self.expect(alloc, Fixed::Semicolon)?;
        Ok(expr)
    }

    /// Reads `= value;`.
    pub fn assigned(&mut self, alloc: Global, room: u32) -> Result<ExprTree, Stop>
        ensures tokens { self.new.cursor.tokens.now ≡ self.old.cursor.tokens.now }
        ensures reads { ReadsPart (assigned_of room (left self.old.cursor)) (left self.new.cursor) self.old.skeleton.items self.new.skeleton.items result }
    {
        self.expect(alloc, Fixed::Assign)?;
        self.ended(alloc, room)
    }

    /// Reads a name.
    pub fn name(&mut self, alloc: Global) -> Result<Ident, Stop>
        ensures tokens { self.new.cursor.tokens.now ≡ self.old.cursor.tokens.now }
        ensures reads { ReadsName (name_of (left self.old.cursor)) (left self.new.cursor) self.old.skeleton.items self.new.skeleton.items result }
    {
        let Some(token) = self.cursor.peek() else {
            return Err(Stop::Syntax);
        };
        let Tok::Name(name) = &token.tok else {
            return Err(Stop::Syntax);
        };
        let name = name.copy(alloc)?;
        self.cursor.advance();
        self.keep(alloc, token)?;
        Ok(Ident {
            name,
            place: token.place,
        })
    }

    /// Puts the tokens from an index up to the next token into the skeleton.
    fn keep_from(&mut self, alloc: Global, from: usize) -> Result<(), AllocError>
        ensures cursor { self.new.cursor ≡ self.old.cursor }
        ensures kept { OnOk result (self.new.skeleton.items ≡ self.old.skeleton.items ++ plain (read (drop from self.old.cursor.tokens.now) (left self.old.cursor))) }
    {
        let tokens = between(self.cursor.tokens, from, self.cursor.at);
        for token in tokens {
            self.keep(alloc, token)?;
        }
        Ok(())
    }
}

/// The tokens from an index up to another one.
fn between(tokens: &[Token], from: usize, to: usize) -> &[Token]
    ensures { result.now ≡ read (drop from tokens.now) (drop to tokens.now) }
{
    let rest = behind(tokens, from);
    let count = rest.len().saturating_sub(behind(tokens, to).len());
    &rest[..count]
}

/// The tokens from an index on.
fn behind(tokens: &[Token], from: usize) -> &[Token]
    ensures { result.now ≡ drop from tokens.now }
{
    if from < tokens.len() {
        &tokens[from..]
    } else {
        &[]
    }
}
