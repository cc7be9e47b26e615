//! Expressions, by precedence climbing: a level reads operands of the next tighter level and the operators of its
//! own precedence between them, so operators of one precedence group to the left. What is nested is counted by
//! `room`, and the operators of a full expression by `before`, so neither depth nor length is without bound.

ghost use Rattle.std.specs.Prelude.{◌≡◌, ◌+◌, ◌-◌, ◌≤◌, ◌<◌, ◌∷◌, length, drop, MatchOption, OnOk, IfSome, Some};
ghost use Rattle.prv_rule.specs.Operators.{unary_of};
ghost use Rattle.prv_parse.specs.Reader.{readers, in_parens, with_unary, precedence_of, tail, choice_behind, chosen as chosen_in, expect, is_close_paren, is_colon, operator_of, head_operator};
ghost use Rattle.prv_parse.specs.Cursors.{left as left_of, read_of, ReadsExpr, head_joined};

use crate::cursor::Cursor;
use crate::fixed::Fixed;
use crate::operators::{binary, precedence, unary};
use crate::stop::Stop;
use crate::tree::{ExprTree, Ident};
use prv_lex::{Sym, Tok, Token};
use prv_model::{BinOp, MAX_OPERATORS};
use sqlite_items::Boxed;
use std::alloc::Global;

/// The loosest precedence of operators between two operands.
const LOOSEST: u32 = 10;

/// An expression, and how many operators of its full expression were read up to its end.
#[derive(Drop)]
pub struct ReadExpr {
    pub tree: ExprTree,
    /// How many operators of the full expression stand before what follows, 0 to 256.
    pub before: u32,
}

impl<'t> Cursor<'t> {
    /// Reads an expression, where `room` constructs more may be open, the one around it included.
    #[cycle(expression)]
    pub fn expression(&mut self, alloc: Global, before: u32, room: u32) -> Result<ReadExpr, Stop>
        ensures tokens { self.new.tokens.now ≡ self.old.tokens.now }
        ensures reads { ReadsExpr ((readers room).expression before (left_of self.old)) (left_of self.new) result }
    {
        if room == 0 {
            return match self.peek() {
                None => Err(Stop::Syntax),
                Some(_) => Err(Stop::Depth),
            };
        }
        let test = self.precedence(alloc, before, room, LOOSEST)?;
        self.choice(alloc, test, room)
    }

    /// Reads what follows a choice's test, where a `?` does.
    #[cycle(expression)]
    fn choice(&mut self, alloc: Global, test: ReadExpr, room: u32) -> Result<ReadExpr, Stop>
        requires { 0 < room }
        ensures tokens { self.new.tokens.now ≡ self.old.tokens.now }
        ensures reads { ReadsExpr (choice_behind (readers (room - 1)).expression (read_of test) (left_of self.old)) (left_of self.new) result }
    {
        if self.at_fixed(Fixed::Question).is_none() {
            return Ok(test);
        }
        if test.before >= MAX_OPERATORS {
            return Err(Stop::Operators);
        }
        self.advance();
        let chosen = self.expression(alloc, test.before + 1, room - 1)?;
        self.expect(Fixed::Colon)?;
        let other = self.expression(alloc, chosen.before, room - 1)?;
        Ok(ReadExpr {
            tree: ExprTree::Pick(
                Boxed::new(alloc, test.tree)?,
                Boxed::new(alloc, chosen.tree)?,
                Boxed::new(alloc, other.tree)?,
            ),
            before: other.before,
        })
    }

    /// Reads an expression of a precedence: an operand for 0, else operators of the precedence between
    /// expressions of the next tighter one.
    #[cycle(expression)]
    fn precedence(
        &mut self,
        alloc: Global,
        before: u32,
        room: u32,
        precedence: u32,
    ) -> Result<ReadExpr, Stop>
        requires { precedence ≤ 10 }
        ensures tokens { self.new.tokens.now ≡ self.old.tokens.now }
        ensures reads { ReadsExpr (precedence_of precedence (readers room).operand before (left_of self.old)) (left_of self.new) result }
    {
        if precedence == 0 {
            return self.operand(alloc, before, room);
        }
        let first = self.precedence(alloc, before, room, precedence - 1)?;
        self.tail(alloc, first, room, precedence)
    }

    /// Reads what follows a left operand: operators of the precedence, each with its right operand.
    #[cycle(expression)]
    fn tail(
        &mut self,
        alloc: Global,
        first: ReadExpr,
        room: u32,
        precedence: u32,
    ) -> Result<ReadExpr, Stop>
        requires some { 1 ≤ precedence }
        requires few { precedence ≤ 10 }
        ensures tokens { self.new.tokens.now ≡ self.old.tokens.now }
        ensures reads { ReadsExpr (tail precedence (precedence_of (precedence - 1) (readers room).operand) 257 (read_of first) (left_of self.old)) (left_of self.new) result }
    {
        let mut left = first;
        for count in 0..257u32 {
            let Some(op) = self.operator(precedence) else {
                return Ok(left);
            };
            left = self.joined(alloc, op, left, room, precedence)?;
        }
        Ok(left)
    }

    /// Reads an operator of a precedence with its right operand, behind its left one.
    #[cycle(expression)]
    fn joined(
        &mut self,
        alloc: Global,
        op: BinOp,
        left: ReadExpr,
        room: u32,
        precedence: u32,
    ) -> Result<ReadExpr, Stop>
        requires some { 1 ≤ precedence }
        requires few { precedence ≤ 10 }
        requires next { head_operator precedence (left_of self.old) ≡ Some op }
        ensures tokens { self.new.tokens.now ≡ self.old.tokens.now }
        ensures reads { ReadsExpr (head_joined op (read_of left) (precedence_of (precedence - 1) (readers room).operand) (left_of self.old)) (left_of self.new) result }
    {
        if self.peek().is_none() {
            return Err(Stop::Syntax);
        }
        if left.before >= MAX_OPERATORS {
            return Err(Stop::Operators);
        }
        self.advance();
        let right = self.precedence(alloc, left.before + 1, room, precedence - 1)?;
        Ok(ReadExpr {
            tree: ExprTree::Bin(
                op,
                Boxed::new(alloc, left.tree)?,
                Boxed::new(alloc, right.tree)?,
            ),
            before: right.before,
        })
    }

    /// Reads an operand, where `room` constructs more may be open, the one around it included.
    #[cycle(expression)]
    fn operand(&mut self, alloc: Global, before: u32, room: u32) -> Result<ReadExpr, Stop>
        ensures tokens { self.new.tokens.now ≡ self.old.tokens.now }
        ensures reads { ReadsExpr ((readers room).operand before (left_of self.old)) (left_of self.new) result }
    {
        let Some(token) = self.peek() else {
            return Err(Stop::Syntax);
        };
        if room == 0 {
            return Err(Stop::Depth);
        }
        match &token.tok {
            Tok::Num(n) => {
                self.advance();
                Ok(ReadExpr {
                    tree: ExprTree::Num(*n),
                    before,
                })
            }
            Tok::Name(name) => {
                let name = name.copy(alloc)?;
                self.advance();
                Ok(ReadExpr {
                    tree: ExprTree::Name(Ident {
                        name,
                        place: token.place,
                    }),
                    before,
                })
            }
            Tok::Sym(sym) => self.symbol_operand(alloc, *sym, token, before, room),
            Tok::Key(_) => Err(Stop::Syntax),
        }
    }

    /// Reads an operand that begins with a symbol.
    #[cycle(expression)]
    fn symbol_operand(
        &mut self,
        alloc: Global,
        sym: Sym,
        token: &Token,
        before: u32,
        room: u32,
    ) -> Result<ReadExpr, Stop>
        requires some { 0 < room }
        requires next { left_of self.old ≡ token.now ∷ drop (self.old.at + 1) self.old.tokens.now }
        requires more { self.old.at < length self.old.tokens.now }
        ensures tokens { self.new.tokens.now ≡ self.old.tokens.now }
        ensures reads { ReadsExpr (with_unary (unary_of sym) sym token.now (readers (room - 1)).expression (readers (room - 1)).operand before (drop (self.old.at + 1) self.old.tokens.now)) (left_of self.new) result }
    {
        if let Some(op) = unary(sym) {
            if before >= MAX_OPERATORS {
                return Err(Stop::Operators);
            }
            self.advance();
            let operand = self.operand(alloc, before + 1, room - 1)?;
            return Ok(ReadExpr {
                tree: ExprTree::Un(op, Boxed::new(alloc, operand.tree)?),
                before: operand.before,
            });
        }
        if sym != Sym::OpenParen {
            return Err(Stop::Syntax);
        }
        self.advance();
        let inner = self.expression(alloc, before, room - 1)?;
        self.expect(Fixed::CloseParen)?;
        Ok(inner)
    }

    /// The operator of a precedence that comes next, if one does.
    fn operator(&self, wanted: u32) -> Option<BinOp>
        ensures { result ≡ head_operator wanted (left_of self.now) }
    {
        let token = self.peek()?;
        let Tok::Sym(sym) = &token.tok else {
            return None;
        };
        let op = binary(*sym)?;
        if precedence(op) == wanted {
            Some(op)
        } else {
            None
        }
    }
}
