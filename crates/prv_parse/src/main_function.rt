//! The frame of a program: `int main`, its parameters in parentheses, and its block, with nothing behind it.

ghost use Rattle.std.specs.Prelude.{◌≡◌};
ghost use Rattle.prv_parse.specs.Reader.{param as param_of, params as params_of, program as program_of};
ghost use Rattle.prv_parse.specs.Cursors.{left};
ghost use Rattle.prv_parse.specs.Statements.{ReadsName, ReadsParams};
ghost use Rattle.prv_parse.specs.MainFunctions.{ReadsProgram};
ghost use Rattle.std.specs.Prelude.{length};

use crate::fixed::Fixed;
use crate::reader::Reader;
use crate::stop::Stop;
use crate::tree::{Ident, StmtTree};
use prv_model::MAX_OPEN;
use sqlite_items::Items;
use std::alloc::Global;

/// The parameters and the body of `main`.
#[derive(Drop)]
pub struct MainFunction {
    /// One or more.
    pub params: Items<Ident>,
    /// What stands in its braces.
    pub body: Items<StmtTree>,
}

impl<'t> Reader<'t> {
    /// Reads a program, up to the end of the tokens.
    pub fn program(&mut self, alloc: Global) -> Result<MainFunction, Stop>
        ensures tokens { self.new.cursor.tokens.now ≡ self.old.cursor.tokens.now }
        ensures reads { ReadsProgram (program_of (left self.old.cursor)) (left self.new.cursor) self.old.skeleton.items self.new.skeleton.items result }
    {
        self.expect(alloc, Fixed::Int)?;
        self.expect(alloc, Fixed::Main)?;
        self.expect(alloc, Fixed::OpenParen)?;
        let params = self.params(alloc)?;
        self.expect(alloc, Fixed::CloseParen)?;
        self.expect(alloc, Fixed::OpenBrace)?;
        let body = self.block(alloc, MAX_OPEN)?;
        match self.cursor.peek() {
            Some(_) => Err(Stop::Syntax),
            None => Ok(MainFunction { params, body }),
        }
    }

    /// Reads the parameters of `main`, one or more.
    fn params(&mut self, alloc: Global) -> Result<Items<Ident>, Stop>
        ensures tokens { self.new.cursor.tokens.now ≡ self.old.cursor.tokens.now }
        ensures reads { ReadsParams (params_of (length (left self.old.cursor)) (left self.old.cursor)) (left self.new.cursor) self.old.skeleton.items self.new.skeleton.items result }
    {
        let mut all = Vec::new(alloc);
        for count in 0..self.cursor.count() {
            let param = self.param(alloc)?;
            all.push(param)?;
            let Some(comma) = self.cursor.at_fixed(Fixed::Comma) else {
                return Ok(Items::from_vec(all));
            };
            self.go_over(alloc, comma)?;
        }
        Err(Stop::Syntax)
    }

    /// Reads a parameter.
    fn param(&mut self, alloc: Global) -> Result<Ident, Stop>
        ensures tokens { self.new.cursor.tokens.now ≡ self.old.cursor.tokens.now }
        ensures reads { ReadsName (param_of (left self.old.cursor)) (left self.new.cursor) self.old.skeleton.items self.new.skeleton.items result }
    {
        self.expect(alloc, Fixed::Int)?;
        self.name(alloc)
    }
}
