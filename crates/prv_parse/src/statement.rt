//! Statements, each chosen by its first token alone (the grammar is LL(1), but for `else`, which goes with the
//! nearest `if`).

ghost use Rattle.std.specs.Prelude.{◌≡◌, ◌+◌, ◌-◌, ◌<◌, ◌∷◌, drop, length};
ghost use Rattle.prv_parse.specs.Reader.{statements, statement_at, block as block_of};
ghost use Rattle.prv_parse.specs.Cursors.{left};
ghost use Rattle.prv_parse.specs.Statements.{ReadsStmt};
ghost use Rattle.prv_lex.specs.declared.token.Tok.TheVariants as tok;
ghost use Rattle.prv_lex.specs.declared.token.Key.TheVariants as key;
ghost use Rattle.prv_lex.specs.declared.token.Sym.TheVariants as sym;

use crate::fixed::Fixed;
use crate::reader::Reader;
use crate::stop::Stop;
use crate::tree::{Ident, StmtTree};
use prv_lex::{Key, Sym, Tok, Token};
use prv_model::Name;
use sqlite_items::Boxed;
use std::alloc::Global;

impl<'t> Reader<'t> {
    /// Reads a statement, where `room` constructs more may be open, the one around it included.
    #[cycle(statement)]
    pub fn statement(&mut self, alloc: Global, room: u32) -> Result<StmtTree, Stop>
        ensures tokens { self.new.cursor.tokens.now ≡ self.old.cursor.tokens.now }
        ensures reads { ReadsStmt ((statements room).here (left self.old.cursor)) (left self.new.cursor) self.old.skeleton.items self.new.skeleton.items result }
    {
        let Some(token) = self.cursor.peek() else {
            return Err(Stop::Syntax);
        };
        if room == 0 {
            return Err(Stop::Depth);
        }
        match &token.tok {
            Tok::Name(name) => self.assignment(alloc, name, token, room),
            Tok::Key(key) => self.keyword_statement(alloc, *key, token, room),
            Tok::Sym(sym) => self.symbol_statement(alloc, *sym, token, room),
            Tok::Num(_) => Err(Stop::Syntax),
        }
    }

    /// Reads a statement that begins with a reserved word.
    #[cycle(statement)]
    fn keyword_statement(
        &mut self,
        alloc: Global,
        key: Key,
        token: &Token,
        room: u32,
    ) -> Result<StmtTree, Stop>
        requires some { 0 < room }
        requires next { left self.old.cursor ≡ token.now ∷ drop (self.old.cursor.at + 1) self.old.cursor.tokens.now }
        requires more { self.old.cursor.at < length self.old.cursor.tokens.now }
        ensures tokens { self.new.cursor.tokens.now ≡ self.old.cursor.tokens.now }
        ensures reads { ReadsStmt (statement_at (tok.Key key) room (statements (room - 1)).here (block_of (room - 1) (statements (room - 1)).here (statements (room - 1)).deeper)
            token.now (drop (self.old.cursor.at + 1) self.old.cursor.tokens.now)) (left self.new.cursor) self.old.skeleton.items self.new.skeleton.items result }
    {
        match key {
            Key::If => self.branch(alloc, token, room),
            Key::While => self.repetition(alloc, token, room),
            Key::Return => self.returned(alloc, token, room),
            Key::Out => self.output(alloc, token, room),
            Key::Assert => self.assertion(alloc, token, room),
            Key::Int | Key::Main | Key::Else => Err(Stop::Syntax),
        }
    }

    /// Reads a statement that begins with a symbol.
    #[cycle(statement)]
    fn symbol_statement(
        &mut self,
        alloc: Global,
        sym: Sym,
        token: &Token,
        room: u32,
    ) -> Result<StmtTree, Stop>
        requires some { 0 < room }
        requires next { left self.old.cursor ≡ token.now ∷ drop (self.old.cursor.at + 1) self.old.cursor.tokens.now }
        requires more { self.old.cursor.at < length self.old.cursor.tokens.now }
        ensures tokens { self.new.cursor.tokens.now ≡ self.old.cursor.tokens.now }
        ensures reads { ReadsStmt (statement_at (tok.Sym sym) room (statements (room - 1)).here (block_of (room - 1) (statements (room - 1)).here (statements (room - 1)).deeper)
            token.now (drop (self.old.cursor.at + 1) self.old.cursor.tokens.now)) (left self.new.cursor) self.old.skeleton.items self.new.skeleton.items result }
    {
        match sym {
            Sym::Semicolon => {
                self.go_over(alloc, token)?;
                Ok(StmtTree::Skip)
            }
            Sym::OpenBrace => {
                self.go_over(alloc, token)?;
                let all = self.block(alloc, room - 1)?;
                Ok(StmtTree::Block(all))
            }
            Sym::At => self.marked_statement(alloc, token, room),
            _ => Err(Stop::Syntax),
        }
    }

    /// Reads `if (test) yes`, and `else no` where it follows.
    #[cycle(statement)]
    fn branch(&mut self, alloc: Global, token: &Token, room: u32) -> Result<StmtTree, Stop>
        requires some { 0 < room }
        requires next { left self.old.cursor ≡ token.now ∷ drop (self.old.cursor.at + 1) self.old.cursor.tokens.now }
        requires more { self.old.cursor.at < length self.old.cursor.tokens.now }
        ensures tokens { self.new.cursor.tokens.now ≡ self.old.cursor.tokens.now }
        ensures reads { ReadsStmt (statement_at (tok.Key key.If) room (statements (room - 1)).here (block_of (room - 1) (statements (room - 1)).here (statements (room - 1)).deeper)
            token.now (drop (self.old.cursor.at + 1) self.old.cursor.tokens.now)) (left self.new.cursor) self.old.skeleton.items self.new.skeleton.items result }
    {
        self.go_over(alloc, token)?;
        let test = self.test(alloc, room)?;
        let yes = self.statement(alloc, room - 1)?;
        let yes = Boxed::new(alloc, yes)?;
        let Some(other) = self.cursor.at_fixed(Fixed::Else) else {
            return Ok(StmtTree::If {
                test,
                yes,
                no: None,
            });
        };
        self.go_over(alloc, other)?;
        let no = self.statement(alloc, room - 1)?;
        let no = Some(Boxed::new(alloc, no)?);
        Ok(StmtTree::If { test, yes, no })
    }

    /// Reads `while (test) body`.
    #[cycle(statement)]
    fn repetition(&mut self, alloc: Global, token: &Token, room: u32) -> Result<StmtTree, Stop>
        requires some { 0 < room }
        requires next { left self.old.cursor ≡ token.now ∷ drop (self.old.cursor.at + 1) self.old.cursor.tokens.now }
        requires more { self.old.cursor.at < length self.old.cursor.tokens.now }
        ensures tokens { self.new.cursor.tokens.now ≡ self.old.cursor.tokens.now }
        ensures reads { ReadsStmt (statement_at (tok.Key key.While) room (statements (room - 1)).here (block_of (room - 1) (statements (room - 1)).here (statements (room - 1)).deeper)
            token.now (drop (self.old.cursor.at + 1) self.old.cursor.tokens.now)) (left self.new.cursor) self.old.skeleton.items self.new.skeleton.items result }
    {
        self.go_over(alloc, token)?;
        let test = self.test(alloc, room)?;
        let body = self.statement(alloc, room - 1)?;
        let body = Boxed::new(alloc, body)?;
        Ok(StmtTree::While { test, body })
    }

    /// Reads a marked statement.
    #[cycle(statement)]
    fn marked_statement(
        &mut self,
        alloc: Global,
        token: &Token,
        room: u32,
    ) -> Result<StmtTree, Stop>
        requires some { 0 < room }
        requires next { left self.old.cursor ≡ token.now ∷ drop (self.old.cursor.at + 1) self.old.cursor.tokens.now }
        requires more { self.old.cursor.at < length self.old.cursor.tokens.now }
        ensures tokens { self.new.cursor.tokens.now ≡ self.old.cursor.tokens.now }
        ensures reads { ReadsStmt (statement_at (tok.Sym sym.At) room (statements (room - 1)).here (block_of (room - 1) (statements (room - 1)).here (statements (room - 1)).deeper)
            token.now (drop (self.old.cursor.at + 1) self.old.cursor.tokens.now)) (left self.new.cursor) self.old.skeleton.items self.new.skeleton.items result }
    {
        let start = self.skeleton.len();
        self.cursor.advance();
        let mark = self.cursor.mark(token)?;
        let body = self.statement(alloc, room - 1)?;
        self.fill(alloc, start, mark, body)
    }

    /// Reads `x = value;`.
    fn assignment(
        &mut self,
        alloc: Global,
        name: &Name,
        token: &Token,
        room: u32,
    ) -> Result<StmtTree, Stop>
        requires some { 0 < room }
        requires next { left self.old.cursor ≡ token.now ∷ drop (self.old.cursor.at + 1) self.old.cursor.tokens.now }
        requires more { self.old.cursor.at < length self.old.cursor.tokens.now }
        ensures tokens { self.new.cursor.tokens.now ≡ self.old.cursor.tokens.now }
        ensures reads { ReadsStmt (statement_at (tok.Name name.now) room (statements (room - 1)).here (block_of (room - 1) (statements (room - 1)).here (statements (room - 1)).deeper)
            token.now (drop (self.old.cursor.at + 1) self.old.cursor.tokens.now)) (left self.new.cursor) self.old.skeleton.items self.new.skeleton.items result }
    {
        let name = name.copy(alloc)?;
        self.go_over(alloc, token)?;
        let value = self.assigned(alloc, room)?;
        let var = Ident {
            name,
            place: token.place,
        };
        Ok(StmtTree::Set { var, value })
    }

    /// Reads `return value;`.
    fn returned(&mut self, alloc: Global, token: &Token, room: u32) -> Result<StmtTree, Stop>
        requires some { 0 < room }
        requires next { left self.old.cursor ≡ token.now ∷ drop (self.old.cursor.at + 1) self.old.cursor.tokens.now }
        requires more { self.old.cursor.at < length self.old.cursor.tokens.now }
        ensures tokens { self.new.cursor.tokens.now ≡ self.old.cursor.tokens.now }
        ensures reads { ReadsStmt (statement_at (tok.Key key.Return) room (statements (room - 1)).here (block_of (room - 1) (statements (room - 1)).here (statements (room - 1)).deeper)
            token.now (drop (self.old.cursor.at + 1) self.old.cursor.tokens.now)) (left self.new.cursor) self.old.skeleton.items self.new.skeleton.items result }
    {
        self.go_over(alloc, token)?;
        let value = self.ended(alloc, room)?;
        Ok(StmtTree::Return(value))
    }

    /// Reads `out(value);`.
    fn output(&mut self, alloc: Global, token: &Token, room: u32) -> Result<StmtTree, Stop>
        requires some { 0 < room }
        requires next { left self.old.cursor ≡ token.now ∷ drop (self.old.cursor.at + 1) self.old.cursor.tokens.now }
        requires more { self.old.cursor.at < length self.old.cursor.tokens.now }
        ensures tokens { self.new.cursor.tokens.now ≡ self.old.cursor.tokens.now }
        ensures reads { ReadsStmt (statement_at (tok.Key key.Out) room (statements (room - 1)).here (block_of (room - 1) (statements (room - 1)).here (statements (room - 1)).deeper)
            token.now (drop (self.old.cursor.at + 1) self.old.cursor.tokens.now)) (left self.new.cursor) self.old.skeleton.items self.new.skeleton.items result }
    {
        self.go_over(alloc, token)?;
        let value = self.test(alloc, room)?;
        self.expect(alloc, Fixed::Semicolon)?;
        Ok(StmtTree::Out(value))
    }

    /// Reads `assert(value);`.
    fn assertion(&mut self, alloc: Global, token: &Token, room: u32) -> Result<StmtTree, Stop>
        requires some { 0 < room }
        requires next { left self.old.cursor ≡ token.now ∷ drop (self.old.cursor.at + 1) self.old.cursor.tokens.now }
        requires more { self.old.cursor.at < length self.old.cursor.tokens.now }
        ensures tokens { self.new.cursor.tokens.now ≡ self.old.cursor.tokens.now }
        ensures reads { ReadsStmt (statement_at (tok.Key key.Assert) room (statements (room - 1)).here (block_of (room - 1) (statements (room - 1)).here (statements (room - 1)).deeper)
            token.now (drop (self.old.cursor.at + 1) self.old.cursor.tokens.now)) (left self.new.cursor) self.old.skeleton.items self.new.skeleton.items result }
    {
        self.go_over(alloc, token)?;
        let value = self.test(alloc, room)?;
        self.expect(alloc, Fixed::Semicolon)?;
        Ok(StmtTree::Assert(value))
    }
}
