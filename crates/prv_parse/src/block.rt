//! Blocks and declarations. A block's items are read one after the other up to its closing brace: a declaration
//! stands right in a block, or behind one mark there, and everything else is a statement.

ghost use Rattle.std.specs.Prelude.{◌≡◌, ◌+◌, ◌-◌, ◌<◌, ◌∷◌, drop, length};
ghost use Rattle.prv_parse.specs.Reader.{statements, block as block_of, items as items_of, item_at, declaration as declaration_of, declared as declared_of};
ghost use Rattle.prv_parse.specs.Cursors.{left};
ghost use Rattle.prv_parse.specs.Statements.{ReadsStmt, ReadsItems, body_of};
ghost use Rattle.prv_lex.specs.declared.token.Tok.TheVariants as tok;
ghost use Rattle.prv_lex.specs.declared.token.Sym.TheVariants as sym;

use crate::fixed::Fixed;
use crate::reader::Reader;
use crate::stop::Stop;
use crate::tree::{ExprTree, Ident, StmtTree};
use prv_lex::{Key, Sym, Tok, Token};
use sqlite_items::Items;
use std::alloc::Global;

impl<'t> Reader<'t> {
    /// Reads what stands behind the `{` of a block up to and with its `}`, where `room` constructs more
    /// may be open, the block included.
    #[cycle(statement)]
    pub fn block(&mut self, alloc: Global, room: u32) -> Result<Items<StmtTree>, Stop>
        ensures tokens { self.new.cursor.tokens.now ≡ self.old.cursor.tokens.now }
        ensures reads { ReadsItems (block_of room (statements room).here (statements room).deeper (left self.old.cursor)) (left self.new.cursor) self.old.skeleton.items self.new.skeleton.items result }
    {
        if room == 0 {
            return match self.cursor.peek() {
                None => Err(Stop::Syntax),
                Some(_) => Err(Stop::Depth),
            };
        }
        let all = self.items(alloc, room)?;
        self.expect(alloc, Fixed::CloseBrace)?;
        Ok(all)
    }

    /// Reads the items of a block up to its `}`.
    #[cycle(statement)]
    fn items(&mut self, alloc: Global, room: u32) -> Result<Items<StmtTree>, Stop>
        requires { 0 < room }
        ensures tokens { self.new.cursor.tokens.now ≡ self.old.cursor.tokens.now }
        ensures reads { ReadsItems (items_of room (statements room).here (statements room).deeper (length (left self.old.cursor)) (left self.old.cursor)) (left self.new.cursor) self.old.skeleton.items self.new.skeleton.items result }
    {
        let mut all = Vec::new(alloc);
        for count in 0..self.cursor.count() {
            let Some(token) = self.cursor.peek() else {
                return Err(Stop::Syntax);
            };
            if Fixed::CloseBrace.is(&token.tok) {
                return Ok(Items::from_vec(all));
            }
            let item = self.item(alloc, token, room)?;
            all.push(item)?;
        }
        Err(Stop::Syntax)
    }

    /// Reads a declaration or a statement, each maybe marked.
    #[cycle(statement)]
    fn item(&mut self, alloc: Global, token: &Token, room: u32) -> Result<StmtTree, Stop>
        requires some { 0 < room }
        requires next { left self.old.cursor ≡ token.now ∷ drop (self.old.cursor.at + 1) self.old.cursor.tokens.now }
        requires more { self.old.cursor.at < length self.old.cursor.tokens.now }
        ensures tokens { self.new.cursor.tokens.now ≡ self.old.cursor.tokens.now }
        ensures reads { ReadsStmt (item_at token.now.tok room (statements room).here (statements room).deeper token.now (drop (self.old.cursor.at + 1) self.old.cursor.tokens.now)) (left self.new.cursor) self.old.skeleton.items self.new.skeleton.items result }
    {
        match &token.tok {
            Tok::Key(Key::Int) => self.declaration(alloc, token, room),
            Tok::Sym(Sym::At) => self.marked_item(alloc, token, room),
            _ => self.statement(alloc, room),
        }
    }

    /// Reads a marked declaration or statement.
    #[cycle(statement)]
    fn marked_item(&mut self, alloc: Global, token: &Token, room: u32) -> Result<StmtTree, Stop>
        requires some { 0 < room }
        requires next { left self.old.cursor ≡ token.now ∷ drop (self.old.cursor.at + 1) self.old.cursor.tokens.now }
        requires more { self.old.cursor.at < length self.old.cursor.tokens.now }
        ensures tokens { self.new.cursor.tokens.now ≡ self.old.cursor.tokens.now }
        ensures reads { ReadsStmt (item_at (tok.Sym sym.At) room (statements room).here (statements room).deeper token.now (drop (self.old.cursor.at + 1) self.old.cursor.tokens.now)) (left self.new.cursor) self.old.skeleton.items self.new.skeleton.items result }
    {
        let start = self.skeleton.len();
        self.cursor.advance();
        let mark = self.cursor.mark(token)?;
        let body = self.marked_body(alloc, room)?;
        self.fill(alloc, start, mark, body)
    }

    /// Reads what a mark in a block stands before.
    #[cycle(statement)]
    fn marked_body(&mut self, alloc: Global, room: u32) -> Result<StmtTree, Stop>
        requires { 0 < room }
        ensures tokens { self.new.cursor.tokens.now ≡ self.old.cursor.tokens.now }
        ensures reads { ReadsStmt (body_of room (statements room).deeper (left self.old.cursor)) (left self.new.cursor) self.old.skeleton.items self.new.skeleton.items result }
    {
        let Some(token) = self.cursor.peek() else {
            return Err(Stop::Syntax);
        };
        if Fixed::Int.is(&token.tok) {
            self.declaration(alloc, token, room)
        } else {
            self.statement(alloc, room - 1)
        }
    }

    /// Reads `int x;` or `int x = value;`.
    fn declaration(&mut self, alloc: Global, token: &Token, room: u32) -> Result<StmtTree, Stop>
        requires next { left self.old.cursor ≡ token.now ∷ drop (self.old.cursor.at + 1) self.old.cursor.tokens.now }
        requires more { self.old.cursor.at < length self.old.cursor.tokens.now }
        ensures tokens { self.new.cursor.tokens.now ≡ self.old.cursor.tokens.now }
        ensures reads { ReadsStmt (declaration_of room token.now (drop (self.old.cursor.at + 1) self.old.cursor.tokens.now)) (left self.new.cursor) self.old.skeleton.items self.new.skeleton.items result }
    {
        self.go_over(alloc, token)?;
        let var = self.name(alloc)?;
        self.declared(alloc, var, room)
    }

    /// Reads what stands behind a declared name: `;`, which makes it 0, or `= value;`.
    fn declared(&mut self, alloc: Global, var: Ident, room: u32) -> Result<StmtTree, Stop>
        ensures tokens { self.new.cursor.tokens.now ≡ self.old.cursor.tokens.now }
        ensures reads { ReadsStmt (declared_of room var (left self.old.cursor)) (left self.new.cursor) self.old.skeleton.items self.new.skeleton.items result }
    {
        let Some(token) = self.cursor.peek() else {
            return Err(Stop::Syntax);
        };
        if Fixed::Semicolon.is(&token.tok) {
            self.go_over(alloc, token)?;
            let value = ExprTree::Num(0);
            return Ok(StmtTree::Declare { var, value });
        }
        let value = self.assigned(alloc, room)?;
        Ok(StmtTree::Declare { var, value })
    }
}
