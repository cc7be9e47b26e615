//! Marks: `@` and a number. The tokens of what a mark stands before are taken out of the skeleton again, and one
//! hole is put in their place.

ghost use Rattle.std.specs.Prelude.{◌≡◌, ◌+◌, ◌-◌, ◌<◌, ◌∷◌, ◌++◌, drop, length, OnOk, MatchResult, [], ◌≤◌, take};
ghost use Rattle.prv_parse.specs.Reader.{mark_behind, Done};
ghost use Rattle.prv_parse.specs.Cursors.{left, StopsBy};
ghost use Rattle.prv_rule.specs.Skeletons.{kept, hole};
ghost use Rattle.prv_parse.specs.declared.tree.StmtTree.TheVariants.{Marked};
ghost use Rattle.prv_parse.specs.declared.stop.Stop.TheVariants.{Memory};

use crate::cursor::Cursor;
use crate::reader::Reader;
use crate::stop::Stop;
use crate::tree::{Mark, StmtTree};
use prv_lex::{Tok, Token};
use prv_rule::{Skel, SkelItem};
use sqlite_items::Boxed;
use std::alloc::{AllocError, Global};

/// The greatest number of a mark.
const GREATEST_MARK: i32 = 255;

impl<'t> Cursor<'t> {
    /// Reads the number of a mark behind its `@`.
    pub fn mark(&mut self, before: &Token) -> Result<Mark, Stop>
        ensures tokens { self.new.tokens.now ≡ self.old.tokens.now }
        ensures reads { MatchResult result (λ m. mark_behind before.now (left self.old) ≡ Done m (left self.new)) (λ s. StopsBy (mark_behind before.now (left self.old)) (left self.new) s) }
    {
        let Some(token) = self.peek() else {
            return Err(Stop::Syntax);
        };
        let Tok::Num(number) = &token.tok else {
            return Err(Stop::Syntax);
        };
        let number = *number;
        if number < 1 || number > GREATEST_MARK {
            return Err(Stop::Syntax);
        }
        self.advance();
        Ok(Mark {
            number: number as u8,
            place: before.place,
        })
    }
}

impl<'t> Reader<'t> {
    /// Goes over the next token, and puts it into the skeleton.
    pub fn go_over(&mut self, alloc: Global, token: &Token) -> Result<(), AllocError>
        requires next { left self.old.cursor ≡ token.now ∷ drop (self.old.cursor.at + 1) self.old.cursor.tokens.now }
        requires more { self.old.cursor.at < length self.old.cursor.tokens.now }
        ensures tokens { self.new.cursor.tokens.now ≡ self.old.cursor.tokens.now }
        ensures at { self.new.cursor.at ≡ self.old.cursor.at + 1 }
        ensures kept { OnOk result (self.new.skeleton.items ≡ self.old.skeleton.items ++ kept token.now ∷ []) }
    {
        self.cursor.advance();
        self.keep(alloc, token)
    }

    /// Puts a hole in place of what the skeleton has from an index on, which is that of a marked body.
    pub fn fill(
        &mut self,
        alloc: Global,
        start: usize,
        mark: Mark,
        body: StmtTree,
    ) -> Result<StmtTree, Stop>
        requires { start ≤ length self.old.skeleton.items }
        ensures cursor { self.new.cursor ≡ self.old.cursor }
        ensures kept { OnOk result (self.new.skeleton.items ≡ take start self.old.skeleton.items ++ hole mark.number mark.place ∷ []) }
        ensures made { MatchResult result (λ s. s ≡ Marked mark body) (λ s. s ≡ Memory) }
    {
        self.skeleton.truncate(start);
        self.skeleton.push(Skel {
            item: SkelItem::Hole(mark.number),
            place: mark.place,
        })?;
        let body = Boxed::new(alloc, body)?;
        Ok(StmtTree::Marked { mark, body })
    }
}
