//! The place of a recursive-descent parser among its tokens, with one token of lookahead. A step either goes over
//! the next token or leaves the cursor at it, so that a stop is always at the token that it is about.

ghost use Rattle.std.specs.Prelude.{◌≡◌, ◌<◌, ◌+◌, [], ◌∷◌, length, drop, MatchOption, OnSome, MatchResult, true, false};
ghost use Rattle.prv_parse.specs.Reader.{expect, Done};
ghost use Rattle.prv_rule.specs.Skeletons.{kept};
ghost use Rattle.prv_parse.specs.Cursors.{left, StopsBy};
ghost use Rattle.prv_parse.specs.Fixed.{is_fixed, head_is};

use crate::fixed::Fixed;
use crate::stop::Stop;
use prv_lex::Token;

/// A place among the tokens of a file.
#[derive(Drop)]
pub struct Cursor<'t> {
    /// All tokens of the file.
    pub tokens: &'t [Token],
    /// The index of the next token.
    pub at: usize,
}

impl<'t> Cursor<'t> {
    /// The next token, if there is one.
    pub fn peek(&self) -> Option<&'t Token>
        ensures next { MatchOption result (left self.now ≡ []) (λ t. left self.now ≡ t.now ∷ drop (self.now.at + 1) self.now.tokens.now) }
        ensures more { OnSome result (self.now.at < length self.now.tokens.now) }
    {
        self.tokens.get(self.at)
    }

    /// How many tokens are left.
    pub fn count(&self) -> usize
        ensures { result ≡ length (left self.now) }
    {
        self.tokens.len().saturating_sub(self.at)
    }

    /// Goes over the next token.
    pub fn advance(&mut self)
        requires { self.old.at < length self.old.tokens.now }
        ensures tokens { self.new.tokens.now ≡ self.old.tokens.now }
        ensures at { self.new.at ≡ self.old.at + 1 }
    {
        self.at += 1;
    }

    /// The next token, where it is a fixed one.
    pub fn at_fixed(&self, wanted: Fixed) -> Option<&'t Token>
        ensures next { MatchOption result (head_is wanted (left self.now) ≡ false) (λ t. (left self.now ≡ t.now ∷ drop (self.now.at + 1) self.now.tokens.now) × (is_fixed wanted t.now.tok ≡ true)) }
        ensures more { OnSome result (self.now.at < length self.now.tokens.now) }
    {
        let token = self.peek()?;
        if wanted.is(&token.tok) {
            Some(token)
        } else {
            None
        }
    }

    /// Goes over a fixed token that has to come next.
    pub fn expect(&mut self, wanted: Fixed) -> Result<&'t Token, Stop>
        ensures tokens { self.new.tokens.now ≡ self.old.tokens.now }
        ensures goes { MatchResult result (λ t. expect (is_fixed wanted) (left self.old) ≡ Done (kept t.now ∷ []) (left self.new)) (λ s. StopsBy (expect (is_fixed wanted) (left self.old)) (left self.new) s) }
    {
        match self.at_fixed(wanted) {
            None => Err(Stop::Syntax),
            Some(token) => {
                self.advance();
                Ok(token)
            }
        }
    }
}
