//! The entry of the parser: tokens in, a tree or the first refusal out. The contract is over the grammar's table
//! of rules, which says what a program is without the parser.

ghost use Rattle.std.specs.Prelude.{◌≡◌, ◌<◌, ◌^◌, ℕ, List, length, drop, IfOk, IsErrOf, MatchResult, ◌⊎◌};
ghost use Rattle.prv_rule.specs.Refusals.{place_of};
ghost use Rattle.prv_parse.specs.Refusals.{HasTree, IsSyntaxAt, IsDeepAt};
ghost use Rattle.prv_parse.specs.MainFunctions.{refusal_of};
ghost use Rattle.prv_rule.specs.declared.skeleton.Skel.{Skel as SkelIs};
ghost use Rattle.prv_parse.specs.declared.tree.Ident.{Ident as IdentIs};
ghost use Rattle.prv_parse.specs.declared.tree.StmtTree.{StmtTree as StmtIs};

use crate::cursor::Cursor;
use crate::error::ParseError;
use crate::program::Tree;
use crate::reader::Reader;
use crate::stop::Stop;
use prv_lex::Token;
use sqlite_items::Items;
use std::alloc::Global;

/// The tree of a file, from its tokens, of which there are fewer than 2^28; `end` is the file's length in
/// bytes.
///
/// `Syntax` comes at the first token at which the tokens up to and with it begin no program, or at `end`
/// where they are only too few. `Deep` comes at the first token that is inside more than 100 open
/// constructs, or is the 257th operator of its full expression. The first place wins, and at one place
/// `Deep` does. `Memory` comes where memory runs out.
pub fn parse(alloc: Global, tokens: &[Token], end: u32) -> Result<Tree, ParseError>
    requires { length tokens.now < 2 ^ 28 }

    // What is answered holds of the tokens.
    ensures found { IfOk result (λ tree. HasTree tokens.now tree.params tree.body tree.skeleton) }
    ensures syntax { (place : ℕ) → IsErrOf result (ParseError.Syntax place) → IsSyntaxAt tokens.now end place }
    ensures deep { (place : ℕ) → IsErrOf result (ParseError.Deep place) → IsDeepAt tokens.now place }

    // What holds of the tokens is answered, unless memory runs out.
    ensures finds { (params : List IdentIs) (body : List StmtIs) (skeleton : List SkelIs) → HasTree tokens.now params body skeleton →
        MatchResult result (λ tree. (tree.params ≡ params) × (tree.body ≡ body) × (tree.skeleton ≡ skeleton)) (λ e. e ≡ ParseError.Memory) }
    ensures refuses_syntax { (place : ℕ) → IsSyntaxAt tokens.now end place →
        MatchResult result (λ _. ⊥) (λ e. (e ≡ ParseError.Syntax place) ⊎ (e ≡ ParseError.Memory)) }
    ensures refuses_deep { (place : ℕ) → IsDeepAt tokens.now place →
        MatchResult result (λ _. ⊥) (λ e. (e ≡ ParseError.Deep place) ⊎ (e ≡ ParseError.Memory)) }
{
    let mut reader = Reader {
        cursor: Cursor { tokens, at: 0 },
        skeleton: Vec::new(alloc),
    };
    match reader.program(alloc) {
        Ok(main) => Ok(Tree {
            params: main.params,
            body: main.body,
            skeleton: Items::from_vec(reader.skeleton),
        }),
        Err(stop) => Err(refusal(stop, place_at(tokens, reader.cursor.at, end))),
    }
}

/// What a stop at a place means.
fn refusal(stop: Stop, place: u32) -> ParseError
    ensures { result ≡ refusal_of stop place }
{
    match stop {
        Stop::Syntax => ParseError::Syntax { place },
        Stop::Depth | Stop::Operators => ParseError::Deep { place },
        Stop::Memory => ParseError::Memory,
    }
}

/// The place of a token, or the end of the file where there is none.
fn place_at(tokens: &[Token], at: usize, end: u32) -> u32
    ensures { result ≡ place_of (drop at tokens.now) end }
{
    match tokens.get(at) {
        None => end,
        Some(token) => token.place,
    }
}
