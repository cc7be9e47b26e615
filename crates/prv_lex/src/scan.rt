//! From the bytes of a file to its tokens, front by front, up to the first thing that can't be read.
ghost use Rattle.std.specs.Prelude.{◌≡◌, ℕ, List, ◌<◌, ◌≤◌, IfOk, IfErr, IsErrOf, MatchResult, ◌⊎◌};
ghost use Rattle.prv_model.specs.declared.limits.TheConstants.{MAX_FILE};
ghost use Rattle.prv_lex.specs.declared.error.LexWhy.{LexWhy};
ghost use Rattle.prv_lex.specs.declared.token.Token.{Token};
ghost use Rattle.prv_lex.specs.Readings.{HasTokens, IsRefused};
ghost use Rattle.prv_lex.specs.Fronts.{len_of, IsAdded, StopsWith};

use crate::class::{is_blank, is_letter};
use crate::error::{LexError, LexWhy};
use crate::front::{Front, other_front, word_at, word_of};
use crate::token::Token;
use prv_model::MAX_FILE;
use std::alloc::Global;

/// The tokens of a file, in order, each as long as possible and with the place of its first byte.
///
/// `Refused` with `Long` at 65536 comes exactly where the file has more than 65,536 bytes. In any other
/// file it comes exactly where something can't be read, with the place and the reason of the first such
/// thing. `Memory` comes where memory runs out.
pub fn tokens(alloc: Global, bytes: &[u8]) -> Result<Vec<Token>, LexError>
    // What is answered holds of the file.
    ensures found { IfOk result (λ list. HasTokens bytes.now list.items) }
    ensures refused { (place : ℕ) (why : LexWhy) → IsErrOf result (LexError.Refused place why) → IsRefused bytes.now place why }

    // What holds of the file is answered, unless memory runs out.
    ensures finds { (list : List Token) → HasTokens bytes.now list →
        MatchResult result (λ found. found.items ≡ list) (λ e. e ≡ LexError.Memory) }
    ensures refuses { (place : ℕ) (why : LexWhy) → IsRefused bytes.now place why →
        MatchResult result (λ _. ⊥) (λ e. (e ≡ LexError.Refused place why) ⊎ (e ≡ LexError.Memory)) }
{
    if bytes.len() > MAX_FILE {
        return Err(LexError::Refused {
            place: MAX_FILE as u32,
            why: LexWhy::Long,
        });
    }
    // Few files have a token for each two bytes, so the list seldom grows.
    let mut found = Vec::with_capacity(alloc, bytes.len() / 2)?;
    let mut place = 0;
    while place < bytes.len() {
        let text = &bytes[place..];
        if is_blank(text[0]) {
            place += 1;
        } else if is_letter(text[0]) {
            place = add_front(&mut found, place, word_at(alloc, word_of(text))?)?;
        } else {
            place = add_front(&mut found, place, other_front(text))?;
        }
    }
    Ok(found)
}

/// Adds what stands at a place to the tokens, and returns the place behind it.
fn add_front(found: &mut Vec<Token>, place: usize, front: Front) -> Result<usize, LexError>
    requires near { place < MAX_FILE }
    requires short { len_of front ≤ MAX_FILE }
    ensures added { IfOk result (λ next. IsAdded front place found.old.items found.new.items next) }
    ensures stopped { IfErr result (λ e. StopsWith front place e) }
{
    let at = place as u32;
    match front {
        Front::Gap(len) => Ok(place + len),
        Front::Token(tok, len) => {
            found.push(Token { tok, place: at })?;
            Ok(place + len)
        }
        Front::Refused(why) => Err(LexError::Refused { place: at, why }),
    }
}
