//! What a pair does at one input, as a list of entries.
//!
//! It is the smallest list that is about all inputs: one entry holds the input alone, and for each
//! parameter one more is left open, with the inputs that differ from it there first.
ghost use Rattle.std.specs.Prelude.{◌≡◌, ◌≤◌, [], ◌++◌, length, IfOk, OnOk};
ghost use Rattle.prv_model.specs.Comparison.{verdict as verdict_of};
ghost use Rattle.prv_model.specs.Boards.{IsLegal, FirstHoldsOnly};
ghost use Rattle.prv_run.specs.Points.{equals as equals_of, differs as differs_of, literals as literals_of, rests, kind_at as kind_of, point};

use crate::runs::run;
use prv_model::{Entry, Input, Kind, Pair, Term, TermOp, Verdict, compare};
use sqlite_items::{Boxed, Items};
use std::alloc::{AllocError, Global};

/// The list of entries that says what a pair does on one input, and leaves every other input open.
///
/// Entry 1 has the terms `p == c`, one for each parameter in order, and no marks. The entries from 2 on
/// are the rests: the inputs that differ from it first at the first parameter, at the second, and so on.
pub fn point_entries(alloc: Global, pair: &Pair, input: &Input) -> Result<Vec<Entry>, AllocError>
    requires { length input.now ≡ pair.now.before.params }
    ensures list { IfOk result (λ entries. entries.items ≡ point (verdict_of pair.now input.now) input.now) }
    // What the entries say is true of every input, and each input lies in one of them.
    ensures legal { IfOk result (λ entries. IsLegal pair.now entries.items) }
    ensures first { IfOk result (λ entries. FirstHoldsOnly pair.now.before.params entries.items input.now) }
{
    let _words = input.as_slice();
    let before = run(alloc, &pair.before, input, pair.turns)?;
    let after = run(alloc, &pair.after, input, pair.turns)?;
    let entries = entries_of(alloc, compare(&before, &after), input)?;
    Ok(entries)
}

/// The entries for an input on which the pair has this verdict.
fn entries_of(alloc: Global, verdict: Verdict, input: &Input) -> Result<Vec<Entry>, AllocError>
    requires { length input.now ≤ 8 }
    ensures { IfOk result (λ entries. entries.items ≡ point verdict input.now) }
{
    let mut entries = Vec::new(alloc);
    entries.push(Entry {
        number: 1,
        terms: literals(alloc, input.as_slice())?,
        kind: kind_at(alloc, verdict, input)?,
        marks: Items::new(alloc),
    })?;
    push_rests(alloc, input.as_slice(), &mut entries)?;
    Ok(entries)
}

/// What a verdict on an input lets be claimed of that input.
fn kind_at(alloc: Global, verdict: Verdict, input: &Input) -> Result<Kind, AllocError>
    ensures { IfOk result (λ kind. kind ≡ kind_of verdict input.now) }
{
    match verdict {
        Verdict::Beyond => Ok(Kind::Beyond),
        Verdict::Same => Ok(Kind::Same),
        Verdict::Differ => Ok(Kind::Different {
            sample: input.copy(alloc)?,
        }),
    }
}

/// Pushes an open entry for each parameter at which another input may first differ from this one.
fn push_rests(alloc: Global, words: &[i32], entries: &mut Vec<Entry>) -> Result<(), AllocError>
    requires { length words.now ≤ 8 }
    ensures { OnOk result (entries.new.items ≡ entries.old.items ++ rests 2 [] 0 words.now) }
{
    for k in 0..words.len() {
        let mut terms = literals(alloc, &words[..k])?;
        terms.push(differs(alloc, k as u8, words[k])?)?;
        entries.push(Entry {
            number: 2 + k as u32,
            terms,
            kind: Kind::Unexplored,
            marks: Items::new(alloc),
        })?;
    }
    Ok(())
}

/// That the parameters have these words.
fn literals(alloc: Global, words: &[i32]) -> Result<Items<Term>, AllocError>
    requires { length words.now ≤ 8 }
    ensures { IfOk result (λ terms. terms ≡ literals_of 0 words.now) }
{
    let mut terms = Items::new(alloc);
    for k in 0..words.len() {
        terms.push(equals(alloc, k as u8, words[k])?)?;
    }
    Ok(terms)
}

/// That parameter k has the word n.
fn equals(alloc: Global, k: u8, n: i32) -> Result<Term, AllocError>
    ensures { IfOk result (λ term. term ≡ equals_of k n) }
{
    Ok(Term::Op(
        TermOp::Eq,
        Boxed::new(alloc, Term::Param(k))?,
        Boxed::new(alloc, Term::Num(n))?,
    ))
}

/// That parameter k has another word than n.
fn differs(alloc: Global, k: u8, n: i32) -> Result<Term, AllocError>
    ensures { IfOk result (λ term. term ≡ differs_of k n) }
{
    Ok(Term::Op(
        TermOp::Ne,
        Boxed::new(alloc, Term::Param(k))?,
        Boxed::new(alloc, Term::Num(n))?,
    ))
}
