//! Where two skeletons first differ. Outside of the marked places both versions have to be the same text, token
//! by token.
ghost use Rattle.std.specs.Prelude.{◌≡◌, ◌↔◌, IsTrue, IfSome, IfNone};
ghost use Rattle.prv_marks.specs.Skeletons.{items_of, place_at as place_at_of, DifferFirstAt};

use prv_lex::{Key, Sym, Tok};
use prv_parse::{Skel, SkelItem};

/// Whether two reserved words are one.
fn same_key(a: Key, b: Key) -> bool
    ensures { IsTrue result ↔ (a ≡ b) }
{
    a == b
}

/// Whether two symbols are one.
fn same_sym(a: Sym, b: Sym) -> bool
    ensures { IsTrue result ↔ (a ≡ b) }
{
    a == b
}

/// Whether two tokens are one.
fn same_tok(a: &Tok, b: &Tok) -> bool
    ensures { IsTrue result ↔ (a.now ≡ b.now) }
{
    match (a, b) {
        (Tok::Name(m), Tok::Name(n)) => m.same(n),
        (Tok::Num(m), Tok::Num(n)) => *m == *n,
        (Tok::Key(m), Tok::Key(n)) => same_key(*m, *n),
        (Tok::Sym(m), Tok::Sym(n)) => same_sym(*m, *n),
        _ => false,
    }
}

/// Whether two items of skeletons are one.
fn same_item(a: &SkelItem, b: &SkelItem) -> bool
    ensures { IsTrue result ↔ (a.now ≡ b.now) }
{
    match (a, b) {
        (SkelItem::Tok(m), SkelItem::Tok(n)) => same_tok(m, n),
        (SkelItem::Hole(m), SkelItem::Hole(n)) => *m == *n,
        _ => false,
    }
}

/// The first index at which two skeletons differ, if they do.
pub fn first_difference(before: &[Skel], after: &[Skel]) -> Option<usize>
    ensures found { IfSome result (λ i. DifferFirstAt before.now after.now i) }
    ensures none { IfNone result (items_of before.now ≡ items_of after.now) }
{
    let shared = before.len().min(after.len());
    for i in 0..shared {
        if !same_item(&before[i].item, &after[i].item) {
            return Some(i);
        }
    }
    if before.len() == after.len() {
        None
    } else {
        Some(shared)
    }
}

/// The place of the item at an index, or of the last where the skeleton has ended; 0 where it has no item.
pub fn place_at(skeleton: &[Skel], i: usize) -> u32
    ensures { result ≡ place_at_of skeleton.now i }
{
    if i < skeleton.len() {
        skeleton[i].place
    } else if skeleton.len() > 0 {
        skeleton[skeleton.len() - 1].place
    } else {
        0
    }
}
