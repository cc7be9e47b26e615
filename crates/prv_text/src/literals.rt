//! The condition of an entry. Its literals are terms where an entry is made of terms, and nodes of a table where it is
//! made of a part; one writer serves both, over what can write a literal at a place.
ghost use Rattle.std.specs.Prelude.{◌≡◌, ℕ, ◌<◌, ◌++◌, List, length, OnOk};
ghost use Rattle.prv_model.specs.declared.term.Term.{Term};
ghost use Rattle.prv_pool.specs.Tables.{term_at};
ghost use Rattle.prv_text.specs.Terms.{literal_text};
ghost use Rattle.prv_text.specs.Entries.{more_text, condition};

use crate::node::push_node;
use crate::term::{LITERAL_BYTES, push_literal};
use prv_model::{Name, Term};
use prv_region::Region;
use sqlite_items::Items;
use std::alloc::AllocError;

/// How many literals of a condition are shown.
const SHOWN_LITERALS: usize = 32;

/// Literals that can be written one at a time.
pub(crate) trait Literals {
    ghost terms: { Self → List Term };

    /// How many there are.
    fn count(&self) -> usize
        ensures { result ≡ length (terms self.now) };

    /// Writes the literal at a place. `names` are the names of the parameters.
    fn push_at(&self, out: &mut Vec<u8>, names: &[Name], place: usize) -> Result<(), AllocError>
        requires { place < length (terms self.now) }
        ensures { OnOk result (out.new.items ≡ out.old.items ++ literal_text names.now (term_at (terms self.now) place)) };
}

impl Literals for Items<Term> {
    ghost terms = { λ literals. literals };

    fn count(&self) -> usize {
        self.len()
    }

    fn push_at(&self, out: &mut Vec<u8>, names: &[Name], place: usize) -> Result<(), AllocError> {
        push_literal(out, names, &self.as_slice()[place])
    }
}

impl Literals for Region {
    ghost terms = { λ region. region };

    fn count(&self) -> usize {
        self.parts().roots.len()
    }

    fn push_at(&self, out: &mut Vec<u8>, names: &[Name], place: usize) -> Result<(), AllocError> {
        let parts = self.parts();
        push_node(out, names, parts.pool, parts.roots[place], LITERAL_BYTES)
    }
}

/// Writes the first literals of a condition.
pub(crate) fn push_condition<L: Literals>(
    out: &mut Vec<u8>,
    names: &[Name],
    literals: &L,
) -> Result<(), AllocError>
    ensures { OnOk result (out.new.items ≡ out.old.items ++ condition names.now (L.terms literals.now)) }
{
    let count = literals.count();
    if count == 0 {
        out.extend_from_slice(b"true")?;
        return Ok(());
    }
    literals.push_at(out, names, 0)?;
    for place in 1..count.min(SHOWN_LITERALS) {
        out.extend_from_slice(b" ; ")?;
        literals.push_at(out, names, place)?;
    }
    push_more(out, count)?;
    Ok(())
}

/// Writes what stands behind the first of so many literals, where there are more.
fn push_more(out: &mut Vec<u8>, count: usize) -> Result<(), AllocError>
    ensures { OnOk result (out.new.items ≡ out.old.items ++ more_text count) }
{
    if count > SHOWN_LITERALS {
        out.extend_from_slice(b" ; ..")?;
    }
    Ok(())
}
