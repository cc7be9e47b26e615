//! Whether a clause contains one of the clauses before it.
ghost use Rattle.std.specs.Prelude.{◌≡◌, [], length, slice_index_or, IsTrue, IfOk, true, bit_or, List};
ghost use Rattle.std.specs.List.{list_all, list_any};
ghost use Rattle.prv_cnf.specs.declared.literal.Lit.{Lit};
ghost use Rattle.prv_check.specs.Lines.{known};
ghost use Rattle.prv_check.specs.Inner.Tables.{are_flagged, IsTableOf};
ghost use Rattle.prv_check.specs.Inner.Signatures.{signature};
ghost use Rattle.prv_check.specs.Inner.Indexing.{IsIndex, is_entry};
ghost use Rattle.prv_check.specs.Freshness.{contains_clause};

use crate::flags::Flags;
use crate::index::{Entry, Index};
use crate::known::{clause_at, known_count};
use crate::log::Line;
use crate::signature::signature;
use crate::tables::all_flagged;
use prv_cnf::{Cnf, Lit};
use std::alloc::{AllocError, Global};

/// The index of those clauses of a formula whose literals all occur.
pub fn index_of(alloc: Global, cnf: &Cnf, occurs: Flags) -> Result<Index, AllocError>
    ensures index { IfOk result (IsIndex (known cnf.now [])) }
    ensures occurs { IfOk result (λ i. i.occurs ≡ occurs) }
{
    let mut index = Index::new(alloc, occurs)?;
    for (number, clause) in cnf.clauses().iter().enumerate() {
        index.add(clause.lits(), number)?;
    }
    Ok(index)
}

/// Whether the clause, whose literals are those of the table, contains a clause before it.
pub fn contains_indexed(
    cnf: &Cnf,
    earlier: &[Line],
    lits: &[Lit],
    index: &Index,
    seen: &Flags,
) -> bool
    requires index { IsIndex (known cnf.now earlier.now) index.now }
    requires occur { IsTrue (are_flagged index.now.occurs lits.now) }
    requires seen { IsTableOf seen.now lits.now }
    ensures { result ≡ list_any (contains_clause lits.now) (known cnf.now earlier.now) }
{
    if index.has_empty() {
        return true;
    }
    let bits = signature(lits);
    for lit in lits {
        if some_covered(cnf, earlier, index.listed(*lit), bits, seen) {
            return true;
        }
    }
    false
}

/// Whether one of the listed clauses has literals of the table alone.
fn some_covered(cnf: &Cnf, earlier: &[Line], entries: &[Entry], bits: u64, seen: &Flags) -> bool
    requires entries { IsTrue (list_all (is_entry (known cnf.now earlier.now)) entries.now) }
    requires bits { (c : List Lit) → are_flagged seen.now c ≡ true → bit_or (signature c) bits ≡ bits }
    ensures { result ≡ list_any (λ e. are_flagged seen.now (slice_index_or (known cnf.now earlier.now) e.number [])) entries.now }
{
    for entry in entries {
        if entry.signature | bits == bits
            && all_flagged(seen, clause_at(cnf, earlier, entry.number))
        {
            return true;
        }
    }
    false
}
