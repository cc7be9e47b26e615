//! An index of clauses by literal, to find those that another clause contains.
//!
//! Each clause is listed under one of its literals, the one whose list was shortest. A clause that is
//! contained in another is then listed under a literal of that other, so only those lists are looked
//! through (one-literal watching, as it is used for forward subsumption). Beside the clause's number
//! stands its signature, so that a clause that can't be contained is never fetched, and a clause with a
//! literal that no line has is not listed at all.
ghost use Rattle.std.specs.Prelude.{◌≡◌, ◌<◌, [], length, false, replicate, slice_index_or, IfOk, OnOk, IfNone, IfSome, true};
ghost use Rattle.std.specs.List.{All};
ghost use Rattle.prv_cnf.specs.Literals.{has_literal};
ghost use Rattle.prv_cnf.specs.Places.{place_of};

use crate::flags::Flags;
use crate::signature::signature;
use crate::tables::all_flagged;
use prv_cnf::Lit;
use sqlite_items::Items;
use std::alloc::{AllocError, Global};
use std::marker::Model;

/// A clause that is listed: its signature and its number.
#[derive(Clone, Copy, Debug)]
pub struct Entry {
    /// The bits of its literals.
    pub signature: u64,
    /// Its number.
    pub number: usize,
}

/// Clauses, listed by literal.
#[derive(Debug, Drop)]
pub struct Index {
    /// The literals that lines have.
    occurs: Flags,
    /// Whether an empty clause was added.
    has_empty: bool,
    /// Under each literal the clauses that are listed there.
    lists: Vec<Items<Entry>>,
}

impl Model for Index {
    ghost use Rattle.std.specs.Prelude.{◌≡◌, length};
    ghost use Rattle.prv_check.specs.Inner.Indexing.{Listing};

    ghost Value = { Listing };

    ghost view = { λ i. record { occurs = i.occurs; has_empty = i.has_empty; lists = i.lists.items } };

    ghost invariant = { λ i. length i.lists.items ≡ length i.occurs };
}

impl Index {
    ghost use Rattle.prv_check.specs.Inner.Indexing.{Listing, IsListed};

    /// The index of no clauses, for literals of this table.
    pub fn new(alloc: Global, occurs: Flags) -> Result<Index, AllocError>
        ensures { IfOk result (λ i. i ≡ record { occurs = occurs; has_empty = false; lists = replicate (length occurs) [] }) }
    {
        let places = occurs.len();
        let mut lists = Vec::with_capacity(alloc, places)?;
        for _ in 0..places {
            lists.push(Items::new(alloc))?;
        }
        Ok(Index {
            occurs,
            has_empty: false,
            lists,
        })
    }

    /// Whether an empty clause was added.
    pub fn has_empty(&self) -> bool
        ensures { result ≡ self.now.has_empty }
    {
        self.has_empty
    }

    /// The clauses that are listed under a literal.
    pub fn listed(&self, lit: Lit) -> &[Entry]
        requires { place_of lit < length self.now.lists }
        ensures { result.now ≡ slice_index_or self.now.lists (place_of lit) [] }
    {
        self.lists[lit.place()].as_slice()
    }

    /// Adds a clause with its number, unless one of its literals doesn't occur.
    pub fn add(&mut self, lits: &[Lit], number: usize) -> Result<(), AllocError>
        ensures { OnOk result (IsListed lits.now number self.old self.new) }
    {
        if !all_flagged(&self.occurs, lits) {
            return Ok(());
        }
        match rarest(self.lists.as_slice(), lits) {
            None => self.has_empty = true,
            Some(lit) => {
                let entry = Entry {
                    signature: signature(lits),
                    number,
                };
                self.lists[lit.place()].push(entry)?;
            }
        }
        Ok(())
    }
}

/// The literal with the shortest list. There is none where the clause is empty.
fn rarest(lists: &[Items<Entry>], lits: &[Lit]) -> Option<Lit>
    requires { All (λ l. place_of l < length lists.now) lits.now }
    ensures none { IfNone result (lits.now ≡ []) }
    ensures some { IfSome result (λ w. (has_literal lits.now w ≡ true) × (place_of w < length lists.now)) }
{
    let mut best = None;
    let mut shortest = usize::MAX;
    for lit in lits {
        let length = lists[lit.place()].len();
        if best.is_none() || length < shortest {
            best = Some(*lit);
            shortest = length;
        }
    }
    best
}
