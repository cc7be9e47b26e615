//! In which clauses each literal stands.
ghost use Rattle.std.specs.Prelude.{◌≡◌, ℕ, ◌+◌, ◌*◌, ◌<◌, ◌≤◌, ◌++◌, ◌∷◌, [], length, slice_index_or, slice_set, OnOk};
ghost use Rattle.std.specs.List.{AllByRecursion};
ghost use Rattle.prv_cnf.specs.Places.{place_of};
ghost use Rattle.prv_gate.specs.Occurrences.{occurrences_of, with_occurrence, with_occurrences};

use prv_cnf::Lit;
use smallvec::SmallVec;
use std::alloc::{AllocError, Global};
use std::marker::Model;

/// The numbers of some clauses.
#[derive(Drop)]
struct Numbers {
    /// Numbers of clauses, in the order in which they were entered; up to four need no allocation.
    items: SmallVec<u32, 4>,
}

impl Model for Numbers {
    ghost use Rattle.std.specs.Prelude.{ℕ, List};

    ghost Value = { List ℕ };

    ghost view = { λ n. n.items.items };
}

impl Numbers {
    fn new(alloc: Global) -> Numbers
        ensures { result ≡ [] }
    {
        Numbers {
            items: SmallVec::new(alloc),
        }
    }

    fn as_slice(&self) -> &[u32]
        ensures { result.now ≡ self.now }
    {
        self.items.as_slice()
    }

    fn push(&mut self, number: u32) -> Result<(), AllocError>
        ensures { OnOk result (self.new ≡ self.old ++ number ∷ []) }
    {
        self.items.push(number)?;
        Ok(())
    }
}

/// For each literal the numbers of the clauses that were entered under it, by the literal's place.
#[derive(Drop)]
pub(crate) struct Occurrences {
    /// For each literal, by its place, the clauses that hold it.
    lists: Vec<Numbers>,
}

impl Model for Occurrences {
    ghost use Rattle.std.specs.Prelude.{ℕ, List};

    ghost Value = { List (List ℕ) };

    ghost view = { λ o. o.lists.items };
}

impl Occurrences {
    /// No clauses, and room for no literals.
    pub(crate) fn new(alloc: Global) -> Occurrences
        ensures { result ≡ [] }
    {
        Occurrences {
            lists: Vec::new(alloc),
        }
    }

    /// The allocator from which the lists grow.
    pub(crate) fn alloc(&self) -> Global {
        *self.lists.allocator()
    }

    /// Forgets all clauses.
    pub(crate) fn clear(&mut self)
        ensures { self.new ≡ [] }
    {
        self.lists.clear();
    }

    /// Makes room for the literals of so many variables.
    pub(crate) fn widen(&mut self, vars: u32) -> Result<(), AllocError>
        ensures wide { OnOk result (2 * vars + 1 ≤ length self.new) }
        ensures same { OnOk result ((place : ℕ) → slice_index_or self.new place [] ≡ slice_index_or self.old place []) }
    {
        let alloc = self.alloc();
        for _ in self.lists.len()..2 * vars as usize + 1 {
            self.lists.push(Numbers::new(alloc))?;
        }
        Ok(())
    }

    /// The clauses under a literal.
    pub(crate) fn list(&self, lit: Lit) -> &[u32]
        ensures { result.now ≡ occurrences_of self.now lit }
    {
        match self.lists.get(lit.place()) {
            Some(list) => list.as_slice(),
            None => &[],
        }
    }

    /// Enters a clause under each of its literals.
    pub(crate) fn enter(&mut self, clause: u32, lits: &[Lit]) -> Result<(), AllocError>
        requires { AllByRecursion (λ l. place_of l < length self.old) lits.now }
        ensures { OnOk result (self.new ≡ with_occurrences clause lits.now self.old) }
    {
        for lit in lits {
            self.add(*lit, clause)?;
        }
        Ok(())
    }

    /// Enters a clause under a literal.
    fn add(&mut self, lit: Lit, clause: u32) -> Result<(), AllocError>
        requires { place_of lit < length self.old }
        ensures { OnOk result (self.new ≡ with_occurrence clause lit self.old) }
    {
        self.lists[lit.place()].push(clause)?;
        Ok(())
    }
}
