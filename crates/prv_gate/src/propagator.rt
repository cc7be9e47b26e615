//! What is known of the variables, and how it grows as clauses are added.
ghost use Rattle.std.specs.Prelude.{◌≡◌, ℕ, ◌<◌, ◌≤◌, true, false, [], length, IfOk, OnOk, OnErr};
ghost use Rattle.std.specs.List.{AllByRecursion};
ghost use Rattle.prv_cnf.specs.Formulas.{IsLiteral};
ghost use Rattle.prv_gate.specs.Propagation.{closure, has_conflict};
ghost use Rattle.prv_cnf.specs.Places.{place_of};
ghost use Rattle.prv_gate.specs.Occurrences.{is_listed, AreEntered, AreOpen};

use crate::occurrences::Occurrences;
use crate::propagate::propagate;
use prv_cnf::{Clause, MAX_VARS};
use std::alloc::{AllocError, Global};

/// What is known of the variables: all that follows from the first clauses.
#[derive(Drop)]
pub(crate) struct Propagator {
    /// For each variable the value that is known of it, if one is.
    known: Vec<Option<bool>>,
    /// The clauses in which a literal stands.
    occurrences: Occurrences,
    /// How many clauses were entered. All that follows from them is known.
    entered: u32,
}

impl Propagator {
    /// Nothing is known, and no clause was entered.
    pub(crate) fn new(alloc: Global) -> Propagator
        ensures known { result.known.items ≡ [] }
        ensures lists { result.occurrences ≡ [] }
        ensures entered { result.entered ≡ 0 }
    {
        Propagator {
            known: Vec::new(alloc),
            occurrences: Occurrences::new(alloc),
            entered: 0,
        }
    }

    /// The allocator from which it grows.
    pub(crate) fn alloc(&self) -> Global {
        *self.known.allocator()
    }

    /// What is known of each variable, that of variable k at k - 1.
    pub(crate) fn known(&self) -> &[Option<bool>]
        ensures { result.now ≡ self.now.known.items }
    {
        self.known.as_slice()
    }

    /// Forgets all.
    pub(crate) fn clear(&mut self)
        ensures known { self.new.known.items ≡ [] }
        ensures lists { self.new.occurrences ≡ [] }
        ensures entered { self.new.entered ≡ 0 }
    {
        self.known.clear();
        self.occurrences.clear();
        self.entered = 0;
    }

    /// Makes known all that follows from the clauses, of which those that were entered are the first. It
    /// answers false where the clauses contradict each other; then, and for want of memory, it forgets all.
    pub(crate) fn propagate(&mut self, vars: u32, clauses: &[Clause]) -> Result<bool, AllocError>
        requires literals { AllByRecursion (AllByRecursion (IsLiteral vars)) clauses.now }
        requires bound { vars ≤ MAX_VARS }
        requires size { length self.old.known.items ≤ vars }
        requires open { AreOpen clauses.now self.old.known.items self.old.entered self.old.occurrences }
        ensures open { AreOpen clauses.now self.new.known.items self.new.entered self.new.occurrences }
        ensures calm { IfOk result (λ calm. calm ≡ true → has_conflict clauses.now (closure (record { vars = vars; clauses = clauses.now }) self.old.known.items) ≡ false) }
        ensures closure { IfOk result (λ calm. calm ≡ true → self.new.known.items ≡ closure (record { vars = vars; clauses = clauses.now }) self.old.known.items) }
        ensures conflict { IfOk result (λ calm. calm ≡ false → has_conflict clauses.now (closure (record { vars = vars; clauses = clauses.now }) self.old.known.items) ≡ true) }
        ensures forgets { IfOk result (λ calm. calm ≡ false → self.new.known.items ≡ []) }
        ensures refused { OnErr result (self.new.known.items ≡ []) }
    {
        match self.follow(vars, clauses) {
            Ok(true) => Ok(true),
            Ok(false) => {
                self.clear();
                Ok(false)
            }
            Err(e) => {
                self.clear();
                Err(e)
            }
        }
    }

    /// Enters the clauses that are new, and makes known what follows.
    fn follow(&mut self, vars: u32, clauses: &[Clause]) -> Result<bool, AllocError>
        requires literals { AllByRecursion (AllByRecursion (IsLiteral vars)) clauses.now }
        requires bound { vars ≤ MAX_VARS }
        requires size { length self.old.known.items ≤ vars }
        requires open { AreOpen clauses.now self.old.known.items self.old.entered self.old.occurrences }
        ensures open { IfOk result (λ calm. calm ≡ true → AreOpen clauses.now self.new.known.items self.new.entered self.new.occurrences) }
        ensures calm { IfOk result (λ calm. calm ≡ true → has_conflict clauses.now (closure (record { vars = vars; clauses = clauses.now }) self.old.known.items) ≡ false) }
        ensures closure { IfOk result (λ calm. calm ≡ true → self.new.known.items ≡ closure (record { vars = vars; clauses = clauses.now }) self.old.known.items) }
        ensures conflict { IfOk result (λ calm. calm ≡ false → has_conflict clauses.now (closure (record { vars = vars; clauses = clauses.now }) self.old.known.items) ≡ true) }
    {
        let count = count_of(clauses)?;
        self.known.resize(vars as usize, None)?;
        self.occurrences.widen(vars)?;
        let pending = enter(&mut self.occurrences, clauses, self.entered, count)?;
        self.entered = count;
        let known = self.known.as_mut_slice();
        let calm = propagate(clauses, &self.occurrences, known, pending)?;
        Ok(calm)
    }
}

/// How many clauses there are. A count past 32 bits is want of memory.
fn count_of(clauses: &[Clause]) -> Result<u32, AllocError>
    ensures { IfOk result (λ n. n ≡ length clauses.now) }
{
    match u32::try_from(clauses.len()) {
        Ok(count) => Ok(count),
        Err(_) => Err(AllocError),
    }
}

/// Enters the clauses from one number to another, and answers their numbers.
fn enter(
    occurrences: &mut Occurrences,
    clauses: &[Clause],
    from: u32,
    to: u32,
) -> Result<Vec<u32>, AllocError>
    requires inside { AllByRecursion (AllByRecursion (λ l. place_of l < length occurrences.old)) clauses.now }
    requires entered { AreEntered clauses.now from occurrences.old }
    requires to { to ≡ length clauses.now }
    ensures entered { OnOk result (AreEntered clauses.now to occurrences.new) }
    ensures below { IfOk result (λ numbers. AllByRecursion (λ k. k < to) numbers.items) }
    ensures new { IfOk result (λ numbers. (k : ℕ) → k < to → is_listed k numbers.items ≡ false → k < from) }
{
    let mut numbers = Vec::new(occurrences.alloc());
    for number in from..to {
        occurrences.enter(number, clauses[number as usize].lits())?;
        numbers.push(number)?;
    }
    Ok(numbers)
}
