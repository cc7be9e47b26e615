//! Unit propagation: each clause is examined once more when one of its literals became false.
ghost use Rattle.std.specs.Prelude.{◌≡◌, ℕ, ◌<◌, ◌≤◌, true, false, None, length, IfOk, OnOk};
ghost use Rattle.std.specs.List.{AllByRecursion};
ghost use Rattle.prv_cnf.specs.Formulas.{IsLiteral};
ghost use Rattle.prv_gate.specs.Knowledge.{known_literal};
ghost use Rattle.prv_gate.specs.Propagation.{has_conflict};
ghost use Rattle.prv_gate.specs.Examining.{examined, known_by, learned, Learns};
ghost use Rattle.prv_gate.specs.Occurrences.{AreEntered, ArePending, IsOpen};

use crate::occurrences::Occurrences;
use prv_cnf::{Clause, Lit, MAX_VARS};
use std::alloc::AllocError;

/// What a clause says, where some of its literals are known.
#[derive(Clone, Copy, Debug)]
pub(crate) enum Examined {
    /// A literal is true, or two different ones aren't known.
    Open,
    /// All literals but this one are false.
    Forces(Lit),
    /// All literals are false.
    Conflict,
}

/// The value that is known of a literal.
pub(crate) fn value_of(known: &[Option<bool>], lit: Lit) -> Option<bool>
    ensures { result ≡ known_literal known.now lit }
{
    let index = (lit.variable() as usize).saturating_sub(1);
    let value = known.get(index).copied().unwrap_or(None)?;
    Some(if lit.0 < 0 { !value } else { value })
}

/// What the clause of these literals says.
fn examine(known: &[Option<bool>], lits: &[Lit]) -> Examined
    ensures { result ≡ examined known.now None lits.now }
{
    let mut found = None;
    for lit in lits {
        match value_of(known, *lit) {
            Some(true) => return Examined::Open,
            Some(false) => {}
            None => match found {
                None => found = Some(*lit),
                Some(other) => {
                    if other != *lit {
                        return Examined::Open;
                    }
                }
            },
        }
    }
    match found {
        None => Examined::Conflict,
        Some(lit) => Examined::Forces(lit),
    }
}

/// Examines a clause, and makes known what it forces.
fn visit(known: &mut [Option<bool>], lits: &[Lit]) -> Examined
    requires { AllByRecursion (IsLiteral (length known.old)) lits.now }
    ensures value { result ≡ examined known.old None lits.now }
    ensures known { known.new ≡ known_by known.old (examined known.old None lits.now) }
{
    let examined = examine(known, lits);
    if let Examined::Forces(lit) = examined {
        learn(known, lit);
    }
    examined
}

/// Makes the literal known to be true.
fn learn(known: &mut [Option<bool>], lit: Lit)
    requires { IsLiteral (length known.old) lit }
    ensures { known.new ≡ learned known.old lit }
{
    known[lit.variable() as usize - 1] = Some(lit.0 >= 0);
}

/// Examines the clauses that are pending, and those in which a literal became false, until none is left:
/// then all that follows from the clauses and from what is known is known. It answers false where the
/// clauses contradict it.
pub(crate) fn propagate(
    clauses: &[Clause],
    occurrences: &Occurrences,
    known: &mut [Option<bool>],
    mut pending: Vec<u32>,
) -> Result<bool, AllocError>
    requires vars { length known.old ≤ MAX_VARS }
    requires literals { AllByRecursion (AllByRecursion (IsLiteral (length known.old))) clauses.now }
    requires entered { AreEntered clauses.now (length clauses.now) occurrences.now }
    requires pending { ArePending clauses.now known.old pending.items }
    ensures learns { OnOk result (Learns (record { vars = length known.old; clauses = clauses.now }) known.old known.new) }
    ensures open { IfOk result (λ calm. calm ≡ true → (k : ℕ) → k < length clauses.now → IsOpen clauses.now known.new k) }
    ensures conflict { IfOk result (λ calm. calm ≡ false → has_conflict clauses.now known.new ≡ true) }
{
    while let Some(number) = pending.pop() {
        match visit(known, clauses[number as usize].lits()) {
            Examined::Open => {}
            Examined::Forces(lit) => pending.extend_from_slice(occurrences.list(lit.negated()))?,
            Examined::Conflict => return Ok(false),
        }
    }
    Ok(true)
}
