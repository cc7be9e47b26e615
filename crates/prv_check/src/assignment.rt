//! The literals that are true while a line is tested: a trail in the order in which they were made
//! true, and beside it a table of the literals that they make false, so that each test of a literal is
//! one look into the table.
ghost use Rattle.std.specs.Prelude.{◌≡◌, ◌<◌, ◌≤◌, ◌++◌, ◌∷◌, [], length, map, nat_eq, IfOk};
ghost use Rattle.prv_cnf.specs.Literals.{variable, negate, same_literal, has_literal};
ghost use Rattle.prv_check.specs.Propagation.{is_false};
ghost use Rattle.prv_check.specs.Inner.Assigned.{AreFalse};

use crate::flags::Flags;
use prv_cnf::{Lit, MAX_VARS};
use std::alloc::{AllocError, Global};
use std::marker::Model;

/// A set of true literals, as a trail and a table of the false ones.
#[derive(Debug, Drop)]
pub struct Assignment {
    /// How many variables the table has places for.
    vars: u32,
    /// How many literals the trail has room for.
    room: usize,
    /// The literals that the trail makes false, in a table by literal.
    falses: Flags,
    /// The true literals, in order.
    trail: Vec<Lit>,
}

impl Model for Assignment {
    ghost use Rattle.std.specs.Prelude.{◌≡◌, ◌+◌, ◌*◌, ◌≤◌, length};
    ghost use Rattle.std.specs.Vec.{vec_capacity};
    ghost use Rattle.prv_cnf.specs.declared.formula.TheConstants.{MAX_VARS};
    ghost use Rattle.prv_check.specs.Inner.Assigned.{Assigned, AreFalse};

    ghost Value = { Assigned };

    ghost view = { λ m. record { vars = m.vars; room = m.room; trail = m.trail.items } };

    ghost invariant = { λ m. AreFalse m.falses m.trail.items × (length m.falses ≡ 2 * m.vars + 1) × (m.vars ≤ MAX_VARS) × (m.room ≤ vec_capacity m.trail) };
}

impl Assignment {
    ghost use Rattle.prv_check.specs.Inner.Assigned.{Assigned};

    /// No literals, with a table for so many variables and room for so many literals.
    pub fn new(alloc: Global, vars: u32, room: usize) -> Result<Assignment, AllocError>
        requires { vars ≤ MAX_VARS }
        ensures { IfOk result (λ m. m ≡ record { vars = vars; room = room; trail = [] }) }
    {
        let falses = Flags::new(alloc, 2 * vars as usize + 1)?;
        let trail = Vec::with_capacity(alloc, room)?;
        Ok(Assignment {
            vars,
            room,
            falses,
            trail,
        })
    }

    /// The literals, in the order in which they were added.
    pub fn trail(&self) -> &[Lit]
        ensures { result.now ≡ self.now.trail }
    {
        self.trail.as_slice()
    }

    /// The table of the false literals: the rounds in which they were made false, and the round that
    /// counts.
    pub fn falses(&self) -> (&[u32], u32)
        ensures { AreFalse (map (nat_eq result.1) result.0.now) self.now.trail }
    {
        self.falses.rounds()
    }

    /// Whether the trail has the literal, which is of one of the variables.
    pub fn makes_true(&self, lit: Lit) -> bool
        requires { variable lit ≤ self.now.vars }
        ensures { result ≡ has_literal self.now.trail lit }
    {
        self.falses.has(lit.negated_place())
    }

    /// Whether the trail has the negation of the literal, which is of one of the variables.
    pub fn makes_false(&self, lit: Lit) -> bool
        requires { variable lit ≤ self.now.vars }
        ensures { result ≡ is_false self.now.trail lit }
    {
        self.falses.has(lit.place())
    }

    /// Adds the literal to the trail, which has room for it.
    pub fn add(&mut self, lit: Lit)
        requires { length self.old.trail < self.old.room }
        ensures { self.new ≡ record self.old { trail = self.old.trail ++ lit ∷ [] } }
    {
        self.trail.push(lit).unwrap();
        let at = lit.negated_place();
        if at < self.falses.len() {
            self.falses.set(at);
        }
    }

    /// Adds the literal's negation to the trail, which has room for it.
    pub fn add_negation(&mut self, lit: Lit)
        requires room { length self.old.trail < self.old.room }
        requires within { variable lit ≤ self.old.vars }
        ensures { self.new ≡ record self.old { trail = self.old.trail ++ negate lit ∷ [] } }
    {
        // What the assignment keeps bounds its variables, so that the negation fits.
        let _ = &self.vars;
        self.add(lit.negated());
    }

    /// Takes all literals back.
    pub fn clear(&mut self)
        ensures { self.new ≡ record self.old { trail = [] } }
    {
        self.falses.clear();
        self.trail.clear();
    }
}

/// Whether the trail makes the literal false: by the table of the rounds in which literals were made
/// false, or by a look through the trail where the table has no place for it.
pub fn is_false(rounds: &[u32], round: u32, trail: &[Lit], lit: Lit) -> bool
    requires { AreFalse (map (nat_eq round) rounds.now) trail.now }
    ensures { result ≡ is_false trail.now lit }
{
    let at = lit.place();
    if at < rounds.len() {
        rounds[at] == round
    } else {
        has_negation(trail, lit)
    }
}

/// Whether the literal's negation is among the literals.
#[cold]
#[inline(never)]
pub fn has_negation(lits: &[Lit], lit: Lit) -> bool
    ensures { result ≡ has_literal lits.now (negate lit) }
{
    lits.iter().any(|other| is_negation(lit, *other))
}

/// Whether the second literal is the negation of the first. That of `i32::MIN` fits no literal.
fn is_negation(lit: Lit, other: Lit) -> bool
    ensures { result ≡ same_literal (negate lit) other }
{
    -(lit.0 as i64) == other.0 as i64
}
