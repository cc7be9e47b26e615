//! The literals that are true, in the order in which they became true, and beside them a table by
//! literal, so that each question takes one step.
ghost use Rattle.std.specs.Prelude.{◌≡◌, ℕ, ◌+◌, ◌*◌, ◌<◌, ◌≤◌, ◌++◌, ◌∷◌, [], take, length, count_by, true, false, IfOk, OnOk, IfNone, IfSome};
ghost use Rattle.prv_cnf.specs.Literals.{variable, has_literal};
ghost use Rattle.prv_check.specs.Lines.{is_within};
ghost use Rattle.prv_check.specs.Propagation.{is_false};
ghost use Rattle.prv_cnf.specs.Places.{place_of};
ghost use Rattle.prv_propagate.specs.Keeping.{IsRising, IsLevel, AreUnmarked};
ghost use Rattle.prv_propagate.specs.Trails.{Trailing, IsAssignment, IsDecision, IsCut, trues, step_at};

use prv_cnf::{Lit, MAX_VARS};
use std::alloc::{AllocError, Global};
use std::marker::Model;

/// The reason of a decision: the number of no clause.
pub const NO_REASON: u32 = u32::MAX;

/// A literal that became true, and the number of the clause that implied it, or [`NO_REASON`].
#[derive(Clone, Copy, Debug)]
pub struct Step {
    /// The literal.
    pub lit: Lit,
    /// The number of the clause, or [`NO_REASON`].
    pub reason: u32,
}

/// The true literals as a trail and a table, with the places of the decisions.
#[derive(Debug, Drop)]
pub struct Trail {
    /// How many variables there are.
    vars: u32,
    /// Under each literal whether it is true.
    table: Vec<bool>,
    /// The true literals with their reasons, in the order in which they became true.
    steps: Vec<Step>,
    /// The places of the decisions among the steps.
    limits: Vec<usize>,
    /// Under each variable where it was last put among the steps.
    positions: Vec<u32>,
}

impl Model for Trail {
    ghost use Rattle.prv_propagate.specs.Trails.{Trailing};

    ghost Value = { Trailing };

    ghost view = { λ t. record { vars = t.vars; steps = t.steps.items } };

    ghost use Rattle.std.specs.Prelude.{◌+◌, ◌*◌, ◌≤◌};
    ghost use Rattle.std.specs.Vec.{vec_capacity};
    ghost use Rattle.prv_propagate.specs.Keeping.{IsTrail};

    ghost invariant = { λ t. IsTrail t.vars t.table.items t.steps.items t.limits.items t.positions.items × (2 * t.vars + 1 ≤ vec_capacity t.steps) };
}

impl Trail {
    /// No true literals, over so many variables.
    pub fn new(alloc: Global, vars: u32) -> Result<Trail, AllocError>
        requires { vars ≤ MAX_VARS }
        ensures { IfOk result (λ t. t ≡ record { vars = vars; steps = [] }) }
    {
        let count = vars as usize;
        Ok(Trail {
            vars,
            table: vec![in alloc; false; 2 * count + 1]?,
            steps: Vec::with_capacity(alloc, 2 * count + 1)?,
            limits: Vec::with_capacity(alloc, count)?,
            positions: vec![in alloc; 0; count + 1]?,
        })
    }

    /// How many variables there are.
    pub fn vars(&self) -> u32
        ensures { result ≡ self.now.vars }
    {
        self.vars
    }

    /// The steps, in order.
    pub fn steps(&self) -> &[Step]
        ensures value { result.now ≡ self.now.steps }
        ensures assigned { IsAssignment self.now }
        ensures bound { length result.now ≤ 2 * self.now.vars + 1 }
        ensures small { self.now.vars ≤ MAX_VARS }
    {
        self.steps.as_slice()
    }

    /// Whether the literal is true.
    #[inline(always)]
    pub fn is_true(&self, lit: Lit) -> bool
        ensures { result ≡ has_literal (trues self.now.steps) lit }
    {
        self.table.get(lit.place()).copied().unwrap_or(false)
    }

    /// Whether the literal's negation is true.
    #[inline(always)]
    pub fn is_false(&self, lit: Lit) -> bool
        ensures { result ≡ is_false (trues self.now.steps) lit }
    {
        self.table
            .get(lit.negated_place())
            .copied()
            .unwrap_or(false)
    }

    /// Makes a literal true that the clause with this number implies.
    #[inline(always)]
    pub fn imply(&mut self, lit: Lit, reason: u32)
        requires within { is_within self.old.vars lit ≡ true }
        requires not_true { has_literal (trues self.old.steps) lit ≡ false }
        requires not_false { is_false (trues self.old.steps) lit ≡ false }
        requires reason { reason < NO_REASON }
        ensures { self.new ≡ record self.old { steps = self.old.steps ++ record { lit = lit; reason = reason } ∷ [] } }
    {
        self.table[lit.place()] = true;
        self.positions[lit.variable() as usize] = self.steps.len() as u32;
        self.steps.push(Step { lit, reason }).unwrap();
    }

    /// Makes a literal true that no clause implies. Want of memory leaves the trail as it was.
    pub fn decide(&mut self, lit: Lit) -> Result<(), AllocError>
        requires within { is_within self.old.vars lit ≡ true }
        requires not_true { has_literal (trues self.old.steps) lit ≡ false }
        requires not_false { is_false (trues self.old.steps) lit ≡ false }
        ensures { OnOk result (self.new ≡ record self.old { steps = self.old.steps ++ record { lit = lit; reason = NO_REASON } ∷ [] }) }
    {
        self.limits.push(self.steps.len())?;
        self.table[lit.place()] = true;
        self.positions[lit.variable() as usize] = self.steps.len() as u32;
        self.steps
            .push(Step {
                lit,
                reason: NO_REASON,
            })
            .unwrap();
        Ok(())
    }

    /// The place of a true literal among the steps.
    pub fn position(&self, lit: Lit) -> usize
        requires { has_literal (trues self.now.steps) lit ≡ true }
        ensures inside { result < length self.now.steps }
        ensures there { (step_at self.now.steps result).lit ≡ lit }
    {
        self.positions[lit.variable() as usize] as usize
    }

    /// Where the literal's variable was last put among the steps, which says nothing once it is free.
    #[inline(always)]
    pub fn last_position(&self, lit: Lit) -> u32
        ensures { (k : ℕ) → k < length self.now.steps → variable (step_at self.now.steps k).lit ≡ variable lit → result ≡ k }
    {
        self.positions
            .get(lit.variable() as usize)
            .copied()
            .unwrap_or(0)
    }

    /// The place of the last decision.
    pub fn last_decision(&self) -> Option<usize>
        ensures none { IfNone result ((p : ℕ) → p < length self.now.steps → IsDecision (step_at self.now.steps p) → ⊥) }
        ensures some { IfSome result (λ p. (p < length self.now.steps) × IsDecision (step_at self.now.steps p)) }
        ensures last { IfSome result (λ p. (q : ℕ) → q < length self.now.steps → IsDecision (step_at self.now.steps q) → q ≤ p) }
    {
        self.limits.last().copied()
    }

    /// How many steps a jump back leaves that keeps so many: those before the first decision after
    /// them.
    pub fn cut(&self, keep: usize) -> usize
        requires { keep ≤ length self.now.steps }
        ensures { IsCut self.now.steps keep result }
    {
        let level = level_at(self.limits.as_slice(), keep);
        if level < self.limits.len() {
            self.limits[level]
        } else {
            self.steps.len()
        }
    }

    /// Takes all but so many steps back.
    pub fn jump_back(&mut self, end: usize)
        requires { end ≤ length self.old.steps }
        ensures { self.new ≡ record self.old { steps = take end self.old.steps } }
    {
        let level = level_at(self.limits.as_slice(), end);
        self.limits.truncate(level);
        unmark(&mut self.table, &self.steps.as_slice()[end..]);
        self.steps.truncate(end);
    }
}

/// Takes the marks of the steps back.
fn unmark(table: &mut Vec<bool>, steps: &[Step])
    requires { (k : ℕ) → k < length steps.now → place_of (step_at steps.now k).lit < length table.old.items }
    ensures len { length table.new.items ≡ length table.old.items }
    ensures marks { AreUnmarked table.old.items steps.now table.new.items }
    ensures count { count_by (λ b. b) table.old.items ≤ count_by (λ b. b) table.new.items + length steps.now }
{
    for step in steps {
        table[step.lit.place()] = false;
    }
}

/// How many of the rising places are below this one.
fn level_at(limits: &[usize], place: usize) -> usize
    requires { IsRising limits.now }
    ensures { IsLevel limits.now place result }
{
    let mut level = limits.len();
    while level > 0 && limits[level - 1] >= place {
        level -= 1;
    }
    level
}
