//! Which literal is decided next: inputs first where few are free, then by activity, with the sign
//! that a variable had last. Nothing that the solver promises depends on it.
ghost use Rattle.std.specs.Prelude.{◌≡◌, ◌<◌, length, true, false, not, ◌&&◌, nat_lt, nat_le, IfSome, OnSome};
ghost use Rattle.prv_cnf.specs.Literals.{has_literal};
ghost use Rattle.prv_check.specs.Propagation.{is_false};
ghost use Rattle.prv_check.specs.Lines.{is_within};
ghost use Rattle.prv_propagate.specs.Trails.{trues};

use crate::heap::Heap;
use prv_cnf::{Cnf, Lit};
use prv_propagate::{Step, Trail};
use std::alloc::{AllocError, Global};

/// At most so many free inputs are decided before other variables.
const FEW_INPUTS: usize = 10;

/// The order of decisions.
#[derive(Drop)]
pub struct Order {
    /// The variables that may be decided, by activity.
    pub heap: Heap,
    /// Under each variable whether it was last true.
    phases: Vec<bool>,
    /// The inputs that stand in clauses.
    inputs: Vec<u32>,
    /// Those of them that are free, where they are few.
    few: Vec<u32>,
    /// How many steps were on the trail when they were listed.
    listed_at: usize,
}

impl Order {
    /// The variables of the formula's clauses. Of the first so many those that stand in clauses are inputs.
    pub fn new(alloc: Global, cnf: &Cnf, inputs: u32) -> Result<Order, AllocError> {
        let mut heap = Heap::new(alloc, cnf.vars())?;
        for clause in cnf.clauses() {
            insert_all(&mut heap, clause.lits())?;
        }
        let inputs = used_inputs(alloc, &heap, inputs.min(cnf.vars()))?;
        Ok(Order {
            heap,
            phases: vec![in alloc; false; cnf.vars() as usize + 1]?,
            inputs,
            few: Vec::with_capacity(alloc, FEW_INPUTS)?,
            listed_at: usize::MAX,
        })
    }

    /// Makes the variables of a conflict more active.
    pub fn bump_all(&mut self, lits: &[Lit]) {
        for lit in lits {
            self.heap.bump(lit.variable());
        }
        self.heap.decay();
    }

    /// Gives the variables of these steps back, with their signs.
    pub fn release(&mut self, steps: &[Step]) -> Result<(), AllocError> {
        for step in steps {
            if let Some(phase) = self.phases.get_mut(step.lit.variable() as usize) {
                *phase = step.lit.0 > 0;
            }
            self.heap.insert(step.lit.variable())?;
        }
        Ok(())
    }

    /// Lists the inputs that are free where nothing is decided, where they are few.
    pub fn list_inputs(&mut self, trail: &Trail) -> Result<(), AllocError> {
        let fixed = trail.steps().len();
        if self.listed_at != fixed {
            self.listed_at = fixed;
            list_free(self.inputs.as_slice(), trail, &mut self.few)?;
        }
        Ok(())
    }

    /// The literal to decide next, of a free variable, if one is left.
    pub fn next(&mut self, trail: &Trail) -> Option<Lit>
        ensures free { IfSome result (λ l. (is_within trail.now.vars l ≡ true) × (has_literal (trues trail.now.steps) l ≡ false) × (is_false (trues trail.now.steps) l ≡ false)) }
    {
        for var in &self.few {
            let lit = signed(*var, &self.phases);
            if is_free(trail, lit) {
                return Some(lit);
            }
        }
        let count = self.heap.len();
        for _ in 0..count {
            let var = self.heap.pop()?;
            let lit = signed(var, &self.phases);
            if is_free(trail, lit) {
                return Some(lit);
            }
        }
        None
    }
}

/// Adds the variables of the literals to a heap.
fn insert_all(heap: &mut Heap, lits: &[Lit]) -> Result<(), AllocError> {
    for lit in lits {
        heap.insert(lit.variable())?;
    }
    Ok(())
}

/// Those of the first so many variables that a heap holds.
fn used_inputs(alloc: Global, heap: &Heap, count: u32) -> Result<Vec<u32>, AllocError> {
    let mut inputs = Vec::new(alloc);
    for before in 0..count {
        let var = before + 1;
        if heap.holds(var) {
            inputs.push(var)?;
        }
    }
    Ok(inputs)
}

/// The free ones of some inputs, or none where they are not few.
fn list_free(inputs: &[u32], trail: &Trail, few: &mut Vec<u32>) -> Result<(), AllocError> {
    few.clear();
    for var in inputs {
        if is_free(trail, positive(*var)) {
            if few.len() >= FEW_INPUTS {
                few.clear();
                return Ok(());
            }
            few.push(*var)?;
        }
    }
    Ok(())
}

/// The literal of a variable.
fn positive(var: u32) -> Lit {
    Lit((var & 0x3fff_ffff) as i32)
}

/// The literal of a variable with the sign that it had last.
fn signed(var: u32, phases: &Vec<bool>) -> Lit {
    let number = (var & 0x3fff_ffff) as i32;
    if phases.get(var as usize).copied().unwrap_or(false) {
        Lit(number)
    } else {
        Lit(-number)
    }
}

/// Whether a literal is of one of the variables, and neither true nor false.
fn is_free(trail: &Trail, lit: Lit) -> bool
    ensures { result ≡ (is_within trail.now.vars lit && (not (has_literal (trues trail.now.steps) lit) && not (is_false (trues trail.now.steps) lit))) }
{
    (lit.variable() > 0 && lit.variable() <= trail.vars())
        && (!trail.is_true(lit) && !trail.is_false(lit))
}
