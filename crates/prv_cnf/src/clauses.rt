//! Clauses: lists of literals, of which most are short and lie in the clause itself.
ghost use Rattle.std.specs.Prelude.{◌≡◌, IfOk};
ghost use Rattle.prv_cnf.specs.Models.{is_clause_true, values_of};

use crate::literal::Lit;
use smallvec::SmallVec;
use std::alloc::{AllocError, Global};
use std::marker::Model;

/// A clause: a list of literals, of which a model makes at least one true. The empty clause has no
/// model.
#[derive(Debug, Drop)]
pub struct Clause {
    /// The literals, in order; up to four need no allocation.
    lits: SmallVec<Lit, 4>,
}

impl Model for Clause {
    ghost use Rattle.std.specs.Prelude.{List};
    ghost use Rattle.prv_cnf.specs.declared.literal.Lit.{Lit};

    ghost Value = { List Lit };

    ghost view = { λ c. c.lits.items };
}

impl Clause {
    /// The clause of these literals in this order, whatever they are. Up to four take no memory.
    pub fn new(alloc: Global, lits: &[Lit]) -> Result<Clause, AllocError>
        ensures { IfOk result (λ c. c ≡ lits.now) }
    {
        let lits = SmallVec::from_slice(alloc, lits)?;
        Ok(Clause { lits })
    }

    /// The clause of these literals in this order, whatever they are. It takes no memory: the vector's
    /// is kept, or given back where the literals need none.
    pub fn from_vec(lits: Vec<Lit>) -> Clause
        ensures { result ≡ lits.items }
    {
        let lits = SmallVec::from_vec(lits);
        Clause { lits }
    }

    /// The literals, in order.
    pub fn lits(&self) -> &[Lit]
        ensures { result.now ≡ self.now }
    {
        self.lits.as_slice()
    }

    /// Whether some literal of the clause is true where variable k has the value `values[k - 1]`.
    pub fn is_true(&self, values: &[bool]) -> bool
        ensures { result ≡ is_clause_true (values_of values.now) self.now }
    {
        self.lits().iter().any(|lit| lit.is_true(values))
    }
}
