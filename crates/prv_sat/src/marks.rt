//! The true literals that a conflict rests on, while it is analyzed.
ghost use Rattle.std.specs.Prelude.{◌≡◌, ◌≤◌, ◌&&◌, ◌||◌, not, nat_eq, slice_index_or, [], map, true, IfOk, OnOk};
ghost use Rattle.prv_cnf.specs.declared.literal.Lit.{Lit};
ghost use Rattle.prv_cnf.specs.Literals.{variable, negate, same_literal, has_literal};
ghost use Rattle.prv_check.specs.Lines.{no_repeat, is_within};
ghost use Rattle.std.specs.List.{list_all};
ghost use Rattle.prv_sat.specs.Analyses.{IsPartOf};
ghost use Rattle.prv_sat.specs.Marking.{Marking, marked_of};

use prv_cnf::{Lit, MAX_VARS};
use std::alloc::{AllocError, Global};
use std::marker::Model;

/// A literal that was never marked.
const FREE: u8 = 0;

/// A literal that is marked.
const MARKED: u8 = 1;

/// A literal whose mark was taken back.
const GONE: u8 = 2;

/// A set of literals: a list of those that were ever marked, and a table by literal that tells
/// which of them still are.
#[derive(Debug, Drop)]
pub struct Marks {
    /// How many variables the table has places for.
    vars: u32,
    /// Under each literal one of the three marks.
    table: Vec<u8>,
    /// The literals that were ever marked, each once.
    touched: Vec<Lit>,
}

impl Model for Marks {
    ghost use Rattle.prv_sat.specs.Marking.{Marking, marked_of, AreMarks};

    ghost Value = { Marking };

    ghost view = { λ m. record { vars = m.vars; marked = marked_of m.table.items m.touched.items } };

    ghost invariant = { λ m. AreMarks m.vars m.table.items m.touched.items };
}

impl Marks {
    /// No literals, with room for those of so many variables.
    pub fn new(alloc: Global, vars: u32) -> Result<Marks, AllocError>
        requires { vars ≤ MAX_VARS }
        ensures { IfOk result (λ m. m ≡ record { vars = vars; marked = [] }) }
    {
        Ok(Marks {
            vars,
            table: vec![in alloc; FREE; 2 * vars as usize + 1]?,
            touched: Vec::new(alloc),
        })
    }

    /// The literals that were marked since the marks were last cleared.
    pub fn touched(&self) -> &[Lit]
        ensures { IsPartOf self.now.marked result.now }
    {
        self.touched.as_slice()
    }

    /// Whether the literal is marked.
    #[inline(always)]
    pub fn has(&self, lit: Lit) -> bool
        ensures { result ≡ has_literal self.now.marked lit }
    {
        is_at(self.table.as_slice(), lit.place(), MARKED)
    }

    /// Whether the literal's negation is marked.
    #[inline(always)]
    pub fn has_negation(&self, lit: Lit) -> bool
        ensures { result ≡ has_literal self.now.marked (negate lit) }
    {
        is_at(self.table.as_slice(), lit.negated_place(), MARKED)
    }

    /// Marks a literal, and answers whether it was not marked.
    pub fn mark(&mut self, lit: Lit) -> Result<bool, AllocError>
        requires { is_within self.old.vars lit ≡ true }
        ensures marked { OnOk result ((x : Lit) → has_literal self.new.marked x ≡ (has_literal self.old.marked x || same_literal x lit)) }
        ensures vars { OnOk result (self.new.vars ≡ self.old.vars) }
    {
        if is_at(self.table.as_slice(), lit.place(), FREE) {
            self.touched.push(lit)?;
            self.table[lit.place()] = MARKED;
            return Ok(true);
        }
        let gone = is_at(self.table.as_slice(), lit.place(), GONE);
        self.table[lit.place()] = MARKED;
        Ok(gone)
    }

    /// Takes the mark of a marked literal back.
    pub fn unmark(&mut self, lit: Lit)
        requires { has_literal self.old.marked lit ≡ true }
        ensures marked { (x : Lit) → has_literal self.new.marked x ≡ (has_literal self.old.marked x && not (same_literal x lit)) }
        ensures vars { self.new.vars ≡ self.old.vars }
    {
        self.table[lit.place()] = GONE;
    }

    /// The negations of the marked literals, none of which is marked twice, in the order in which they
    /// were first marked.
    pub fn negations(&self, alloc: Global) -> Result<Vec<Lit>, AllocError>
        ensures lits { IfOk result (λ v. v.items ≡ map negate self.now.marked) }
        ensures once { no_repeat self.now.marked ≡ true }
        ensures within { list_all (is_within self.now.vars) self.now.marked ≡ true }
    {
        negations_of(
            alloc,
            self.vars,
            self.table.as_slice(),
            self.touched.as_slice(),
        )
    }

    /// Takes all marks back.
    pub fn clear(&mut self)
        ensures { self.new ≡ record self.old { marked = [] } }
    {
        while let Some(lit) = self.touched.pop() {
            self.table[lit.place()] = FREE;
        }
    }
}

/// Whether the table has this mark at the place. Past its end it is free.
#[inline(always)]
fn is_at(table: &[u8], place: usize, mark: u8) -> bool
    ensures { result ≡ nat_eq (slice_index_or table.now place 0) mark }
{
    table.get(place).copied().unwrap_or(FREE) == mark
}

/// The negations of the literals that are marked in the table.
fn negations_of(
    alloc: Global,
    vars: u32,
    table: &[u8],
    touched: &[Lit],
) -> Result<Vec<Lit>, AllocError>
    requires small { vars ≤ MAX_VARS }
    requires within { list_all (is_within vars) touched.now ≡ true }
    ensures { IfOk result (λ v. v.items ≡ map negate (marked_of table.now touched.now)) }
{
    let mut lits = Vec::new(alloc);
    for lit in touched {
        if is_at(table, lit.place(), MARKED) {
            lits.push(lit.negated())?;
        }
    }
    Ok(lits)
}
