//! The table of a program's dependences: a row for each statement, by its number in text order.
//!
//! The rows are made by one walk over the tree, children before the statement's own row, which collects
//! theirs. To write a variable and to overwrite it are told apart: an `if` may write what is set inside it
//! and overwrites nothing, and only what is overwritten ends the need for the value that was there before.
ghost use Rattle.std.specs.Prelude.{◌≡◌, ◌<◌, ◌++◌, length, map, IfOk, OnOk};
ghost use Rattle.prv_model.specs.Numbers.{inside, statements, statements_all};
ghost use Rattle.prv_model.specs.declared.program.Program.{Program};
ghost use Rattle.prv_dep.specs.Dependences.{has, writes as writes_of, overwrites as overwrites_of, may_leave as may_leave_of};
ghost use Rattle.prv_dep.specs.Tables.{mask, reads as reads_of, row as row_of, row_at, dependences, statement, has_bit as has_bit_of};

use crate::expressions::{bit, may_fault, vars};
use prv_model::{Program, Stmt};
use sqlite_items::Items;
use std::alloc::{AllocError, Global};
use std::marker::Model;

/// What is kept of a statement, with a bit for each variable.
#[derive(Clone, Copy)]
pub struct Row {
    /// The variables that it, or a statement inside it, may write.
    pub writes: u64,
    /// The variables that it overwrites itself.
    pub overwrites: u64,
    /// The variables that its own expression reads.
    pub reads: u64,
    /// Whether it, or a statement inside it, may leave.
    pub leaves: bool,
}

/// What the statements of a program depend on, by their numbers in text order.
#[derive(Drop)]
pub struct Writes {
    /// The row of each statement, by its number.
    rows: Items<Row>,
}

impl Model for Writes {
    ghost use Rattle.std.specs.Prelude.{List};
    ghost use Rattle.prv_dep.specs.declared.writes.Row.{Row};

    ghost Value = { List Row };

    ghost view = { λ w. w.rows };
}

impl Writes {
    /// The dependences of a program.
    pub fn of(alloc: Global, program: &Program) -> Result<Writes, AllocError>
        ensures { IfOk result (λ w. w ≡ dependences program.now) }
    {
        let mut rows = Items::new(alloc);
        push_all(program.body.as_slice(), &mut rows)?;
        Ok(Writes { rows })
    }

    /// How many statements there are.
    pub fn len(&self) -> usize
        ensures { result ≡ length self.now }
    {
        self.rows.len()
    }

    /// What is kept of each statement, by its number.
    pub fn rows(&self) -> &[Row]
        ensures { result.now ≡ self.now }
    {
        self.rows.as_slice()
    }

    /// Whether a statement, or one inside it, may give this variable a value.
    pub fn may_write(&self, stmt: u32, var: u8) -> bool
        requires number { stmt < length self.now }
        requires variable { var < 64 }
        ensures { (p : Program) → self.now ≡ dependences p → result ≡ has (writes_of (statement p stmt)) var }
    {
        has_bit(self.row(stmt).writes, var)
    }

    /// Whether a statement itself, not one inside it, overwrites this variable: where it goes on, what the
    /// variable had before is of no account.
    ///
    /// What a statement overwrites it may write; the other way round is not so.
    pub fn overwrites(&self, stmt: u32, var: u8) -> bool
        requires number { stmt < length self.now }
        requires variable { var < 64 }
        ensures { (p : Program) → self.now ≡ dependences p → result ≡ has (overwrites_of (statement p stmt)) var }
    {
        has_bit(self.row(stmt).overwrites, var)
    }

    /// Whether a statement may put a word out, end the run, or not end: whether it or one inside it is a
    /// `return`, an `out`, an `assert` or a loop, or has an expression that may fault.
    pub fn may_leave(&self, stmt: u32) -> bool
        requires { stmt < length self.now }
        ensures { (p : Program) → self.now ≡ dependences p → result ≡ may_leave_of (statement p stmt) }
    {
        self.row(stmt).leaves
    }

    /// Whether a statement's own expression reads this variable.
    pub fn reads(&self, stmt: u32, var: u8) -> bool
        requires number { stmt < length self.now }
        requires variable { var < 64 }
        ensures { (p : Program) → self.now ≡ dependences p → result ≡ has (reads_of (statement p stmt)) var }
    {
        has_bit(self.row(stmt).reads, var)
    }

    /// The row of a statement.
    fn row(&self, stmt: u32) -> Row
        requires { stmt < length self.now }
        ensures { result ≡ row_at self.now stmt }
    {
        self.rows.as_slice()[stmt as usize]
    }
}

/// Whether a number has the bit of a variable.
fn has_bit(mask: u64, var: u8) -> bool
    requires { var < 64 }
    ensures { result ≡ has_bit_of mask var }
{
    (mask >> var) & 1 == 1
}

/// Adds the rows of the statements of a list, and answers what all of them may write and whether one may
/// leave.
#[cycle(rows)]
fn push_all(all: &[Stmt], rows: &mut Items<Row>) -> Result<Row, AllocError>
    ensures row { IfOk result (λ row. row ≡ row_of (Stmt.Block all.now)) }
    ensures grows { OnOk result (rows.new ≡ rows.old ++ map (λ s. row_of s) (statements_all all.now)) }
{
    let mut writes = 0;
    let mut leaves = false;
    for stmt in all {
        let row = push(stmt, rows)?;
        writes |= row.writes;
        leaves |= row.leaves;
    }
    Ok(plain(writes, 0, leaves))
}

/// Adds the rows of a statement and of those inside it, and answers its own.
#[cycle(rows)]
fn push(stmt: &Stmt, rows: &mut Items<Row>) -> Result<Row, AllocError>
    ensures row { IfOk result (λ row. row ≡ row_of stmt.now) }
    ensures grows { OnOk result (rows.new ≡ rows.old ++ map (λ s. row_of s) (statements stmt.now)) }
{
    let place = rows.len();
    rows.push(plain(0, 0, false))?;
    let row = push_inside(stmt, rows)?;
    rows.set(place, row);
    Ok(row)
}

/// Adds the rows of the statements inside a statement, and answers its own.
#[cycle(rows)]
fn push_inside(stmt: &Stmt, rows: &mut Items<Row>) -> Result<Row, AllocError>
    ensures row { IfOk result (λ row. row ≡ row_of stmt.now) }
    ensures grows { OnOk result (rows.new ≡ rows.old ++ map (λ s. row_of s) (inside stmt.now)) }
{
    match stmt {
        Stmt::Skip => Ok(plain(0, 0, false)),
        Stmt::Set { var, value } => Ok(Row {
            writes: bit(*var),
            overwrites: bit(*var),
            reads: vars(value),
            leaves: may_fault(value),
        }),
        Stmt::If { test, yes, no } => {
            let chosen = push(yes.get(), rows)?;
            match no {
                None => Ok(plain(chosen.writes, vars(test), may_fault(test) | chosen.leaves)),
                Some(branch) => {
                    let other = push(branch.get(), rows)?;
                    Ok(plain(
                        chosen.writes | other.writes,
                        vars(test),
                        may_fault(test) | (chosen.leaves | other.leaves),
                    ))
                }
            }
        }
        Stmt::While { test, body } => {
            let inner = push(body.get(), rows)?;
            Ok(plain(inner.writes, vars(test), true))
        }
        Stmt::Return(value) => Ok(plain(0, vars(value), true)),
        Stmt::Out(value) => Ok(plain(0, vars(value), true)),
        Stmt::Assert(value) => Ok(plain(0, vars(value), true)),
        Stmt::Block(all) => {
            let inner = push_all(all.as_slice(), rows)?;
            Ok(inner)
        }
        Stmt::Marked { mark: _, body } => {
            let inner = push(body.get(), rows)?;
            Ok(plain(inner.writes, 0, inner.leaves))
        }
    }
}

/// What is kept of a statement that overwrites nothing itself.
fn plain(writes: u64, reads: u64, leaves: bool) -> Row
    ensures { result ≡ record { writes = writes; overwrites = 0; reads = reads; leaves = leaves } }
{
    Row {
        writes,
        overwrites: 0,
        reads,
        leaves,
    }
}
