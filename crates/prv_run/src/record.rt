//! What a run tells of itself while it goes on.
//!
//! One interpreter serves both the plain run and the traced one: a recorder that is off takes no memory and
//! knows no numbers, and one that is on keeps each evaluation. Statements are numbered as they are met: the
//! number behind a statement is its own and how many statements it is, which the recorder has in a table.
ghost use Rattle.std.specs.Prelude.{◌≡◌, ◌+◌, [], ◌∷◌, OnOk, IfOk};
ghost use Rattle.prv_model.specs.Expressions.{value};
ghost use Rattle.prv_model.specs.Numbers.{statements};
ghost use Rattle.prv_model.specs.Programs.{stmt_count};
ghost use Rattle.prv_model.specs.declared.stmt.Stmt.{Stmt};
ghost use Rattle.prv_run.specs.Runs.{event as event_of};
ghost use Rattle.prv_run.specs.Telling.{tell, told_of, Knows, Agrees};

use crate::evaluate::evaluate;
use crate::event::{Event, What};
use prv_model::Expr;
use sqlite_items::{Items, at};
use std::alloc::{AllocError, Global};

/// What a run tells of itself: nothing, or each evaluation.
#[derive(Drop)]
pub enum Recorder {
    /// Nothing is kept.
    Off,
    /// Each evaluation is kept.
    On {
        /// How many statements each statement is, by its number.
        sizes: Items<usize>,
        /// The evaluations so far, in their order.
        events: Items<Event>,
    },
}

impl Recorder {
    /// Evaluates the expression of a statement, and tells it.
    pub fn evaluate(
        &mut self,
        number: u32,
        what: What,
        expr: &Expr,
        state: &[i32],
    ) -> Result<Option<i32>, AllocError>
        ensures value { IfOk result (λ v. v ≡ value expr.now state.now) }
        ensures told { OnOk result (self.new ≡ tell self.old (event_of number what (value expr.now state.now) ∷ [])) }
    {
        let value = evaluate(expr, state);
        match self {
            Recorder::Off => {}
            Recorder::On { sizes: _, events } => events.push(event(number, what, value))?,
        }
        Ok(value)
    }

    /// The number of the first statement inside the statement that has this number.
    pub fn inside(&self, number: u32) -> u32
        ensures { (s : Stmt) → Knows self.now number (statements s) → Agrees self.now result (number + 1) }
    {
        match self {
            Recorder::Off => 0,
            Recorder::On {
                sizes: _,
                events: _,
            } => number.saturating_add(1),
        }
    }

    /// The number of the first statement behind the statement that has this number.
    pub fn behind(&self, number: u32) -> u32
        ensures { (s : Stmt) → Knows self.now number (statements s) → Agrees self.now result (number + stmt_count s) }
    {
        match self {
            Recorder::Off => 0,
            Recorder::On { sizes, events: _ } => {
                let size = at(sizes.as_slice(), number as usize).copied().unwrap_or(0);
                number.saturating_add(u32::try_from(size).unwrap_or(u32::MAX))
            }
        }
    }

    /// The evaluations of which it was told, in order.
    pub fn into_events(self, alloc: Global) -> Items<Event>
        ensures { result ≡ told_of self }
    {
        match self {
            Recorder::Off => Items::new(alloc),
            Recorder::On { sizes: _, events } => events,
        }
    }
}

/// An evaluation as it is told.
fn event(number: u32, what: What, value: Option<i32>) -> Event
    ensures { result ≡ event_of number what value }
{
    match value {
        None => Event {
            stmt: number,
            what,
            value: 0,
            safe: false,
        },
        Some(n) => Event {
            stmt: number,
            what,
            value: n,
            safe: true,
        },
    }
}
