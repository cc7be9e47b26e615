//! Where the statements of a program stand: which `if`s and marks are round each.
//!
//! The choice goes over a flat list of evaluations, and an evaluation names its statement alone. By this
//! table it knows the `if`s that an evaluation lies in, each by the next one outward, and the marks round it.
ghost use Rattle.std.specs.Prelude.{◌≡◌, ◌≤◌, ◌<◌, ◌^◌, ◌++◌, length, IfOk, OnOk};
ghost use Rattle.prv_select.specs.Places.{outside as outside_of, inner as inner_of, places_of, places_inside, places_all, place_at};

use crate::mark_set::MarkSet;
use prv_model::Stmt;
use sqlite_items::{Items, at};
use std::alloc::{AllocError, Global};

/// What is round an evaluation: the `if`s that it is a part of, and the marks.
///
/// The test of an `if` is a part of it, as its branches are.
#[derive(Clone, Copy)]
pub struct Scope {
    /// The number of the innermost of these `if`s; the next one outward is had from its own place.
    pub nearest: Option<usize>,
    /// How many `if`s there are.
    pub depth: usize,
    /// The marks of the marked statements round it.
    pub marks: MarkSet,
}

/// Where a statement stands.
#[derive(Clone, Copy)]
pub struct Place {
    /// What is round the statement.
    pub outer: Scope,
    /// What is round its own evaluation and the statements inside it.
    pub inner: Scope,
}

/// Where each statement of a program stands, by its number.
///
/// The time and the memory are in proportion to the size of the program.
pub fn places(alloc: Global, body: &[Stmt]) -> Result<Items<Place>, AllocError>
    ensures { IfOk result (λ places. places ≡ places_all body.now outside_of 0) }
{
    let mut places = Items::new(alloc);
    push_all(body, outside(), &mut places)?;
    Ok(places)
}

/// The place of the statement with this number; one that isn't there stands in nothing.
pub fn place_of(places: &[Place], stmt: usize) -> Place
    ensures { result ≡ place_at places.now stmt }
{
    match at(places, stmt).copied() {
        None => Place {
            outer: outside(),
            inner: outside(),
        },
        Some(place) => place,
    }
}

/// What is round the statements of `main`: nothing.
fn outside() -> Scope
    ensures { result ≡ outside_of }
{
    Scope {
        nearest: None,
        depth: 0,
        marks: MarkSet::none(),
    }
}

/// Adds the places of the statements of a list.
#[cycle(places)]
fn push_all(all: &[Stmt], outer: Scope, places: &mut Items<Place>) -> Result<(), AllocError>
    requires { outer.depth ≤ length places.old }
    ensures added { OnOk result (places.new ≡ places.old ++ places_all all.now outer (length places.old)) }
    ensures grows { length places.old ≤ length places.new }
{
    for stmt in all {
        push(stmt, outer, places)?;
    }
    Ok(())
}

/// Adds the places of a statement and of those inside it.
#[cycle(places)]
fn push(stmt: &Stmt, outer: Scope, places: &mut Items<Place>) -> Result<(), AllocError>
    requires { outer.depth ≤ length places.old }
    ensures added { OnOk result (places.new ≡ places.old ++ places_of stmt.now outer (length places.old)) }
    ensures grows { length places.old ≤ length places.new }
{
    let number = places.as_slice().len();
    let inner = inner(stmt, number, outer);
    places.push(Place { outer, inner })?;
    push_inside(stmt, inner, places)?;
    Ok(())
}

/// Adds the places of the statements inside a statement.
#[cycle(places)]
fn push_inside(stmt: &Stmt, inner: Scope, places: &mut Items<Place>) -> Result<(), AllocError>
    requires { inner.depth ≤ length places.old }
    ensures added { OnOk result (places.new ≡ places.old ++ places_inside stmt.now inner (length places.old)) }
    ensures grows { length places.old ≤ length places.new }
{
    match stmt {
        Stmt::If { test: _, yes, no } => {
            push(yes.get(), inner, places)?;
            match no {
                None => Ok(()),
                Some(branch) => {
                    push(branch.get(), inner, places)?;
                    Ok(())
                }
            }
        }
        Stmt::While { test: _, body } => {
            push(body.get(), inner, places)?;
            Ok(())
        }
        Stmt::Block(all) => {
            push_all(all.as_slice(), inner, places)?;
            Ok(())
        }
        Stmt::Marked { mark: _, body } => {
            push(body.get(), inner, places)?;
            Ok(())
        }
        _ => Ok(()),
    }
}

/// What is round the statements inside a statement.
fn inner(stmt: &Stmt, number: usize, outer: Scope) -> Scope
    requires { outer.depth < 2 ^ 63 }
    ensures { result ≡ inner_of stmt.now number outer }
{
    match stmt {
        Stmt::If {
            test: _,
            yes: _,
            no: _,
        } => Scope {
            nearest: Some(number),
            depth: outer.depth + 1,
            marks: outer.marks,
        },
        Stmt::Marked { mark, body: _ } => Scope {
            nearest: outer.nearest,
            depth: outer.depth,
            marks: outer.marks.or(MarkSet::one(*mark)),
        },
        _ => outer,
    }
}
