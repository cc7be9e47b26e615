//! The variables that may be decided, by activity: a binary heap, with the place of each variable in
//! it. What it holds decides on speed alone, so each access tests its bounds.
use std::alloc::{AllocError, Global};

/// A heap of variables, in which none stands below one of less activity.
#[derive(Debug, Drop)]
pub struct Heap {
    /// The heap: the variables below place k stand at 2k + 1 and 2k + 2.
    vars: Vec<u32>,
    /// Under each variable its place in the heap, from 1, or 0.
    places: Vec<usize>,
    /// Under each variable how active it is.
    activity: Vec<f64>,
    /// What the next bump adds.
    bump: f64,
}

/// What a bump is worth after one conflict more.
const DECAY: f64 = 0.97;

/// Activities beyond this are scaled down, all alike.
const LARGE: f64 = 1e100;

/// No path in the heap is longer.
const DEPTH: u32 = 32;

impl Heap {
    /// The empty heap, for so many variables.
    pub fn new(alloc: Global, vars: u32) -> Result<Heap, AllocError> {
        let count = vars as usize + 1;
        Ok(Heap {
            vars: Vec::with_capacity(alloc, count)?,
            places: vec![in alloc; 0; count]?,
            activity: vec![in alloc; 0.0; count]?,
            bump: 1.0,
        })
    }

    /// How many variables there are.
    pub fn len(&self) -> usize {
        self.vars.len()
    }

    /// Whether a variable is there.
    pub fn holds(&self, var: u32) -> bool {
        self.place(var) > 0
    }

    /// Adds a variable that isn't there.
    pub fn insert(&mut self, var: u32) -> Result<(), AllocError> {
        if self.place(var) == 0 {
            self.vars.push(var)?;
            let last = self.vars.len().saturating_sub(1);
            self.set(last, var);
            self.rise(last);
        }
        Ok(())
    }

    /// Takes the most active variable out.
    pub fn pop(&mut self) -> Option<u32> {
        let first = self.var(0);
        let last = self.vars.pop()?;
        if let Some(place) = self.places.get_mut(first as usize) {
            *place = 0;
        }
        if !self.vars.is_empty() {
            self.set(0, last);
            self.sink();
        }
        Some(first)
    }

    /// Makes a variable more active.
    pub fn bump(&mut self, var: u32) {
        let active = self.active(var) + self.bump;
        if let Some(activity) = self.activity.get_mut(var as usize) {
            *activity = active;
        }
        if active > LARGE {
            self.rescale();
        }
        let place = self.place(var);
        if place > 0 {
            self.rise(place - 1);
        }
    }

    /// Makes what was bumped before count less.
    pub fn decay(&mut self) {
        self.bump = self.bump / DECAY;
    }

    fn rescale(&mut self) {
        for activity in self.activity.iter_mut() {
            *activity = *activity / LARGE;
        }
        self.bump = self.bump / LARGE;
    }

    fn active(&self, var: u32) -> f64 {
        self.activity.get(var as usize).copied().unwrap_or(0.0)
    }

    /// The variable at a place, or 0 past the end.
    fn var(&self, place: usize) -> u32 {
        self.vars.get(place).copied().unwrap_or(0)
    }

    /// The place of a variable, from 1, or 0 where it isn't there.
    fn place(&self, var: u32) -> usize {
        self.places.get(var as usize).copied().unwrap_or(0)
    }

    /// Puts a variable at a place of the heap.
    fn set(&mut self, place: usize, var: u32) {
        if let Some(slot) = self.vars.get_mut(place) {
            *slot = var;
        }
        if let Some(slot) = self.places.get_mut(var as usize) {
            *slot = place.wrapping_add(1);
        }
    }

    /// Moves the variable at a place up.
    fn rise(&mut self, from: usize) {
        let var = self.var(from);
        let active = self.active(var);
        let mut place = from;
        for _ in 0..DEPTH {
            if place == 0 {
                break;
            }
            let above = (place - 1) / 2;
            let other = self.var(above);
            if self.active(other) >= active {
                break;
            }
            self.set(place, other);
            place = above;
        }
        self.set(place, var);
    }

    /// Moves the variable at the top down.
    fn sink(&mut self) {
        let var = self.var(0);
        let active = self.active(var);
        let mut place = 0usize;
        for _ in 0..DEPTH {
            let below = self.below(place);
            if below >= self.vars.len() {
                break;
            }
            let other = self.var(below);
            if active >= self.active(other) {
                break;
            }
            self.set(place, other);
            place = below;
        }
        self.set(place, var);
    }

    /// The place below a place with the more active variable.
    fn below(&self, place: usize) -> usize {
        let left = place.wrapping_mul(2).wrapping_add(1);
        let right = left.wrapping_add(1);
        if right < self.vars.len() && self.active(self.var(right)) > self.active(self.var(left)) {
            right
        } else {
            left
        }
    }
}
