//! The watched literals of each clause, and the clauses that watch each literal.
ghost use Rattle.std.specs.Prelude.{◌≡◌, ◌+◌, ◌*◌, ◌<◌, ◌≤◌, ◌++◌, ◌∷◌, [], length, slice_set, replicate, IfOk, OnOk};
ghost use Rattle.prv_cnf.specs.Places.{place_of};
ghost use Rattle.prv_propagate.specs.Watching.{Watching, watches_of, watch_at, without, removed, blocked, added, attached, rewatched};
ghost use Rattle.prv_propagate.specs.Guards.{pair_of};

use prv_cnf::{Lit, MAX_VARS};
use smallvec::SmallVec;
use std::alloc::{AllocError, Global};
use std::marker::Model;

/// The two literals of a clause that are watched.
#[derive(Clone, Copy, Debug)]
pub struct Pair {
    /// One of them.
    pub first: Lit,
    /// The other, which differs from it unless the clause has but one literal.
    pub second: Lit,
}

/// A clause in a watch list, and another literal of it: where that is true, the clause need not be
/// looked at.
#[derive(Clone, Copy, Debug, Default)]
pub struct Watch {
    /// The number of the clause.
    pub clause: u32,
    /// The other literal.
    pub blocker: Lit,
}

/// A list of watches.
#[derive(Debug, Drop)]
pub struct WatchList {
    /// The watches, in no order; up to two need no allocation.
    items: SmallVec<Watch, 2>,
}

impl Model for WatchList {
    ghost use Rattle.std.specs.Prelude.{List};
    ghost use Rattle.prv_propagate.specs.declared.watches.Watch.{Watch};

    ghost Value = { List Watch };

    ghost view = { λ w. w.items.items };
}

impl WatchList {
    fn new(alloc: Global) -> WatchList
        ensures { result ≡ [] }
    {
        WatchList {
            items: SmallVec::new(alloc),
        }
    }

    fn as_slice(&self) -> &[Watch]
        ensures { result.now ≡ self.now }
    {
        self.items.as_slice()
    }

    fn push(&mut self, watch: Watch) -> Result<(), AllocError>
        ensures { OnOk result (self.new ≡ self.old ++ watch ∷ []) }
    {
        self.items.push(watch)?;
        Ok(())
    }

    fn remove(&mut self, at: usize)
        requires { at < length self.old }
        ensures { self.new ≡ without self.old at }
    {
        let _ = self.items.swap_remove(at);
    }

    fn set_blocker(&mut self, at: usize, blocker: Lit)
        requires { at < length self.old }
        ensures { self.new ≡ slice_set self.old at (record { clause = (watch_at self.old at).clause; blocker = blocker }) }
    {
        let watches = self.items.as_mut_slice();
        let clause = watches[at].clause;
        watches[at] = Watch { clause, blocker };
    }
}

/// The pairs by clause, and the watch lists by literal.
#[derive(Debug, Drop)]
pub struct Watches {
    /// Under each clause's number the literals that it is watched by.
    pairs: Vec<Pair>,
    /// Under each literal the clauses that are looked at once it is false; some may be stale.
    lists: Vec<WatchList>,
}

impl Model for Watches {
    ghost use Rattle.prv_propagate.specs.Watching.{Watching};

    ghost Value = { Watching };

    ghost view = { λ w. record { pairs = w.pairs.items; lists = w.lists.items } };
}

impl Watches {
    /// No clauses, over so many variables.
    pub fn new(alloc: Global, vars: u32) -> Result<Watches, AllocError>
        requires { vars ≤ MAX_VARS }
        ensures { IfOk result (λ w. w ≡ record { pairs = []; lists = replicate (2 * vars + 1) [] }) }
    {
        let places = 2 * vars as usize + 1;
        let mut lists = Vec::with_capacity(alloc, places)?;
        for _ in 0..places {
            lists.push(WatchList::new(alloc))?;
        }
        Ok(Watches {
            pairs: Vec::new(alloc),
            lists,
        })
    }

    /// The watches under a literal.
    #[inline(always)]
    pub fn list(&self, lit: Lit) -> &[Watch]
        ensures { result.now ≡ watches_of self.now lit }
    {
        match self.lists.get(lit.place()) {
            Some(list) => list.as_slice(),
            None => &[],
        }
    }

    /// The pair of the clause with this number.
    #[inline(always)]
    pub fn pair(&self, clause: u32) -> Pair
        requires { clause < length self.now.pairs }
        ensures { result ≡ pair_of self.now.pairs clause }
    {
        self.pairs[clause as usize]
    }

    /// Adds the pair of the next clause, with a watch of the clause under each of its literals.
    pub fn attach(&mut self, clause: u32, pair: Pair) -> Result<(), AllocError>
        requires first { place_of pair.first < length self.old.lists }
        requires second { place_of pair.second < length self.old.lists }
        ensures { OnOk result (self.new ≡ attached self.old clause pair) }
    {
        self.pairs.push(pair)?;
        self.watch(pair.first, clause, pair.second)?;
        self.watch(pair.second, clause, pair.first)
    }

    /// Adds a watch of the clause under a literal.
    fn watch(&mut self, lit: Lit, clause: u32, blocker: Lit) -> Result<(), AllocError>
        requires { place_of lit < length self.old.lists }
        ensures { OnOk result (self.new ≡ added self.old lit clause blocker) }
    {
        self.lists[lit.place()].push(Watch { clause, blocker })?;
        Ok(())
    }

    /// Takes the watch at a place of the list under a literal out: the last of the list takes its
    /// place.
    pub fn remove(&mut self, lit: Lit, at: usize)
        requires lit { place_of lit < length self.old.lists }
        requires at { at < length (watches_of self.old lit) }
        ensures { self.new ≡ removed self.old lit at }
    {
        self.lists[lit.place()].remove(at);
    }

    /// Sets the blocker of the watch at a place of the list under a literal.
    pub fn set_blocker(&mut self, lit: Lit, at: usize, blocker: Lit)
        requires lit { place_of lit < length self.old.lists }
        requires at { at < length (watches_of self.old lit) }
        ensures { self.new ≡ blocked self.old lit at blocker }
    {
        self.lists[lit.place()].set_blocker(at, blocker);
    }

    /// Gives a clause another pair, whose first literal is new: the watch at a place of the list
    /// under a literal moves to the list under the new one.
    pub fn rewatch(
        &mut self,
        lit: Lit,
        at: usize,
        clause: u32,
        pair: Pair,
    ) -> Result<(), AllocError>
        requires lit { place_of lit < length self.old.lists }
        requires at { at < length (watches_of self.old lit) }
        requires first { place_of pair.first < length self.old.lists }
        requires clause { clause < length self.old.pairs }
        ensures { OnOk result (self.new ≡ rewatched self.old lit at clause pair) }
    {
        self.remove(lit, at);
        self.watch(pair.first, clause, pair.second)?;
        self.pairs[clause as usize] = pair;
        Ok(())
    }
}
