//! A list of distinct names with an index by hash, so that whether a name is there, and its number, take the
//! time of one look-up.
ghost use Rattle.std.specs.Prelude.{◌≡◌, [], length, take, position, OnOk};
ghost use Rattle.std.specs.Str.{bytes_eq};
ghost use Rattle.prv_names.specs.Scopes.{has as has_name, add as add_name};

use indexmap::IndexSet;
use prv_model::Name;
use sqlite_items::Items;
use std::alloc::{AllocError, Global};
use std::marker::Model;

/// Names, each once, in the order in which they were added; a look-up takes the time of one hash.
///
/// There is room for fewer than 2^32 of them.
#[derive(Drop)]
pub struct Names {
    /// The bytes of each name, by a hash, in the order of the list.
    index: IndexSet<Vec<u8>>,
    /// The names in the order in which they were added.
    list: Vec<Name>,
}

impl Model for Names {
    ghost use Rattle.std.specs.Prelude.{◌≡◌, ◌<◌, ◌^◌, ℕ, List, length, map};
    ghost use Rattle.std.specs.Coded.{coded_list};

    ghost Value = { List (List ℕ) };

    ghost view = { λ n. n.list.items };

    ghost invariant = { λ n. (map (λ k. k.items) n.index.keys ≡ n.list.items) × (length n.list.items < 2 ^ 32) };
}

impl Names {
    pub fn new(alloc: Global) -> Names
        ensures { result ≡ [] }
    {
        Names {
            index: IndexSet::new(alloc),
            list: Vec::new(alloc),
        }
    }

    pub fn len(&self) -> u32
        ensures { result ≡ length self.now }
    {
        self.list.len() as u32
    }

    /// The number of a name: how many were added before it.
    pub fn number_of(&self, name: &Name) -> Option<usize>
        ensures { result ≡ position (bytes_eq name.now) self.now }
    {
        self.index.get_index_of(name.as_bytes())
    }

    pub fn has(&self, name: &Name) -> bool
        ensures { result ≡ has_name name.now self.now }
    {
        self.index.contains(name.as_bytes())
    }

    /// Adds a name, if it is not there yet.
    pub fn add(&mut self, alloc: Global, name: &Name) -> Result<(), AllocError>
        ensures { OnOk result (self.new ≡ add_name name.now self.old) }
    {
        if self.has(name) {
            return Ok(());
        }
        if self.list.len() >= 0xffff_ffff {
            return Err(AllocError);
        }
        let key = Vec::from_slice(alloc, name.as_bytes())?;
        self.list.push(name.copy(alloc)?)?;
        match self.index.insert(key) {
            Ok(_) => Ok(()),
            Err(_) => {
                let _ = self.list.pop();
                Err(AllocError)
            }
        }
    }

    /// Keeps the first n names.
    pub fn truncate(&mut self, n: usize)
        ensures { self.new ≡ take n self.old }
    {
        self.index.truncate(n);
        self.list.truncate(n);
    }

    pub fn into_items(self) -> Items<Name>
        ensures { result ≡ self }
    {
        Items::from_vec(self.list)
    }
}
