//! A sink in memory, for runs of a program whose output is looked at: it takes what there is room for, in order, and
//! fails the writes that it was told to fail and those for which nothing of its room is left.
ghost use Rattle.std.specs.Prelude.{◌≡◌, ◌↔◌, ◌≤◌, [], Some, IfOk, IsErr, IsTrue};
ghost use Rattle.prv_io.specs.FaultPlan.{fresh};
ghost use Rattle.prv_io.specs.MemSink.{count_of, write_fails, after_write};

use crate::{Failed, FaultPlan, Sink};
use std::alloc::{AllocError, Global};
use std::marker::Model;

/// A sink in memory, which tells what it has taken. It takes memory only when it is made.
#[derive(Debug, Drop)]
pub struct MemSink {
    // What it has taken.
    bytes: Vec<u8>,
    // How many bytes it can still take.
    room: u32,
    // The writes so far, and which of them are to fail.
    plan: FaultPlan,
}

impl Model for MemSink {
    ghost use Rattle.std.specs.Prelude.{◌+◌, ◌≤◌, vec_len, vec_capacity};
    ghost use Rattle.prv_io.specs.MemSink.{SinkInMemory};

    ghost Value = { SinkInMemory };

    ghost view = { λ s. record { room = s.room; taken = s.bytes.items; plan = s.plan } };

    ghost invariant = { λ s. vec_len s.bytes + s.room ≤ vec_capacity s.bytes };
}

impl MemSink {
    /// A sink that has taken nothing yet and has room for so many bytes. `fail` holds the numbers, from 1, of
    /// the writes that are to fail; so does each write for which there is no room.
    pub fn new(alloc: Global, room: u32, fail: Vec<u32>) -> Result<MemSink, AllocError>
        ensures { IfOk result (λ sink. sink ≡ record { room = room; taken = []; plan = fresh fail.items }) }
    {
        Ok(MemSink {
            bytes: Vec::with_capacity(alloc, room as usize)?,
            room,
            plan: FaultPlan::new(fail),
        })
    }

    /// The bytes that it has taken.
    pub fn bytes(&self) -> &[u8]
        ensures { result.now ≡ self.now.taken }
    {
        &self.bytes
    }

    /// How many writes have failed.
    pub fn faults(&self) -> u64
        ensures { result ≡ self.now.plan.faults }
    {
        self.plan.faults()
    }
}

impl Sink for MemSink {
    ghost faults = { λ s. s.plan.faults };

    ghost taken = { λ s. Some s.taken };

    fn write(&mut self, piece: &[u8]) -> Result<u32, Failed>
        ensures fails { IsErr result ↔ IsTrue (write_fails self.old piece.now) }
        ensures count { IfOk result (λ n. n ≡ count_of self.old piece.now) }
        ensures after { self.new ≡ after_write self.old piece.now }
        ensures never_falls { self.old.plan.faults ≤ self.new.plan.faults }
    {
        let is_full = self.room == 0 && !piece.is_empty();
        let fails = self.plan.is_to_fail() || is_full;
        self.plan.count_call(fails);
        if fails {
            return Err(Failed);
        }
        let count = piece.len().min(self.room as usize);
        self.bytes.extend_from_slice(&piece[..count]).unwrap();
        self.room -= count as u32;
        Ok(count as u32)
    }
}
