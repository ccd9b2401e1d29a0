//! A sink in memory that has room for so many bytes and fails where it is told to.

ghost use Rattle.std.specs.Prelude.{◌≡◌, ◌+◌, ◌<◌, ◌≤◌, ◌↔◌, ◌⊎◌, [], length, min, Contains, IfOk, Some};
ghost use Rattle.nichols_io.specs.Counts.{Rose, following};
ghost use Rattle.nichols_io.specs.Sink.{Writes, OnWriteFailed, IfTook};

use crate::sinks::{Put, Sink};
use std::alloc::{AllocError, Global};
use std::marker::Model;

/// A sink in memory with room for so many bytes, which fails at chosen calls.
#[derive(Drop)]
pub struct MemorySink {
    taken: Vec<u8>,
    room: usize,
    most: usize,
    failing: Vec<u64>,
    calls: u64,
    faults: u64,
}

impl Model for MemorySink {
    ghost use Rattle.std.specs.Prelude.{◌+◌, ◌<◌, ◌≤◌, length, vec_capacity};
    ghost use Rattle.nichols_io.specs.Memory.{MemorySinkState};

    ghost Value = { MemorySinkState };

    ghost view = { λ s. record { taken = s.taken.items; room = s.room; most = s.most; failing = s.failing.items; calls = s.calls; faults = s.faults } };

    ghost invariant = { λ s. (0 < s.most) × (length s.taken.items + s.room ≤ vec_capacity s.taken) };
}

impl MemorySink {
    /// An empty sink with memory for `room` bytes. A write takes at most `most` of them, and the call with number
    /// k, from 1, fails where k is in `failing` or no room is left.
    pub fn new(
        alloc: Global,
        room: usize,
        most: usize,
        failing: Vec<u64>,
    ) -> Result<MemorySink, AllocError>
        requires { 0 < most }
        ensures { IfOk result (λ sink. sink ≡ record { taken = []; room = room; most = most; failing = failing.items; calls = 0; faults = 0 }) }
    {
        Ok(MemorySink {
            taken: Vec::with_capacity(alloc, room)?,
            room,
            most,
            failing,
            calls: 0,
            faults: 0,
        })
    }

    /// The bytes taken so far, in order.
    pub fn taken(&self) -> &[u8]
        ensures { result.now ≡ self.now.taken }
    {
        self.taken.as_slice()
    }
}

impl Sink for MemorySink {
    ghost taken = { λ s. Some s.taken };

    ghost faults = { λ s. s.faults };

    fn write(&mut self, piece: &[u8]) -> Put
        requires { 0 < length piece.now }
        ensures bytes { Writes result piece.now (Some self.old.taken) (Some self.new.taken) }
        ensures amount { IfTook result (λ k. k ≡ min (min self.old.most self.old.room) (length piece.now)) }
        ensures cause { OnWriteFailed result (Rose self.old.faults self.new.faults) }
        ensures steady { IfTook result (λ _. self.new.faults ≡ self.old.faults) }
        ensures count { self.old.faults ≤ self.new.faults }

        // The number of a call and the count of faults stay at the last value of a `u64`.
        ensures calls { self.new.calls ≡ following self.old.calls }
        ensures failed { (result ≡ Put.Failed) ↔ (Contains self.old.failing self.new.calls ⊎ (self.old.room ≡ 0)) }
        ensures faults { OnWriteFailed result (self.new.faults ≡ following self.old.faults) }
        ensures room { length self.new.taken + self.new.room ≡ length self.old.taken + self.old.room }
        ensures settings { (self.new.most ≡ self.old.most) × (self.new.failing ≡ self.old.failing) }
    {
        self.calls = self.calls.saturating_add(1);
        if self.room == 0 || self.failing.contains(&self.calls) {
            self.faults = self.faults.saturating_add(1);
            return Put::Failed;
        }
        let count = self.most.min(self.room).min(piece.len());
        let front = piece.split_at(count).0;
        self.taken.extend_from_slice(front).unwrap();
        self.room -= count;
        Put::Took(count)
    }
}
