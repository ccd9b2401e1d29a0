//! A source in memory that gives its bytes in chunks and fails where it is told to.

ghost use Rattle.std.specs.Prelude.{◌≡◌, ◌<◌, ◌≤◌, ◌↔◌, length, min, Contains, Some};
ghost use Rattle.nichols_io.specs.Counts.{Rose, following};
ghost use Rattle.nichols_io.specs.Source.{Reads, OnReadFailed, UnlessFailed, IfBytes};
ghost use Rattle.nichols_io.specs.Memory.{KeepsRest};

use crate::sources::{Got, Source};
use crate::steady_source::SteadySource;
use std::marker::Model;

/// Bytes in memory as a source that gives them in chunks and fails at chosen calls.
#[derive(Drop)]
pub struct MemorySource {
    bytes: SteadySource,
    chunk: usize,
    failing: Vec<u64>,
    calls: u64,
    faults: u64,
}

impl Model for MemorySource {
    ghost use Rattle.std.specs.Prelude.{◌<◌};
    ghost use Rattle.nichols_io.specs.Memory.{MemorySourceState};

    ghost Value = { MemorySourceState };

    ghost view = { λ s. record { left = s.bytes; chunk = s.chunk; failing = s.failing.items; calls = s.calls; faults = s.faults } };

    ghost invariant = { λ s. 0 < s.chunk };
}

impl MemorySource {
    /// A source of these bytes. A read gives at most `chunk` of them, and the call with number k, from 1, fails
    /// where k is in `failing`.
    pub fn new(bytes: Vec<u8>, chunk: usize, failing: Vec<u64>) -> MemorySource
        requires { 0 < chunk }
        ensures { result ≡ record { left = bytes.items; chunk = chunk; failing = failing.items; calls = 0; faults = 0 } }
    {
        MemorySource {
            bytes: SteadySource::new(bytes),
            chunk,
            failing,
            calls: 0,
            faults: 0,
        }
    }
}

impl Source for MemorySource {
    ghost left = { λ s. Some s.left };

    ghost faults = { λ s. s.faults };

    fn read(&mut self, buf: &mut [u8]) -> Got
        requires { 0 < length buf.old }
        ensures bytes { Reads result buf.new (Some self.old.left) (Some self.new.left) }
        ensures amount { IfBytes result (λ k. k ≡ min (min self.old.chunk (length self.old.left)) (length buf.old)) }
        ensures rest { KeepsRest result buf.old buf.new }
        ensures cause { OnReadFailed result (Rose self.old.faults self.new.faults) }
        ensures steady { UnlessFailed result (self.new.faults ≡ self.old.faults) }
        ensures count { self.old.faults ≤ self.new.faults }

        // The number of a call and the count of faults stay at the last value of a `u64`.
        ensures calls { self.new.calls ≡ following self.old.calls }
        ensures failed { (result ≡ Got.Failed) ↔ Contains self.old.failing self.new.calls }
        ensures faults { OnReadFailed result (self.new.faults ≡ following self.old.faults) }
        ensures settings { (self.new.chunk ≡ self.old.chunk) × (self.new.failing ≡ self.old.failing) }
    {
        self.calls = self.calls.saturating_add(1);
        if self.failing.contains(&self.calls) {
            self.faults = self.faults.saturating_add(1);
            return Got::Failed;
        }
        let most = self.chunk.min(buf.len());
        self.bytes.read(&mut buf[..most])
    }
}
