//! A source in memory that never fails.

ghost use Rattle.std.specs.Prelude.{◌≡◌, ◌≢◌, ◌+◌, ◌<◌, ◌≤◌, length, min, take, drop, Some};
ghost use Rattle.nichols_io.specs.Source.{Reads, IfBytes};
ghost use Rattle.nichols_io.specs.Memory.{KeepsRest};

use crate::sources::{Got, Source};
use std::marker::Model;

/// Bytes in memory as a source that never fails.
#[derive(Drop)]
pub struct SteadySource {
    bytes: Vec<u8>,
    at: usize,
}

impl Model for SteadySource {
    ghost use Rattle.std.specs.Prelude.{ℕ, ◌≤◌, List, length, drop};

    // The bytes left.
    ghost Value = { List ℕ };

    ghost view = { λ s. drop s.at s.bytes.items };

    ghost invariant = { λ s. s.at ≤ length s.bytes.items };
}

impl SteadySource {
    /// A source of these bytes.
    pub fn new(bytes: Vec<u8>) -> SteadySource
        ensures { result ≡ bytes.items }
    {
        SteadySource { bytes, at: 0 }
    }
}

impl Source for SteadySource {
    ghost left = { λ s. Some s };

    ghost faults = { λ _. 0 };

    fn read(&mut self, buf: &mut [u8]) -> Got
        requires { 0 < length buf.old }
        ensures bytes { Reads result buf.new (Some self.old) (Some self.new) }
        ensures amount { IfBytes result (λ k. k ≡ min (length self.old) (length buf.old)) }
        ensures unfailing { result ≢ Got.Failed }
        ensures rest { KeepsRest result buf.old buf.new }
    {
        let count = (self.bytes.len() - self.at).min(buf.len());
        if count == 0 {
            return Got::End;
        }
        copy_front(buf, self.bytes.as_slice(), self.at, count);
        self.at += count;
        Got::Bytes(count)
    }
}

/// Copies so many bytes from a place on to the front of a buffer.
fn copy_front(buf: &mut [u8], bytes: &[u8], at: usize, count: usize)
    requires room { count ≤ length buf.old }
    requires there { at + count ≤ length bytes.now }
    ensures front { take count buf.new ≡ take count (drop at bytes.now) }
    ensures rest { drop count buf.new ≡ drop count buf.old }
{
    buf[..count].copy_from_slice(&bytes[at..at + count]);
}
