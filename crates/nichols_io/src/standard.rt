//! The readers and writers of std as sources and sinks. As such they tell nothing of their bytes.

ghost use Rattle.std.specs.Prelude.{◌≡◌, ◌<◌, ◌≤◌, length, take, None, IfSome};
ghost use Rattle.std.specs.Io.KnownBytes.{Appends};
ghost use Rattle.nichols_io.specs.Counts.{Rose};
ghost use Rattle.nichols_io.specs.Source.{Reads, OnReadFailed, UnlessFailed};
ghost use Rattle.nichols_io.specs.Sink.{OnWriteFailed, IfTook};

use crate::sinks::{Put, Sink};
use crate::sources::{Got, Source};
use std::io::{Read, Write};

/// A reader of std as a source. A read of no bytes is the end, and each error of the reader a fault.
#[derive(Drop)]
pub struct StdSource<R: Read> {
    /// The reader underneath.
    inner: R,
    faults: u64,
}

impl<R: Read> StdSource<R> {
    /// A source of what the reader gives.
    pub fn new(inner: R) -> StdSource<R>
        ensures inner { result.inner ≡ inner }
        ensures fresh { result.faults ≡ 0 }
    {
        StdSource { inner, faults: 0 }
    }
}

impl<R: Read> Source for StdSource<R> {
    ghost left = { λ _. None };

    ghost faults = { λ s. s.faults };

    fn read(&mut self, buf: &mut [u8]) -> Got
        requires { 0 < length buf.old }
        // Where the reader tells its bytes, it is their source.
        ensures bytes { Reads result buf.new (R.remaining self.old.inner) (R.remaining self.new.inner) }
        ensures steady { UnlessFailed result (self.new.faults ≡ self.old.faults) }
        ensures cause { OnReadFailed result (Rose self.old.faults self.new.faults) }
        ensures count { self.old.faults ≤ self.new.faults }
    {
        match self.inner.read(buf) {
            Ok(0) => Got::End,
            Ok(count) => Got::Bytes(count),
            Err(_) => {
                self.faults = self.faults.saturating_add(1);
                Got::Failed
            }
        }
    }
}

/// A writer of std as a sink. It is flushed after each write that took something. Each error of a write or a
/// flush, and each write that took nothing, is a fault.
#[derive(Drop)]
pub struct StdSink<W: Write> {
    /// The writer underneath.
    inner: W,
    faults: u64,
}

impl<W: Write> StdSink<W> {
    /// A sink that hands on to the writer.
    pub fn new(inner: W) -> StdSink<W>
        ensures inner { result.inner ≡ inner }
        ensures fresh { result.faults ≡ 0 }
    {
        StdSink { inner, faults: 0 }
    }

    /// Hands the front of a piece on. It answers how much the writer took and flushed.
    fn hand_on(&mut self, piece: &[u8]) -> Option<usize>
        ensures some { IfSome result (λ k. (0 < k) × (k ≤ length piece.now)) }
        ensures bytes { IfSome result (λ k. Appends (W.contents self.old.inner) (W.contents self.new.inner) (take k piece.now)) }
        ensures faults { self.new.faults ≡ self.old.faults }
    {
        let count = self.inner.write(piece).ok()?;
        if count == 0 {
            return None;
        }
        self.inner.flush().ok()?;
        Some(count)
    }
}

impl<W: Write> Sink for StdSink<W> {
    ghost taken = { λ _. None };

    ghost faults = { λ s. s.faults };

    fn write(&mut self, piece: &[u8]) -> Put
        requires { 0 < length piece.now }
        ensures within { IfTook result (λ k. (0 < k) × (k ≤ length piece.now)) }
        // Where the writer tells its bytes, they grew by those taken.
        ensures bytes { IfTook result (λ k. Appends (W.contents self.old.inner) (W.contents self.new.inner) (take k piece.now)) }
        ensures steady { IfTook result (λ _. self.new.faults ≡ self.old.faults) }
        ensures cause { OnWriteFailed result (Rose self.old.faults self.new.faults) }
        ensures count { self.old.faults ≤ self.new.faults }
    {
        match self.hand_on(piece) {
            Some(count) => Put::Took(count),
            None => {
                self.faults = self.faults.saturating_add(1);
                Put::Failed
            }
        }
    }
}
