//! Sources of bytes.

ghost use Rattle.std.specs.Prelude.{◌≡◌, ◌<◌, ◌≤◌, ℕ, List, length};
ghost use Rattle.std.specs.declared.option.Option.{Option};
ghost use Rattle.nichols_io.specs.Counts.{Rose};
ghost use Rattle.nichols_io.specs.Bytes.{TellsAlike};
ghost use Rattle.nichols_io.specs.Source.{Reads, OnReadFailed, UnlessFailed};

/// What a read gave.
#[derive(Clone, Copy, PartialEq, Eq, Debug)]
pub enum Got {
    /// So many bytes came, at least one. They stand at the front of the buffer.
    Bytes(usize),
    /// Nothing is left.
    End,
    /// The source failed. The bytes that were left are left still.
    Failed,
}

/// A source of bytes.
pub trait Source {
    // The bytes left, where the source tells them.
    ghost left: { Self → Option (List ℕ) };

    // How often the source has failed, up to the last value of the source's counter.
    ghost faults: { Self → ℕ };

    /// Reads into the front of a buffer that isn't empty.
    fn read(&mut self, buf: &mut [u8]) -> Got
        requires { 0 < length buf.old }
        ensures bytes { Reads result buf.new (left self.old) (left self.new) }
        ensures told { TellsAlike (left self.old) (left self.new) }
        ensures cause { OnReadFailed result (Rose (faults self.old) (faults self.new)) }
        ensures steady { UnlessFailed result (faults self.new ≡ faults self.old) }
        ensures count { faults self.old ≤ faults self.new };
}
