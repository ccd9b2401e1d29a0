//! Sinks for bytes.

ghost use Rattle.std.specs.Prelude.{◌≡◌, ◌<◌, ◌≤◌, ℕ, List, length};
ghost use Rattle.std.specs.declared.option.Option.{Option};
ghost use Rattle.nichols_io.specs.Counts.{Rose};
ghost use Rattle.nichols_io.specs.Bytes.{TellsAlike};
ghost use Rattle.nichols_io.specs.Sink.{Writes, OnWriteFailed, IfTook};

/// What a write took.
#[derive(Clone, Copy, PartialEq, Eq, Debug)]
pub enum Put {
    /// So many bytes were taken, at least one, from the front of the piece.
    Took(usize),
    /// The sink failed. Where it tells its bytes, it took none of the piece.
    Failed,
}

/// A sink for bytes.
pub trait Sink {
    // The bytes taken, where the sink tells them.
    ghost taken: { Self → Option (List ℕ) };

    // How often the sink has failed, up to the last value of the sink's counter.
    ghost faults: { Self → ℕ };

    /// Writes the front of a piece that isn't empty.
    fn write(&mut self, piece: &[u8]) -> Put
        requires { 0 < length piece.now }
        ensures bytes { Writes result piece.now (taken self.old) (taken self.new) }
        ensures told { TellsAlike (taken self.old) (taken self.new) }
        ensures cause { OnWriteFailed result (Rose (faults self.old) (faults self.new)) }
        ensures steady { IfTook result (λ _. faults self.new ≡ faults self.old) }
        ensures count { faults self.old ≤ faults self.new };
}
