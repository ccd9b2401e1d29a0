//! A report as it is written to a sink.

ghost use Rattle.std.specs.Prelude.{◌≡◌, ◌≢◌, [], ◌∷◌};
ghost use Rattle.nichols_top.specs.Report.{piece};
ghost use Rattle.nichols_top.specs.Written.{IsStopped, writer_seen, Puts};
ghost use Rattle.nichols_top.specs.Conclusion.{Concludes};
ghost use Rattle.nichols_top.specs.declared.writer.Break.TheVariants.{Memory};

use crate::status::Status;
use nichols_io::{Sink, put_all};
use nichols_text::memory_line;
use std::alloc::AllocError;

/// Why a report breaks off.
#[derive(Clone, Copy, Debug, PartialEq, Eq)]
pub(crate) enum Break {
    /// The sink failed.
    Fault,
    /// There was no memory for the next piece.
    Memory,
}

impl From<AllocError> for Break {
    ghost from_gives = { λ _ cause. cause ≡ Memory };

    fn from(_error: AllocError) -> Break {
        Break::Memory
    }
}

/// A sink, with the degree of the last piece that it took and that prints one.
#[derive(Drop)]
pub(crate) struct Writer<'k, K: Sink> {
    pub(crate) sink: &'k mut K,
    pub(crate) last: Option<u32>,
}

impl<'k, K: Sink> Writer<'k, K> {
    /// A writer to a sink, before the first piece.
    pub(crate) fn new(sink: &'k mut K) -> Writer<'k, K>
        ensures same_sink { result.sink.ghost_name ≡ sink.entry.ghost_name }
        ensures sink { result.sink.now ≡ sink.old }
        ensures last { result.last ≡ None }
    {
        Writer { sink, last: None }
    }

    /// Writes a piece, with the degree that it prints, if any. The only break is that the sink failed.
    pub(crate) fn put(&mut self, text: &[u8], degree: Option<u32>) -> Result<(), Break>
        ensures same_sink { self.new.sink.ghost_name ≡ self.old.sink.ghost_name }
        ensures piece { Puts (piece text.now degree ∷ []) (writer_seen K.taken K.faults self.old) (writer_seen K.taken K.faults self.new) result }
        ensures cause { result ≢ Err Break.Memory }
        ensures stopped { result ≡ Err Break.Fault → IsStopped K.taken K.faults self.old.sink.now self.new.sink.now }
    {
        if !put_all(self.sink, text) {
            return Err(Break::Fault);
        }
        self.last = degree.or(self.last);
        Ok(())
    }

    /// Ends the report: writes the memory line, where there was no memory, and answers the status.
    pub(crate) fn conclude(&mut self, report: Result<Status, Break>) -> Status
        ensures same_sink { self.new.sink.ghost_name ≡ self.old.sink.ghost_name }
        ensures status { Concludes (writer_seen K.taken K.faults self.old) (writer_seen K.taken K.faults self.new) report result }
        ensures stopped { report ≡ Err Break.Memory → result ≡ Status.WriteFault → IsStopped K.taken K.faults self.old.sink.now self.new.sink.now }
    {
        match report {
            Ok(status) => status,
            Err(cause) => match cause {
                Break::Fault => Status::WriteFault,
                Break::Memory => self.put_memory(),
            },
        }
    }

    /// Writes the memory line, which names the last degree that was printed, and answers the status.
    fn put_memory(&mut self) -> Status
        ensures same_sink { self.new.sink.ghost_name ≡ self.old.sink.ghost_name }
        ensures status { Concludes (writer_seen K.taken K.faults self.old) (writer_seen K.taken K.faults self.new) (Err Break.Memory) result }
        ensures stopped { result ≡ Status.WriteFault → IsStopped K.taken K.faults self.old.sink.now self.new.sink.now }
    {
        match self.put(memory_line(self.last).bytes(), None) {
            Ok(()) => Status::Memory,
            Err(_) => Status::WriteFault,
        }
    }
}
