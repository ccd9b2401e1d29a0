//! Reports of one line.

ghost use Rattle.std.specs.Prelude.{◌≡◌, ◌⊎◌, None, IfSome, IfOk};
ghost use Rattle.nichols_text.specs.Refusals.{refusal_line};
ghost use Rattle.nichols_top.specs.Report.{line_report};
ghost use Rattle.nichols_top.specs.Written.{IsStopped, writer_seen, Writes};

use crate::status::Status;
use crate::writer::{Break, Writer};
use nichols_io::Sink;
use nichols_text::{Refusal, refusal_text};
use std::alloc::Global;

/// Writes the line of a refusal. Want of memory is none, and has no line.
pub(crate) fn put_refusal<K: Sink>(
    alloc: Global,
    refusal: &Refusal,
    out: &mut Writer<'_, K>,
) -> Result<Status, Break>
    ensures same_sink { out.new.sink.ghost_name ≡ out.old.sink.ghost_name }
    ensures report { IfSome (refusal_line refusal.now) (λ line. Writes (line_report line Status.Refused) (writer_seen K.taken K.faults out.old) (writer_seen K.taken K.faults out.new) result) }
    ensures memory { refusal_line refusal.now ≡ None → (result ≡ Err Break.Memory) × (writer_seen K.taken K.faults out.new ≡ writer_seen K.taken K.faults out.old) }
    ensures status { IfOk result (λ s. s ≡ Status.Refused) }
    ensures stopped { result ≡ Err Break.Fault → IsStopped K.taken K.faults out.old.sink.now out.new.sink.now }
{
    let line = refusal_text(alloc, refusal)?;
    put_line(line.as_slice(), Status::Refused, out)
}

/// Writes a report of one line, and answers its status. The only break is that the sink failed.
pub(crate) fn put_line<K: Sink>(
    line: &[u8],
    status: Status,
    out: &mut Writer<'_, K>,
) -> Result<Status, Break>
    ensures same_sink { out.new.sink.ghost_name ≡ out.old.sink.ghost_name }
    ensures report { Writes (line_report line.now status) (writer_seen K.taken K.faults out.old) (writer_seen K.taken K.faults out.new) result }
    ensures answer { (result ≡ Ok status) ⊎ (result ≡ Err Break.Fault) }
    ensures stopped { result ≡ Err Break.Fault → IsStopped K.taken K.faults out.old.sink.now out.new.sink.now }
{
    out.put(line, None)?;
    Ok(status)
}
