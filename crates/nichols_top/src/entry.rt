//! The top call.

ghost use Rattle.std.specs.Prelude.{◌≡◌, ◌≢◌, ◌⊎◌, ◌≤◌, ◌+◌, ℕ, List, map, string_bytes, None, IfSome, IfOk, IsErr};
ghost use Rattle.std.specs.Io.KnownBytes.{IsAtEnd};
ghost use Rattle.nichols_io.specs.Bytes.{ConsumesAtMost, IsLonger};
ghost use Rattle.nichols_io.specs.Counts.{Rose};
ghost use Rattle.nichols_command.specs.Command.{command_of};
ghost use Rattle.nichols_crew.specs.Counting.{HasCounted};
ghost use Rattle.nichols_top.specs.Counted.{blocks_due};
ghost use Rattle.nichols_top.specs.Due.{due};
ghost use Rattle.nichols_top.specs.Ends.{IsLeft, EndsAs, IsComplete, IsChosen, IsReadFor};
ghost use Rattle.nichols_top.specs.Input.{document_limit, read_limit};
ghost use Rattle.nichols_top.specs.Report.{Report};
ghost use Rattle.nichols_top.specs.Status.{code};
ghost use Rattle.nichols_top.specs.Written.{IsStopped, sink_seen, writer_seen, Writes};

use crate::commands::put_command;
use crate::line::{put_line, put_refusal};
use crate::status::Status;
use crate::writer::{Break, Writer};
use nichols_command::{Command, command_of};
use nichols_crew::Gate;
use nichols_input::DOCUMENT_LIMIT;
use nichols_io::{ReadFault, Sink, Source, read_all};
use nichols_text::{Refusal, read_fault_line, usage_line};
use std::alloc::Global;
use std::thread::Threads;

/// Writes the report of a command to the sink, for the document that it reads from the source, and answers the status.
///
/// The words are those behind the program's name. The statuses: 0, the algebra closed and, under `cover`, the cover didn't stop, or the
/// command makes no algebra, and the whole report was taken; 1, the words aren't a command; 2, the document is refused; 3, a limit stopped
/// the algebra, or, under `cover`, the cover, and the whole report was taken; 4, the source failed; 5, the sink failed; 6, there was no memory. What was written is one
/// line after 1, 2 and 4; after 6 the pieces that were done, and the memory line; after 5 a part of what else would have
/// been written. The gate is told of the workers, and given the closed shelf of each wave.
pub fn run<R: Threads + Sync, S: Source, K: Sink, G: Gate + Sync>(
    rt: &R,
    alloc: Global,
    words: &[String],
    source: &mut S,
    sink: &mut K,
    gate: &mut G,
) -> u8
    // For one document, which is what the source had left, where it tells its bytes: what was written is the report that is due,
    // or the stated part of it; unless a count rose, the whole report was written and its status is answered, or there was no
    // memory; and where the whole report of an algebra was written, the gate has counted the blocks of all degrees from 1 on. Of a
    // sink that tells no bytes this speaks of the status and the counts.
    ensures report { (document : List ℕ) × IsLeft (S.left source.old) document
        × EndsAs (due (map string_bytes words.now) document) (Rose (S.faults source.old) (S.faults source.new)) (sink_seen K.taken K.faults sink.old) (sink_seen K.taken K.faults sink.new) result
        × (¬ Rose (S.faults source.old) (S.faults source.new) → ¬ Rose (K.faults sink.old) (K.faults sink.new) → IsComplete (due (map string_bytes words.now) document) (sink_seen K.taken K.faults sink.old) (sink_seen K.taken K.faults sink.new) result)
        × ((result ≡ code Status.Complete) ⊎ (result ≡ code Status.Stopped) → HasCounted (blocks_due (map string_bytes words.now) document) (G.count gate.old) (G.count gate.new)) }

    // What a status tells.
    ensures usage { command_of (map string_bytes words.now) ≡ None → (result ≡ code Status.Usage) ⊎ ((result ≡ code Status.WriteFault) ⊎ (result ≡ code Status.Memory)) }
    ensures usage_only { result ≡ code Status.Usage → command_of (map string_bytes words.now) ≡ None }
    ensures read_fault { result ≡ code Status.ReadFault → Rose (S.faults source.old) (S.faults source.new) }
    ensures write_fault { result ≡ code Status.WriteFault → Rose (K.faults sink.old) (K.faults sink.new) }
    ensures statuses { result ≤ code Status.Memory }

    // Nothing is written after a write that failed.
    ensures stopped { result ≡ code Status.WriteFault → IsStopped K.taken K.faults sink.old sink.new }

    // A count stays as it is, unless the status tells a fault.
    ensures sink_kept { result ≢ code Status.WriteFault → K.faults sink.new ≡ K.faults sink.old }
    ensures source_kept { result ≢ code Status.ReadFault → result ≢ code Status.WriteFault → S.faults source.new ≡ S.faults source.old }

    // What was read: nothing, or at most the longest document and one byte; with these statuses all of it.
    ensures unread { read_limit (map string_bytes words.now) ≡ None → source.new ≡ source.old }
    ensures taken { IfSome (read_limit (map string_bytes words.now)) (λ limit. ConsumesAtMost (S.left source.old) (S.left source.new) (limit + 1)) }
    ensures read_to_end { (result ≡ code Status.Complete) ⊎ (result ≡ code Status.Stopped) → IfSome (read_limit (map string_bytes words.now)) (λ _. IsAtEnd (S.left source.new)) }
    ensures refused_at_end { result ≡ code Status.Refused →
        IfSome (read_limit (map string_bytes words.now)) (λ limit. IsAtEnd (S.left source.new) ⊎ IsLonger (S.left source.old) limit) }
{
    let mut out = Writer::new(sink);
    let report = put_report(rt, alloc, words, source, &mut out, gate);
    out.conclude(report).code()
}

/// Writes the report of a command line and of the document that it asks for, or the line of a source that failed.
fn put_report<R: Threads + Sync, S: Source, K: Sink, G: Gate + Sync>(
    rt: &R,
    alloc: Global,
    words: &[String],
    source: &mut S,
    out: &mut Writer<'_, K>,
    gate: &mut G,
) -> Result<Status, Break>
    ensures same_sink { out.new.sink.ghost_name ≡ out.old.sink.ghost_name }
    ensures report { (document : List ℕ) × IsLeft (S.left source.old) document
        × ((report : Report) × IsChosen (due (map string_bytes words.now) document) (Rose (S.faults source.old) (S.faults source.new)) report
        × Writes report (writer_seen K.taken K.faults out.old) (writer_seen K.taken K.faults out.new) result
        × ((result ≡ Ok Status.Complete) ⊎ (result ≡ Ok Status.Stopped) → HasCounted (blocks_due (map string_bytes words.now) document) (G.count gate.old) (G.count gate.new))) }
    ensures usage { command_of (map string_bytes words.now) ≡ None → (result ≡ Ok Status.Usage) ⊎ IsErr result }
    ensures source_kept { ((result ≡ Ok Status.ReadFault) ⊎ (result ≡ Err Break.Fault)) ⊎ (S.faults source.new ≡ S.faults source.old) }
    ensures unread { read_limit (map string_bytes words.now) ≡ None → source.new ≡ source.old }
    ensures taken { IfSome (read_limit (map string_bytes words.now)) (λ limit. ConsumesAtMost (S.left source.old) (S.left source.new) (limit + 1)) }
    ensures read_to_end { IfSome (read_limit (map string_bytes words.now)) (λ limit. IfOk result (IsReadFor (S.left source.old) (S.left source.new) limit)) }
    ensures stopped { result ≡ Err Break.Fault → IsStopped K.taken K.faults out.old.sink.now out.new.sink.now }
{
    let Some(command) = command_of(alloc, words)? else {
        return put_line(usage_line(), Status::Usage, out);
    };
    let Some(limit) = document_limit(command) else {
        return put_command(rt, alloc, command, &[], out, gate);
    };
    match read_all(alloc, source, limit) {
        Ok(document) => put_command(rt, alloc, command, document.as_slice(), out, gate),
        Err(ReadFault::TooLong) => put_refusal(alloc, &Refusal::TooLong, out),
        Err(ReadFault::Failed) => put_line(read_fault_line(), Status::ReadFault, out),
        Err(ReadFault::Memory) => Err(Break::Memory),
    }
}

/// The most bytes of a command's document; without a limit nothing is read.
fn document_limit(command: Command) -> Option<usize>
    ensures { result ≡ document_limit command }
{
    match command {
        Command::OnDocument(_) => Some(DOCUMENT_LIMIT),
        Command::Points(_, _) => None,
    }
}
