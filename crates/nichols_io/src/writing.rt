//! The writing of a whole piece.

ghost use Rattle.std.specs.Prelude.{◌≡◌, ◌≤◌, [], IsTrue};
ghost use Rattle.std.specs.Bool.{OnTrue, OnFalse};
ghost use Rattle.std.specs.Io.KnownBytes.{Appends, Keeps};
ghost use Rattle.nichols_io.specs.Counts.{Rose};
ghost use Rattle.nichols_io.specs.Bytes.{TellsAlike, AppendsProperPrefix};

use crate::sinks::{Put, Sink};

/// Writes a whole piece, in as many writes as the sink needs. It answers whether all of it was taken.
///
/// An empty piece makes no write.
pub fn put_all<K: Sink>(sink: &mut K, piece: &[u8]) -> bool
    ensures whole { OnTrue result (Appends (K.taken sink.old) (K.taken sink.new) piece.now) }
    ensures kept { OnTrue result (K.faults sink.new ≡ K.faults sink.old) }
    ensures prefix { OnFalse result (AppendsProperPrefix (K.taken sink.old) (K.taken sink.new) piece.now) }
    ensures cause { OnFalse result (Rose (K.faults sink.old) (K.faults sink.new)) }
    // `last` is the sink before the write that failed: it took no byte since.
    ensures stopped { OnFalse result ((last : K) × (K.faults last ≡ K.faults sink.old) × Keeps (K.taken last) (K.taken sink.new)) }

    ensures count { K.faults sink.old ≤ K.faults sink.new }
    ensures told { TellsAlike (K.taken sink.old) (K.taken sink.new) }
    ensures empty_put { piece.now ≡ [] → IsTrue result }
    ensures empty_kept { piece.now ≡ [] → sink.new ≡ sink.old }
{
    let mut rest = piece;
    while !rest.is_empty() {
        match sink.write(rest) {
            Put::Took(count) => rest = rest.split_at(count).1,
            Put::Failed => return false,
        }
    }
    true
}
