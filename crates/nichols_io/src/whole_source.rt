//! The reading of a whole source.

ghost use Rattle.std.specs.Prelude.{◌≡◌, ◌+◌, ◌≤◌, length, IfOk, Err};
ghost use Rattle.std.specs.Io.KnownBytes.{Consumes, IsAtEnd, Keeps};
ghost use Rattle.nichols_io.specs.Counts.{Rose};
ghost use Rattle.nichols_io.specs.Bytes.{TellsAlike, ConsumesExactly, ConsumesAtMost, IsLonger};

use crate::sources::{Got, Source};
use std::alloc::Global;

/// Why a source wasn't read to its end.
#[derive(Clone, Copy, PartialEq, Eq, Debug)]
pub enum ReadFault {
    /// The source failed.
    Failed,
    /// More bytes came than the limit.
    TooLong,
    /// There was no memory for the bytes that came.
    Memory,
}

/// Reads a source to its end, which has to come within `limit` bytes.
///
/// Reading stops with the byte after the limit: no further one is taken from the source.
pub fn read_all<S: Source>(
    alloc: Global,
    source: &mut S,
    limit: usize,
) -> Result<Vec<u8>, ReadFault>
    // What came is all that was left.
    ensures whole { IfOk result (λ all. Consumes (S.left source.old) (S.left source.new) all.items) }
    ensures end { IfOk result (λ _. IsAtEnd (S.left source.new)) }
    ensures within { IfOk result (λ all. length all.items ≤ limit) }
    ensures kept { IfOk result (λ _. S.faults source.new ≡ S.faults source.old) }

    // Each error, and what was taken from the source by then.
    ensures failed { result ≡ Err ReadFault.Failed → Rose (S.faults source.old) (S.faults source.new) }
    ensures failed_within { result ≡ Err ReadFault.Failed → ConsumesAtMost (S.left source.old) (S.left source.new) limit }
    // `last` is the source before the read that failed: no byte was taken since.
    ensures stopped { result ≡ Err ReadFault.Failed → (last : S) × (S.faults last ≡ S.faults source.old) × Keeps (S.left last) (S.left source.new) }
    ensures longer { result ≡ Err ReadFault.TooLong → IsLonger (S.left source.old) limit }
    ensures too_long { result ≡ Err ReadFault.TooLong → ConsumesExactly (S.left source.old) (S.left source.new) (limit + 1) }
    ensures kept_too_long { result ≡ Err ReadFault.TooLong → S.faults source.new ≡ S.faults source.old }
    ensures memory { result ≡ Err ReadFault.Memory → ConsumesAtMost (S.left source.old) (S.left source.new) (limit + 1) }
    ensures kept_memory { result ≡ Err ReadFault.Memory → S.faults source.new ≡ S.faults source.old }

    ensures told { TellsAlike (S.left source.old) (S.left source.new) }
    ensures count { S.faults source.old ≤ S.faults source.new }
{
    let mut all = Vec::new(alloc);
    let mut buffer = [0u8; 512];
    'reading: loop {
        // Room for the byte after the limit, and for none beyond it.
        let room = (limit - all.len()).min(buffer.len() - 1) + 1;
        match source.read(&mut buffer[..room]) {
            Got::Bytes(count) => {
                let (came, _) = buffer.split_at(count);
                if all.extend_from_slice(came).is_err() {
                    return Err(ReadFault::Memory);
                }
                if all.len() > limit {
                    return Err(ReadFault::TooLong);
                }
            }
            Got::End => return Ok(all),
            Got::Failed => return Err(ReadFault::Failed),
        }
    }
}
