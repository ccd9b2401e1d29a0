//! Runs over memory, and what they write.

ghost use Rattle.std.specs.Prelude.{◌≡◌, ◌<◌};

mod algebras;
mod covers;
mod damage;
mod expressions;
mod faults;
mod keys;
mod plain;
mod points;
mod products;
mod refusals;
mod rows;
mod tables;
mod workers;

use crate::run;
use nichols_crew::{Gate, OpenGate};
use nichols_io::{MemorySink, MemorySource};
use std::alloc::{AllocError, Global};
use std::thread::Threads;

/// The three transpositions of three points, with a table of scalars.
pub(crate) const THREE: &str =
    "modulus = 101\nrack = [[1, 3, 2], [3, 2, 1], [2, 1, 3]]\ncocycle = [[-1, -1, -1], [-1, -1, -1], [-1, -1, -1]]\n";

/// The same with one scalar for every place.
pub(crate) const THREE_BY_A_CONSTANT: &str =
    "modulus = 101\nrack = [[1, 3, 2], [3, 2, 1], [2, 1, 3]]\ncocycle = -1\n";

/// The tetrahedron, over 101 elements.
pub(crate) const TETRAHEDRON: &str =
    "modulus = 101\nrack = [[1, 4, 2, 3], [3, 2, 4, 1], [4, 1, 3, 2], [2, 3, 1, 4]]\ncocycle = -1\n";

/// The tetrahedron, over 2 elements.
pub(crate) const TETRAHEDRON_TWO: &str =
    "modulus = 2\nrack = [[1, 4, 2, 3], [3, 2, 4, 1], [4, 1, 3, 2], [2, 3, 1, 4]]\ncocycle = 1\n";

/// The three transpositions of three points over four elements, with a primitive cube root of unity at every place.
pub(crate) const THREE_OVER_FOUR: &str =
    "modulus = 2\nextension = [1, 1]\nrack = [[1, 3, 2], [3, 2, 1], [2, 1, 3]]\ncocycle = [0, 1]\n";

/// The six transpositions of four points.
pub(crate) const SIX_TRANSPOSITIONS: &str =
    "modulus = 101\nrack = [[1, 4, 5, 2, 3, 6], [4, 2, 6, 1, 5, 3], [5, 6, 3, 4, 1, 2], [2, 1, 3, 4, 6, 5], [3, 2, 1, 6, 5, 4], [1, 3, 2, 5, 4, 6]]\ncocycle = -1\n";

/// The affine rack of five letters.
pub(crate) const AFFINE_FIVE: &str =
    "modulus = 101\nrack = [[1, 3, 5, 2, 4], [5, 2, 4, 1, 3], [4, 1, 3, 5, 2], [3, 5, 2, 4, 1], [2, 4, 1, 3, 5]]\ncocycle = -1\n";

/// The words of the report up to degree 2.
pub(crate) const UP_TO_TWO: &[&str] = &["algebra", "--degree", "2"];

/// The brief report of four points up to degree 3.
pub(crate) const FOUR_POINTS_TO_THREE: &str =
    "nichols p 101 letters 6 degree 3 rows 1024\ndegree 0 dimension 1\ndegree 1 dimension 6\ndegree 2 dimension 19\ndegree 3 dimension 42\nstopped degree limit last 3\nhilbert 1 6 19 42\n";

/// The degrees 0 to 4 of the three transpositions, with the scalar -1 over 101 elements.
pub(crate) const DEGREES: &str =
    "degree 0 dimension 1\nbasis e\ndegree 1 dimension 3\nbasis 1 2 3\ndegree 2 dimension 4\nbasis 1.2 1.3 2.1 2.3\nrelation 1.1 = 0\nrelation 2.2 = 0\nrelation 3.1 = 100*1.2 + 100*2.3\nrelation 3.2 = 100*1.3 + 100*2.1\nrelation 3.3 = 0\ndegree 3 dimension 3\nbasis 1.2.1 1.2.3 2.1.3\nrelation 1.2.2 = 0\nrelation 1.3.1 = 100*1.2.3\nrelation 1.3.2 = 100*1.2.1\nrelation 1.3.3 = 0\nrelation 2.1.1 = 0\nrelation 2.1.2 = 1*1.2.1\nrelation 2.3.1 = 100*1.2.1\nrelation 2.3.2 = 100*2.1.3\nrelation 2.3.3 = 0\ndegree 4 dimension 1\nbasis 1.2.1.3\nrelation 1.2.1.1 = 0\nrelation 1.2.1.2 = 0\nrelation 1.2.3.1 = 0\nrelation 1.2.3.2 = 100*1.2.1.3\nrelation 1.2.3.3 = 0\nrelation 2.1.3.1 = 100*1.2.1.3\nrelation 2.1.3.2 = 0\nrelation 2.1.3.3 = 0\n";

/// Degree 5, and the end.
pub(crate) const CLOSED: &str =
    "degree 5 dimension 0\nbasis\nrelation 1.2.1.3.1 = 0\nrelation 1.2.1.3.2 = 0\nrelation 1.2.1.3.3 = 0\nclosed top 4 dimension 12\nhilbert 1 3 4 3 1 0\nfactors 3 2 2\n";

/// The degrees of the three transpositions in brief, and the end.
pub(crate) const BRIEF: &str =
    "degree 0 dimension 1\ndegree 1 dimension 3\ndegree 2 dimension 4\ndegree 3 dimension 3\ndegree 4 dimension 1\ndegree 5 dimension 0\nclosed top 4 dimension 12\nhilbert 1 3 4 3 1 0\nfactors 3 2 2\n";

/// The words, the document, the pieces of the text and the status of a run.
pub(crate) type Row = (
    &'static [&'static str],
    &'static str,
    &'static [&'static str],
    u8,
);

/// A run: its words and its document, the reads and the writes that fail, the most bytes that a write takes, and the sink's room.
#[derive(Clone, Copy)]
pub(crate) struct Run<'a> {
    pub(crate) words: &'a [&'a str],
    pub(crate) document: &'a [u8],
    pub(crate) reads: &'a [u64],
    pub(crate) writes: &'a [u64],
    pub(crate) most: usize,
    pub(crate) room: usize,
}

impl<'a> Run<'a> {
    /// A run in which nothing fails.
    pub(crate) fn steady(words: &'a [&'a str], document: &'a [u8]) -> Run<'a>
        ensures { result.most ≡ 4096 }
    {
        Run {
            words,
            document,
            reads: &[],
            writes: &[],
            most: 4096,
            room: 1_048_576,
        }
    }
}

fn words_of(alloc: Global, line: &[&str]) -> Result<Vec<String>, AllocError> {
    let mut words = Vec::new(alloc);
    for word in line {
        words.push(String::from_str(alloc, word)?)?;
    }
    Ok(words)
}

/// What a run writes, and its status.
pub(crate) fn ran<R: Threads + Sync>(
    rt: &R,
    alloc: Global,
    given: Run,
) -> Result<(Vec<u8>, u8), AllocError>
    requires { 0 < given.most }
{
    ran_past(rt, alloc, given, &mut OpenGate::new())
}

/// The same with a gate.
pub(crate) fn ran_past<R: Threads + Sync, G: Gate + Sync>(
    rt: &R,
    alloc: Global,
    given: Run,
    gate: &mut G,
) -> Result<(Vec<u8>, u8), AllocError>
    requires { 0 < given.most }
{
    let words = words_of(alloc, given.words)?;
    let bytes = given.document.to_vec(alloc)?;
    let mut source = MemorySource::new(bytes, 16, given.reads.to_vec(alloc)?);
    let mut sink = MemorySink::new(alloc, given.room, given.most, given.writes.to_vec(alloc)?)?;
    let status = run(rt, alloc, words.as_slice(), &mut source, &mut sink, gate);
    Ok((sink.taken().to_vec(alloc)?, status))
}

/// Whether each run writes its pieces, with its status, whether or not a write takes them whole.
pub(crate) fn are_written<R: Threads + Sync>(
    rt: &R,
    alloc: Global,
    row: Row,
) -> Result<bool, AllocError> {
    let (words, document, pieces, status) = row;
    let mut text = Vec::new(alloc);
    for piece in pieces {
        text.extend_from_slice(piece.as_bytes())?;
    }
    for most in [4096, 5] {
        let given = Run {
            most,
            ..Run::steady(words, document.as_bytes())
        };
        let (written, ended) = ran(rt, alloc, given)?;
        if written.as_slice() != text.as_slice() || ended != status {
            return Ok(false);
        }
    }
    Ok(true)
}
