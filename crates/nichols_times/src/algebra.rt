//! The algebra of the affine rack of five letters.

use nichols_braid::{Braid, Entry, Scalars};
use nichols_crew::OpenGate;
use nichols_field::Field;
use nichols_graded::Graded;
use std::alloc::{AllocError, Global};
use std::thread::Threads;

/// The rows of the rack: the letter in row i and column j is `i ▷ j`, with letters 1 to 5 for the numbers 0 to 4, and `2 j - i` modulo 5.
const RACK: [[i64; 5]; 5] = [
    [1, 3, 5, 2, 4],
    [5, 2, 4, 1, 3],
    [4, 1, 3, 5, 2],
    [3, 5, 2, 4, 1],
    [2, 4, 1, 3, 5],
];

/// The degree in which the algebra has no least word.
const LAST: u32 = 17;

/// More candidates than a product has in any of its degrees.
const ROWS: u32 = 1_024;

/// The rows as a table.
fn table(alloc: Global) -> Result<Vec<Vec<i64>>, AllocError> {
    let mut rows = Vec::new(alloc);
    for row in RACK {
        rows.push(row.to_vec(alloc)?)?;
    }
    Ok(rows)
}

/// The algebra over 101 elements with the scalar -1, all of its degrees made by one worker, one by one. `None` where it isn't closed.
pub fn affine_five<R: Threads + Sync>(rt: &R, alloc: Global) -> Result<Option<Graded>, AllocError> {
    let Ok(field) = Field::new(101) else {
        return Ok(None);
    };
    let rack = table(alloc)?;
    let scalars = Scalars::Constant(Entry::Whole(-1));
    let Ok(braid) = Braid::new(alloc, field, rack.as_slice(), &scalars) else {
        return Ok(None);
    };
    let mut graded = Graded::start(alloc, braid, LAST, ROWS, 1)?;
    let mut gate = OpenGate::new();
    for _degree in 0..LAST {
        if !graded.ended() {
            graded.advance(rt, alloc, 1, &mut gate)?;
        }
    }
    if graded.closed() {
        Ok(Some(graded))
    } else {
        Ok(None)
    }
}
