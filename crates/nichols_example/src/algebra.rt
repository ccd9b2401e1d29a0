//! An algebra from tables.

ghost use Rattle.std.specs.Prelude.{◌≡◌, false, IfOk};

use crate::failure::Failure;
use nichols_braid::{Braid, Entry, Scalars};
use nichols_field::Field;
use nichols_graded::Graded;
use std::alloc::{AllocError, Global};

/// The rows of the rack: the letter in row i and column j is `i ▷ j`. The letters are the transpositions of three points.
const ROWS: [[i64; 3]; 3] = [[1, 3, 2], [3, 2, 1], [2, 1, 3]];

/// No degree above this one is made.
pub const MOST_DEGREE: u32 = 12;

/// No degree is made in which a product has more candidates.
const MOST_ROWS: u32 = 1_024;

/// So many degrees are made in one call.
const WINDOW: u32 = 1;

/// The rows as a table.
fn table(alloc: Global) -> Result<Vec<Vec<i64>>, AllocError> {
    let mut rows = Vec::new(alloc);
    for row in ROWS {
        rows.push(row.to_vec(alloc)?)?;
    }
    Ok(rows)
}

/// The algebra of the three transpositions over 101 elements with the scalar -1, with degree 0 finished.
pub fn three_transpositions(alloc: Global) -> Result<Graded, Failure>
    ensures { IfOk result (λ g. g.ended ≡ false) }
{
    let field = Field::new(101).map_err(|_| Failure::Tables)?;
    let rack = table(alloc)?;
    let scalars = Scalars::Constant(Entry::Whole(-1));
    let braid = Braid::new(alloc, field, rack.as_slice(), &scalars)?;
    let graded = Graded::start(alloc, braid, MOST_DEGREE, MOST_ROWS, WINDOW)?;
    Ok(graded)
}
