//! The sweep over a row, from its last column down.

ghost use Rattle.std.specs.Prelude.{◌≡◌, ◌<◌, IfOk, ℕ, length};
ghost use Rattle.nichols_field.specs.Field.{IsElement, plus, times};
ghost use Rattle.nichols_echelon.specs.Cells.{AllElements, AllBelow, entry};
ghost use Rattle.nichols_echelon.specs.Combination.{row_at};
ghost use Rattle.nichols_echelon.specs.Echelon.{kept_row, kept_rows};
ghost use Rattle.nichols_echelon.specs.NextRow.{Holds};
ghost use Rattle.nichols_echelon.specs.Sums.{sum_at};
ghost use Rattle.nichols_echelon.specs.Sweep.{IsSwept};

use crate::echelon::Echelon;
use crate::parts::Parts;
use crate::rows::Cell;
use crate::sums::Sums;
use nichols_field::Field;
use std::alloc::{AllocError, Global};

/// The last sum that is left of a row, if one is, and the multiples of kept rows that were taken
/// out.
#[derive(Drop)]
pub(crate) struct Remainder {
    pub(crate) last: Option<Cell>,
    pub(crate) steps: Vec<Cell>,
}

/// Adds a multiple of what is kept of a row.
#[inline]
fn add_kept(
    field: Field,
    by: u32,
    rows: &Parts<'_>,
    echelon: &Echelon,
    position: usize,
    sums: &mut Sums,
)
    requires factor { IsElement field by }
    requires seen { position < length echelon.now.left.rows }
    requires inside { position < length rows.now }
    requires elements { AllElements field (kept_row (row_at rows.now position) (row_at echelon.now.left.rows position)) }
    requires below { AllBelow (length sums.old) (kept_row (row_at rows.now position) (row_at echelon.now.left.rows position)) }
    ensures value { (column : ℕ) → sum_at field sums.new column ≡ plus field (sum_at field sums.old column) (times field by (entry field (kept_row (row_at rows.now position) (row_at echelon.now.left.rows position)) column)) }
    ensures width { length sums.new ≡ length sums.old }
{
    let left = echelon.left.row(position);
    if left.is_empty() {
        rows.add(field, by, position, sums);
    } else {
        sums.add_scaled(field, by, left);
    }
}

/// Takes multiples of kept rows out of the sums, from the last column down, until one is reached
/// at which no kept row ends.
///
/// What stands before that column isn't looked at.
pub(crate) fn swept(
    alloc: Global,
    field: Field,
    rows: &Parts<'_>,
    echelon: &Echelon,
    sums: &mut Sums,
) -> Result<Remainder, AllocError>
    requires echelon { Holds field rows.now echelon.now }
    requires width { length sums.old ≡ length echelon.now.pivots.items }
    ensures swept { IfOk result (λ s. IsSwept field (kept_rows rows.now echelon.now.left.rows) echelon.now.pivots.items (length echelon.now.left.rows) sums.old sums.new s.last s.steps.items) }
    ensures width { length sums.new ≡ length sums.old }
{
    let _modulus = field.modulus();
    let mut steps = Vec::new(alloc);
    let mut end = sums.width();
    while let Some(cell) = sums.take_last(field, end) {
        let column = cell.column as usize;
        sums.put(field, column, cell.coefficient);
        match echelon.pivots[column] {
            None => {
                let last = Some(cell);
                return Ok(Remainder { last, steps });
            }
            Some(position) => {
                let factor = echelon.factors[position as usize];
                let by = field.mul(cell.coefficient, factor);
                add_kept(field, by, rows, echelon, position as usize, sums);
                let coefficient = field.neg(by);
                steps.push(Cell {
                    column: position,
                    coefficient,
                })?;
            }
        }
        end = column;
    }
    let last = None;
    Ok(Remainder { last, steps })
}
