//! Sparse elimination: which rows depend on the rows before them.
#![tactic(auto)]

ghost use Rattle.std.specs.Prelude.{◌≡◌, ◌<◌, ◌≤◌, ◌^◌, IfOk, length};
ghost use Rattle.nichols_echelon.specs.Cells.{IsRow, AllBelow};
ghost use Rattle.nichols_echelon.specs.Combination.{AllRowsElements, AllRowsBelow, AreRows};
ghost use Rattle.nichols_echelon.specs.Parts.{AreParts, joined_rows};
ghost use Rattle.nichols_echelon.specs.Split.{IsSplit};

use crate::parts::Parts;
use nichols_field::Field;
use std::alloc::{AllocError, Global};

mod echelon;
mod flat;
pub mod laws;
mod numbering;
mod parts;
mod retrace;
mod rows;
mod split;
mod sums;
mod sweep;

pub use flat::Rows;
pub use rows::{Cell, Place, Row};
pub use sums::Sums;

/// Up to so many columns, and some more for each row, have an entry each in the tables of a sweep. Where the
/// last column is beyond them, those that occur are numbered first, so that the tables stay narrow.
const FEW: usize = 1 << 16;

/// How many more columns each row allows.
const MORE_PER_ROW: usize = 16;

/// Which rows depend on the rows before them: one place for each row, in their order.
///
/// The rows' coefficients are elements of the field, and there are fewer than 2^32 rows; their
/// columns may be any. The answer doesn't hang on how it was found: an independent row is no
/// combination of the rows before it, and the combination of any other row over the independent
/// rows before it is the only one. Columns are swept from the greatest down: a row whose last
/// column is that of no kept row is kept as it is, with nothing computed, and a sweep stops at the
/// first such column. Memory is taken in proportion to the cells of the rows and of what is left
/// of them, and to the columns up to `FEW`. `AllocError` says that it was refused, or that there
/// are 2^32 cells or more.
pub fn split_rows(alloc: Global, field: Field, rows: &[Row]) -> Result<Vec<Place>, AllocError>
    requires elements { AllRowsElements field rows.now }
    requires count { length rows.now < 2 ^ 32 }
    ensures { IfOk result (λ places. IsSplit field rows.now places.items) }
{
    let flat = flat_rows(alloc, rows)?;
    split_flat_rows(alloc, field, &flat)
}

/// The same for rows that stand one behind the other. None of them is copied where their last
/// column isn't beyond `FEW`, and `MORE_PER_ROW` more for each row.
pub fn split_flat_rows(alloc: Global, field: Field, rows: &Rows) -> Result<Vec<Place>, AllocError>
    requires shape { AreRows rows.now.rows }
    requires elements { AllRowsElements field rows.now.rows }
    requires count { length rows.now.rows < 2 ^ 32 }
    ensures { IfOk result (λ places. IsSplit field rows.now.rows places.items) }
{
    let _modulus = field.modulus();
    let width = width_of(rows);
    if width <= FEW + MORE_PER_ROW * rows.len() {
        return split_whole(alloc, field, rows, width);
    }
    let columns = numbering::occurring_columns(alloc, rows)?;
    let numbered = numbering::numbered_rows(alloc, columns.as_slice(), rows)?;
    split_whole(alloc, field, &numbered, columns.len())
}

/// The same where each column is below `width`.
fn split_whole(
    alloc: Global,
    field: Field,
    rows: &Rows,
    width: usize,
) -> Result<Vec<Place>, AllocError>
    requires shape { AreRows rows.now.rows }
    requires elements { AllRowsElements field rows.now.rows }
    requires below { AllRowsBelow width rows.now.rows }
    requires count { length rows.now.rows < 2 ^ 32 }
    requires short { width ≤ 2 ^ 32 }
    ensures { IfOk result (λ places. IsSplit field rows.now.rows places.items) }
{
    let parts = Parts::of(std::slice::from_ref(rows), &[0], rows.len());
    split::split_narrow(alloc, field, &parts, width)
}

/// The same for rows in parts: the k-th row is the k-th rows of all lists, one behind the other, where the columns of each list
/// stand behind as many others as its offset says. There are `count` rows, and each column, counted so, is below `width`.
///
/// No row is copied. Memory is taken in proportion to `width`, to the number of rows, and to the cells of what is left of them.
pub fn split_parts(
    alloc: Global,
    field: Field,
    lists: &[Rows],
    offsets: &[u32],
    count: usize,
    width: usize,
) -> Result<Vec<Place>, AllocError>
    requires parts { AreParts lists.now offsets.now count }
    requires shape { AreRows (joined_rows lists.now offsets.now count) }
    requires elements { AllRowsElements field (joined_rows lists.now offsets.now count) }
    requires below { AllRowsBelow width (joined_rows lists.now offsets.now count) }
    requires count { count < 2 ^ 32 }
    requires short { width ≤ 2 ^ 32 }
    ensures { IfOk result (λ places. IsSplit field (joined_rows lists.now offsets.now count) places.items) }
{
    let rows = Parts::of(lists, offsets, count);
    split::split_narrow(alloc, field, &rows, width)
}

/// The rows, one behind the other.
fn flat_rows(alloc: Global, rows: &[Row]) -> Result<Rows, AllocError>
    ensures rows { IfOk result (λ r. r.rows ≡ rows.now) }
    ensures shape { IfOk result (λ r. AreRows r.rows) }
{
    let mut flat = Rows::new(alloc);
    for row in rows {
        flat.push_row(row.cells())?;
    }
    Ok(flat)
}

/// One more than the last column of a row, or 0.
fn end_of(cells: &[Cell]) -> usize
    requires { IsRow cells.now }
    ensures below { AllBelow result cells.now }
    ensures short { result ≤ 2 ^ 32 }
{
    match cells.split_last() {
        Some((last, _)) => last.column as usize + 1,
        None => 0,
    }
}

/// One more than the greatest column, or 0.
fn width_of(rows: &Rows) -> usize
    requires { AreRows rows.now.rows }
    ensures below { AllRowsBelow result rows.now.rows }
    ensures short { result ≤ 2 ^ 32 }
{
    let mut width = 0;
    for k in 0..rows.len() {
        width = usize::max(width, end_of(rows.row(k)));
    }
    width
}
