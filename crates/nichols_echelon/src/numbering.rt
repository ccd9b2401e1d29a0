//! Numbers for the columns that occur, so that tables over them are short.

ghost use Rattle.std.specs.Prelude.{◌≡◌, ◌<◌, ◌≤◌, ◌^◌, ◌++◌, ◌∷◌, [], IfOk, OnOk, ℕ, List, length, slice_index};
ghost use Rattle.std.specs.List.{Contains};
ghost use Rattle.std.specs.List.Sorted.{IsStrictlyIncreasing};
ghost use Rattle.nichols_echelon.specs.Cells.{Cell as PlainCell, columns_of};
ghost use Rattle.nichols_echelon.specs.Combination.{row_at};
ghost use Rattle.nichols_echelon.specs.Numbering.{AllListed, IsNumbered, AreNumbered};

use crate::flat::Rows;
use crate::rows::Cell;
use std::alloc::{AllocError, Global};

/// Adds the columns of the cells to a list.
fn add_columns(columns: &mut Vec<u32>, cells: &[Cell]) -> Result<(), AllocError>
    ensures { OnOk result (columns.new.items ≡ columns.old.items ++ columns_of cells.now) }
{
    for cell in cells {
        columns.push(cell.column)?;
    }
    Ok(())
}

/// The columns that occur in the rows, rising.
pub(crate) fn occurring_columns(alloc: Global, rows: &Rows) -> Result<Vec<u32>, AllocError>
    ensures rising { IfOk result (λ v. IsStrictlyIncreasing v.items) }
    ensures all { IfOk result (λ v. (k : ℕ) → k < length rows.now.rows → AllListed v.items (row_at rows.now.rows k)) }
{
    let mut columns = Vec::new(alloc);
    for k in 0..rows.len() {
        add_columns(&mut columns, rows.row(k))?;
    }
    columns.sort_unstable();
    columns.dedup();
    Ok(columns)
}

/// The number of a column among those that occur: how many of them are less.
fn number_of(columns: &[u32], column: u32) -> usize
    requires rising { IsStrictlyIncreasing columns.now }
    requires listed { Contains columns.now column }
    ensures inside { result < length columns.now }
    ensures number { slice_index columns.now result ≡ column }
{
    match columns.binary_search(&column) {
        Ok(place) => place,
        Err(_) => unreachable!(),
    }
}

/// Closes a row of the cells with their columns numbered.
fn push_numbered(columns: &[u32], cells: &[Cell], out: &mut Rows) -> Result<(), AllocError>
    requires rising { IsStrictlyIncreasing columns.now }
    requires listed { AllListed columns.now cells.now }
    requires begun { out.old.begun ≡ [] }
    ensures { OnOk result ((numbered : List PlainCell) × (out.new ≡ record { rows = out.old.rows ++ numbered ∷ []; begun = [] }) × IsNumbered columns.now cells.now numbered) }
{
    for cell in cells {
        let column = number_of(columns, cell.column) as u32;
        out.push_cell(Cell {
            column,
            coefficient: cell.coefficient,
        })?;
    }
    out.close()
}

/// The rows with their columns numbered.
pub(crate) fn numbered_rows(alloc: Global, columns: &[u32], rows: &Rows) -> Result<Rows, AllocError>
    requires rising { IsStrictlyIncreasing columns.now }
    requires listed { (k : ℕ) → k < length rows.now.rows → AllListed columns.now (row_at rows.now.rows k) }
    ensures numbered { IfOk result (λ r. AreNumbered columns.now rows.now.rows r.rows) }
    ensures short { IfOk result (λ _. length columns.now ≤ 2 ^ 32) }
{
    let mut numbered = Rows::new(alloc);
    for k in 0..rows.len() {
        push_numbered(columns, rows.row(k), &mut numbered)?;
    }
    Ok(numbered)
}
