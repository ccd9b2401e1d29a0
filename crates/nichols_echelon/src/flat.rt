//! Rows of cells, one behind the other in a flat list.

ghost use Rattle.std.specs.Prelude.{◌≡◌, ◌<◌, ◌≤◌, ◌++◌, ◌∷◌, [], OnOk, OnErr, length, slice_index, slice_index_or};
ghost use Rattle.nichols_field.specs.Field.{IsElement};
ghost use Rattle.nichols_echelon.specs.Cells.{AllElements, multiple_of};
ghost use Rattle.nichols_echelon.specs.Rows.{RowsValue, IsStepped, rows_from};

use crate::rows::Cell;
use nichols_field::Field;
use std::alloc::{AllocError, Global};
use std::marker::Model;

/// The greatest number of cells.
const MOST: usize = u32::MAX as usize;

/// Closed rows of cells, and the cells of one open row behind them.
#[derive(Drop)]
pub struct Rows {
    ends: Vec<u32>,
    cells: Vec<Cell>,
}

impl Model for Rows {
    ghost use Rattle.std.specs.Prelude.{length};
    ghost use Rattle.nichols_echelon.specs.Rows.{RowsValue, IsStepped, rows_of};

    ghost Value = { RowsValue };

    ghost view = { λ r. rows_of r.ends.items r.cells.items };

    ghost invariant = { λ r. IsStepped 0 r.ends.items (length r.cells.items) };
}

/// Where a row begins, and where it ends.
fn ends_of(ends: &[u32], count: usize, k: usize) -> (usize, usize)
    requires place { k < length ends.now }
    requires stepped { IsStepped 0 ends.now count }
    ensures start { result.0 ≡ slice_index (0 ∷ ends.now) k }
    ensures end { result.1 ≡ slice_index ends.now k }
    ensures order { (result.0 ≤ result.1) × (result.1 ≤ count) }
{
    let start = if k == 0 { 0 } else { ends[k - 1] };
    (start as usize, ends[k] as usize)
}

/// The cells of a row.
fn part<'a>(ends: &[u32], cells: &'a [Cell], k: usize) -> &'a [Cell]
    requires place { k < length ends.now }
    requires stepped { IsStepped 0 ends.now (length cells.now) }
    ensures { result.now ≡ slice_index_or (rows_from 0 ends.now cells.now) k [] }
{
    let (start, end) = ends_of(ends, cells.len(), k);
    &cells[start..end]
}

impl Rows {
    /// No row, and an open one with no cell.
    pub fn new(alloc: Global) -> Rows
        ensures { result ≡ record { rows = []; begun = [] } }
    {
        Rows {
            ends: Vec::new(alloc),
            cells: Vec::new(alloc),
        }
    }

    /// The number of closed rows.
    pub fn len(&self) -> usize
        ensures { result ≡ length self.now.rows }
    {
        self.ends.len()
    }

    /// A closed row.
    pub fn row(&self, k: usize) -> &[Cell]
        requires { k < length self.now.rows }
        ensures { result.now ≡ slice_index_or self.now.rows k [] }
    {
        part(self.ends.as_slice(), self.cells.as_slice(), k)
    }

    /// Puts a cell behind the open row.
    pub fn push_cell(&mut self, cell: Cell) -> Result<(), AllocError>
        ensures rows { self.new.rows ≡ self.old.rows }
        ensures ok { OnOk result (self.new.begun ≡ self.old.begun ++ cell ∷ []) }
        ensures err { OnErr result (self.new.begun ≡ self.old.begun) }
    {
        self.cells.push(cell)?;
        Ok(())
    }

    /// Closes the open row, and opens another with no cell.
    ///
    /// `AllocError` comes, too, where there are 2^32 cells or more.
    pub fn close(&mut self) -> Result<(), AllocError>
        ensures ok { OnOk result (self.new ≡ record { rows = self.old.rows ++ self.old.begun ∷ []; begun = [] }) }
        ensures err { OnErr result (self.new ≡ self.old) }
    {
        let end = self.cells.len();
        if end > MOST {
            return Err(AllocError);
        }
        self.ends.push(end as u32)?;
        Ok(())
    }

    /// Closes a row of these cells, where the open row has none yet.
    ///
    /// `AllocError` comes, too, where there are 2^32 cells or more. It leaves all as it was.
    pub fn push_row(&mut self, cells: &[Cell]) -> Result<(), AllocError>
        requires { self.old.begun ≡ [] }
        ensures ok { OnOk result (self.new ≡ record { rows = self.old.rows ++ cells.now ∷ []; begun = [] }) }
        ensures err { OnErr result (self.new ≡ self.old) }
    {
        self.cells.extend_from_slice(cells)?;
        if let Err(refused) = self.close() {
            let kept = self.cells.len() - cells.len();
            self.cells.truncate(kept);
            return Err(refused);
        }
        Ok(())
    }

    /// Closes a row of a multiple of these cells, where the open row has none yet.
    ///
    /// `AllocError` comes, too, where there are 2^32 cells or more. The closed rows are the same then; the open row may have cells.
    pub fn push_multiple(&mut self, field: Field, by: u32, cells: &[Cell]) -> Result<(), AllocError>
        requires begun { self.old.begun ≡ [] }
        requires factor { IsElement field by }
        requires elements { AllElements field cells.now }
        ensures ok { OnOk result (self.new ≡ record { rows = self.old.rows ++ multiple_of field by cells.now ∷ []; begun = [] }) }
        ensures err { OnErr result (self.new.rows ≡ self.old.rows) }
    {
        let _modulus = field.modulus();
        if by == 1 {
            return self.push_row(cells);
        }
        for cell in cells {
            self.push_cell(Cell {
                column: cell.column,
                coefficient: field.mul(by, cell.coefficient),
            })?;
        }
        self.close()
    }
}
