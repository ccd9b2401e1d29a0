//! Rows of a sparse matrix.

ghost use Rattle.std.specs.Prelude.{◌≡◌, ◌↔◌, IsTrue, IfOk, MatchOption};
ghost use Rattle.nichols_echelon.specs.Cells.{IsRow, IsBelowFirst, columns_of};

use std::alloc::{AllocError, Global};
use std::marker::Model;

/// An entry of a row: its column, and its coefficient there, an element of a field.
#[derive(Clone, Copy, Debug, PartialEq, Eq)]
pub struct Cell {
    pub column: u32,
    pub coefficient: u32,
}

impl Model for Cell {
    ghost use Rattle.nichols_echelon.specs.Cells.{Cell as PlainCell};

    ghost Value = { PlainCell };

    ghost view = { λ c. record { column = c.column; coefficient = c.coefficient } };

    ghost inverse = { λ c. record { column = c.column; coefficient = c.coefficient } };
}

/// A row: cells whose columns rise and whose coefficients aren't 0.
#[derive(Drop)]
pub struct Row {
    cells: Vec<Cell>,
}

impl Model for Row {
    ghost use Rattle.std.specs.Prelude.{List};
    ghost use Rattle.nichols_echelon.specs.Cells.{Cell as PlainCell, IsRow};

    ghost Value = { List PlainCell };

    ghost view = { λ r. r.cells.items };

    ghost invariant = { λ r. IsRow r.cells.items };
}

/// What a row is to the rows before it.
#[derive(Drop)]
pub enum Place {
    /// It is no combination of them.
    Independent,
    /// It is their combination with these coefficients: the columns are positions, from 0, of
    /// earlier independent rows.
    Depends(Row),
}

/// Whether the columns rise and no coefficient is 0.
fn is_row(cells: &[Cell]) -> bool
    ensures { IsTrue result ↔ IsRow cells.now }
{
    let mut left = cells;
    while let Some((first, rest)) = left.split_first() {
        if first.coefficient == 0 || !is_below(first.column, rest) {
            return false;
        }
        left = rest;
    }
    true
}

/// Whether the column is less than that of the first cell, if there is one.
fn is_below(column: u32, cells: &[Cell]) -> bool
    ensures { IsTrue result ↔ IsBelowFirst column (columns_of cells.now) }
{
    match cells.first() {
        Some(first) => column < first.column,
        None => true,
    }
}

impl Row {
    /// The row of the cells: `None` exactly where the columns don't rise or a coefficient is 0.
    ///
    /// It takes no memory.
    pub fn from_cells(cells: Vec<Cell>) -> Option<Row>
        ensures { MatchOption result (IsRow cells.items → ⊥) (λ r. (r ≡ cells.items) × IsRow cells.items) }
    {
        if is_row(cells.as_slice()) {
            Some(Row { cells })
        } else {
            None
        }
    }

    /// The row of cells whose columns are known to rise and whose coefficients aren't 0.
    ///
    /// It takes no memory.
    pub fn of(cells: Vec<Cell>) -> Row
        requires { IsRow cells.items }
        ensures { result ≡ cells.items }
    {
        Row { cells }
    }

    /// The cells, by rising column.
    pub fn cells(&self) -> &[Cell]
        ensures same { result.now ≡ self.now }
        ensures shape { IsRow self.now }
    {
        self.cells.as_slice()
    }

    /// Another row with the same cells.
    pub fn copy(&self, alloc: Global) -> Result<Row, AllocError>
        ensures { IfOk result (λ r. r ≡ self.now) }
    {
        let cells = Vec::from_slice(alloc, self.cells.as_slice())?;
        Ok(Row { cells })
    }
}
