//! Rows that are made from a counter.

ghost use Rattle.std.specs.Prelude.{◌<◌, ◌^◌, IfOk, IfSome, length};
ghost use Rattle.nichols_echelon.specs.Cells.{AllElements};
ghost use Rattle.nichols_echelon.specs.Combination.{AllRowsElements};

use nichols_echelon::{Cell, Row};
use nichols_field::Field;
use std::alloc::{AllocError, Global};

/// How many rows, cells a row and columns there are.
#[derive(Clone, Copy)]
pub struct Size {
    pub rows: u32,
    pub cells: u32,
    pub columns: u32,
}

/// A number that looks random, from a counter.
fn scattered(counter: u64) -> u64 {
    let mut z = counter.wrapping_mul(0x9E37_79B9_7F4A_7C15);
    z = (z ^ (z >> 30)).wrapping_mul(0xBF58_476D_1CE4_E5B9);
    z = (z ^ (z >> 27)).wrapping_mul(0x94D0_49BB_1331_11EB);
    z ^ (z >> 31)
}

/// The cells of a row: one in each of as many equal stretches of the columns.
fn made_cells(alloc: Global, field: Field, size: Size, row: u32) -> Result<Vec<Cell>, AllocError>
    ensures { IfOk result (λ v. AllElements field v.items) }
{
    let stretch = size.columns / size.cells.max(1);
    let others = i64::from(field.modulus()).saturating_sub(1).max(1);
    let mut cells = Vec::new(alloc);
    let mut start: u32 = 0;
    for i in 0..size.cells {
        let counter = u64::from(row)
            .wrapping_mul(u64::from(size.cells))
            .wrapping_add(u64::from(i));
        let number = scattered(counter);
        let column = start.wrapping_add((number % u64::from(stretch.max(1))) as u32);
        let coefficient = field.from_i64(1 + (number >> 40) as i64 % others);
        cells.push(Cell {
            column,
            coefficient,
        })?;
        start = start.wrapping_add(stretch);
    }
    Ok(cells)
}

/// The rows, or none where the size allows no row with that many cells.
pub fn made_rows(alloc: Global, field: Field, size: Size) -> Result<Option<Vec<Row>>, AllocError>
    ensures { IfOk result (λ r. IfSome r (λ v. AllRowsElements field v.items × (length v.items < 2 ^ 32))) }
{
    let mut rows = Vec::new(alloc);
    for row in 0..size.rows {
        let cells = made_cells(alloc, field, size, row)?;
        let Some(one) = Row::from_cells(cells) else {
            return Ok(None);
        };
        rows.push(one)?;
    }
    Ok(Some(rows))
}
