//! The elimination of `nichols_echelon`.

ghost use Rattle.std.specs.Prelude.{◌≡◌, ◌≤◌, IfOk, length};
ghost use Rattle.nichols_echelon.specs.Cells.{AllElements};
ghost use Rattle.nichols_echelon.specs.Combination.{AllRowsElements};

use nichols_echelon::{Cell, Place, Row, Rows, Sums, split_rows};
use nichols_field::Field;
use std::alloc::{AllocError, Global};
use std::test::Fail;

const fn cell(column: u32, coefficient: u32) -> Cell
    ensures { result ≡ record { column = column; coefficient = coefficient } }
{
    Cell {
        column,
        coefficient,
    }
}

/// The row of the values that aren't 0, each at a multiple of the stride.
fn row_of(alloc: Global, field: Field, stride: u32, values: &[i64]) -> Result<Row, AllocError>
    requires short { length values.now ≤ 6 }
    requires stride { stride ≤ 700000000 }
    ensures { IfOk result (λ r. AllElements field r) }
{
    let mut cells = Vec::new(alloc);
    for (place, value) in values.iter().enumerate() {
        let coefficient = field.from_i64(*value);
        if coefficient != 0 {
            cells.push(cell(place as u32 * stride, coefficient))?;
        }
    }
    match Row::from_cells(cells) {
        Some(row) => Ok(row),
        None => Ok(Row::of(Vec::new(alloc))),
    }
}

/// The rows of a table.
fn rows_of(
    alloc: Global,
    field: Field,
    stride: u32,
    table: &[[i64; 6]],
) -> Result<Vec<Row>, AllocError>
    requires { stride ≤ 700000000 }
    ensures elements { IfOk result (λ v. AllRowsElements field v.items) }
    ensures count { IfOk result (λ v. length v.items ≡ length table.now) }
{
    let mut rows = Vec::new(alloc);
    for values in table {
        let row = row_of(alloc, field, stride, values)?;
        rows.push(row)?;
    }
    Ok(rows)
}

/// A combination as text: each position with its coefficient.
fn text_of(alloc: Global, cells: &[Cell]) -> Result<String, AllocError> {
    let mut text = String::new(alloc);
    for cell in cells {
        text = format!(in alloc; "{text} {}:{}", cell.column, cell.coefficient)?;
    }
    Ok(text)
}

/// All places as text.
fn places_text(alloc: Global, places: &[Place]) -> Result<String, AllocError> {
    let mut text = String::new(alloc);
    for place in places {
        text = match place {
            Place::Independent => format!(in alloc; "{text}free,")?,
            Place::Depends(row) => {
                let combination = text_of(alloc, row.cells())?;
                format!(in alloc; "{text}{combination},")?
            }
        };
    }
    Ok(text)
}

/// Rows of small tables, with places that another program found by solving for each row.
#[test]
fn places_of_tables(rt: HostRuntime) -> Result<(), Fail> {
    let alloc = rt.alloc();
    for (p, stride, table, expected) in [
        (
            7,
            1,
            [
                [1, 2, 0, 0, 0, 0],
                [2, 4, 0, 0, 0, 0],
                [0, 1, 0, 0, 0, 0],
                [1, 0, 0, 0, 0, 0],
                [0, 0, 0, 0, 0, 0],
                [0, 0, 3, 0, 0, 5],
                [1, 1, 3, 0, 0, 5],
                [0, 0, 6, 0, 0, 10],
            ],
            "free, 0:2,free, 0:1 2:5,,free, 0:1 2:6 5:1, 5:2,",
        ),
        (
            101,
            65536,
            [
                [1, 2, 0, 0, 0, 0],
                [2, 4, 0, 0, 0, 0],
                [0, 1, 0, 0, 0, 0],
                [1, 0, 0, 0, 0, 0],
                [0, 0, 0, 0, 0, 0],
                [0, 0, 3, 0, 0, 5],
                [1, 1, 3, 0, 0, 5],
                [0, 0, 6, 0, 0, 10],
            ],
            "free, 0:2,free, 0:1 2:99,,free, 0:1 2:100 5:1, 5:2,",
        ),
        (
            7,
            700000000,
            [
                [0, 0, 6, 1, 0, 0],
                [0, 4, 6, 0, 0, 5],
                [0, 0, 2, 5, 0, 2],
                [0, 0, 6, 1, 0, 5],
                [2, 0, 2, 5, 0, 0],
                [0, 0, 0, 6, 0, 2],
                [0, 0, 5, 4, 0, 6],
                [5, 0, 4, 4, 0, 4],
            ],
            "free,free,free, 0:6 2:6,free,free, 0:5 2:5 5:5, 2:3 4:6 5:6,",
        ),
        (
            101,
            1,
            [
                [0, 0, 0, 79, 0, 97],
                [23, 0, 0, 0, 0, 0],
                [0, 0, 0, 0, 84, 9],
                [0, 0, 0, 95, 40, 15],
                [0, 70, 0, 37, 0, 0],
                [0, 0, 72, 0, 0, 20],
                [0, 0, 49, 66, 65, 45],
                [41, 78, 0, 80, 0, 0],
            ],
            "free,free,free, 0:37 2:63,free,free, 0:98 2:14 5:61,free,",
        ),
        (
            65521,
            40,
            [
                [0, 0, 39047, 17027, 0, 0],
                [0, 0, 0, 0, 0, 43257],
                [0, 0, 0, 0, 0, 34902],
                [0, 0, 30499, 56837, 0, 23197],
                [0, 0, 33962, 56589, 57714, 0],
                [0, 0, 34963, 22028, 19452, 0],
                [0, 0, 27482, 46157, 6809, 16949],
                [0, 58192, 0, 0, 0, 38986],
            ],
            "free,free, 1:8939, 0:46411 1:31185,free,free, 0:17545 1:45170 5:62473,free,",
        ),
    ] {
        let field = Field::new(p).map_err(|_| "no field")?;
        let rows = rows_of(alloc, field, stride, &table)?;
        let places = split_rows(alloc, field, rows.as_slice())?;
        let text = places_text(alloc, places.as_slice())?;
        assert_eq!(rt; text.as_str(), expected);
    }
    Ok(())
}

/// Whether the cells are a row, and whether a copy of it has the same cells.
fn accepted(alloc: Global, cells: &[Cell]) -> Result<(bool, bool), AllocError> {
    let given = Vec::from_slice(alloc, cells)?;
    match Row::from_cells(given) {
        Some(row) => {
            let copy = row.copy(alloc)?;
            Ok((true, copy.cells() == cells))
        }
        None => Ok((false, false)),
    }
}

#[test]
fn rows_from_cells(rt: HostRuntime) {
    let no_cells: [Cell; 0] = [];
    assert!(rt; matches!(accepted(rt.alloc(), &no_cells), Ok((true, true))));
    assert!(rt;
        matches!(
            accepted(rt.alloc(), &[cell(3, 1), cell(9, 6)]),
            Ok((true, true))
        )
    );
    assert!(rt;
        matches!(
            accepted(rt.alloc(), &[cell(3, 1), cell(3, 6)]),
            Ok((false, _))
        )
    );
    assert!(rt;
        matches!(
            accepted(rt.alloc(), &[cell(4, 1), cell(3, 6)]),
            Ok((false, _))
        )
    );
    assert!(rt; matches!(accepted(rt.alloc(), &[cell(3, 0)]), Ok((false, _))));
    assert!(rt;
        matches!(
            accepted(rt.alloc(), &[cell(3, 1), cell(9, 0)]),
            Ok((false, _))
        )
    );
}

/// The rows of 2, 0 and 1 cells, with one cell begun.
fn three_rows(alloc: Global) -> Result<Rows, AllocError>
    ensures { IfOk result (λ r. length r.rows ≡ 3) }
{
    let mut rows = Rows::new(alloc);
    rows.push_cell(cell(2, 1))?;
    rows.push_cell(cell(5, 3))?;
    rows.close()?;
    rows.close()?;
    rows.push_cell(cell(0, 6))?;
    rows.close()?;
    rows.push_cell(cell(1, 1))?;
    Ok(rows)
}

#[test]
fn rows_one_behind_the_other(rt: HostRuntime) -> Result<(), Fail> {
    let rows = three_rows(rt.alloc())?;
    assert_eq!(rt; rows.len(), 3);
    assert!(rt; rows.row(0) == [cell(2, 1), cell(5, 3)].as_slice());
    assert!(rt; rows.row(1).is_empty());
    assert!(rt; rows.row(2) == [cell(0, 6)].as_slice());
    Ok(())
}

/// Multiples of 2:5, 9:3 over seven elements, by 3 and by 1, and one of no cell.
#[test]
fn multiples_of_rows(rt: HostRuntime) -> Result<(), Fail> {
    let alloc = rt.alloc();
    let field = Field::new(7).map_err(|_| "no field")?;
    let [one, three, five] = [field.from_i64(1), field.from_i64(3), field.from_i64(5)];
    let mut rows = Rows::new(alloc);
    rows.push_multiple(field, three, &[cell(2, five), cell(9, three)])?;
    rows.push_multiple(field, one, &[cell(2, five), cell(9, three)])?;
    rows.push_multiple(field, three, &[])?;
    assert_eq!(rt; rows.len(), 3);
    assert!(rt; rows.row(0) == [cell(2, 1), cell(9, 2)].as_slice());
    assert!(rt; rows.row(1) == [cell(2, 5), cell(9, 3)].as_slice());
    assert!(rt; rows.row(2).is_empty());
    Ok(())
}

/// Sums over seven elements: 3 (2:1, 65:2) + 6 (2:3, 70:1) + 5 at 65, where the 0 at 2 is no cell.
#[test]
fn sums_of_rows(rt: HostRuntime) -> Result<(), Fail> {
    let alloc = rt.alloc();
    let field = Field::new(7).map_err(|_| "no field")?;
    let [three, five, six] = [field.from_i64(3), field.from_i64(5), field.from_i64(6)];
    let mut sums = Sums::new(alloc, field, 3)?;
    sums.room(alloc, field, 71)?;
    let mut rows = Rows::new(alloc);
    sums.add_scaled(
        field,
        three,
        &[cell(2, field.from_i64(1)), cell(65, field.from_i64(2))],
    );
    sums.add_scaled(field, six, &[cell(2, three), cell(70, field.from_i64(1))]);
    sums.put(field, 65, five);
    sums.drain_into(field, &mut rows)?;
    assert_eq!(rt; rows.len(), 1);
    assert!(rt; rows.row(0) == [cell(65, 4), cell(70, 6)].as_slice());
    sums.put(field, 2, five);
    sums.put(field, 66, three);
    sums.put(field, 66, field.from_i64(4));
    sums.put(field, 64, six);
    assert!(rt; sums.take_last(field, 71) == Some(cell(64, 6)));
    assert!(rt; sums.take_last(field, 64) == Some(cell(2, 5)));
    assert!(rt; sums.take_last(field, 2).is_none());
    Ok(())
}

fn crosses_threads<T: Send + Sync + Drop>(_value: T) {}

#[test]
fn rows_and_sums_cross_threads(rt: HostRuntime) -> Result<(), Fail> {
    let alloc = rt.alloc();
    let field = Field::new(7).map_err(|_| "no field")?;
    crosses_threads(Rows::new(alloc));
    crosses_threads(Sums::new(alloc, field, 1)?);
    crosses_threads(Row::of(Vec::new(alloc)));
    crosses_threads(Place::Independent);
    Ok(())
}
