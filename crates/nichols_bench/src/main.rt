//! Eliminates rows that are made from a counter, and prints how many of them are independent.
#![tactic(auto)]

ghost use Rattle.std.specs.Prelude.{◌<◌, ◌^◌, length};
ghost use Rattle.nichols_echelon.specs.Combination.{AllRowsElements};

mod made;

use made::{Size, made_rows};
use nichols_echelon::{Place, Row, split_rows};
use nichols_field::Field;
use std::alloc::{AllocError, Global};
use std::process::ExitCode;

/// How many rows are independent, how many depend on the rows before them, and how many cells the
/// combinations of these have.
#[derive(Clone, Copy)]
struct Counts {
    independent: u64,
    dependent: u64,
    cells: u64,
}

/// The counts of the places.
fn counts_of(places: &[Place]) -> Counts {
    let mut counts = Counts {
        independent: 0,
        dependent: 0,
        cells: 0,
    };
    for place in places {
        match place {
            Place::Independent => counts.independent = counts.independent.saturating_add(1),
            Place::Depends(row) => {
                counts.dependent = counts.dependent.saturating_add(1);
                counts.cells = counts.cells.saturating_add(row.cells().len() as u64);
            }
        }
    }
    counts
}

/// Eliminates the rows.
fn eliminated(alloc: Global, field: Field, rows: &[Row]) -> Result<Counts, AllocError>
    requires elements { AllRowsElements field rows.now }
    requires count { length rows.now < 2 ^ 32 }
{
    let places = split_rows(alloc, field, rows)?;
    Ok(counts_of(places.as_slice()))
}

/// The number that a word stands for.
fn number(words: &[String], place: usize) -> Option<u32> {
    words.get(place)?.as_str().parse::<u32>().ok()
}

/// The size and the field that the words name: rows, cells a row, columns and modulus.
fn task_of(words: &[String]) -> Option<(Size, Field)> {
    let size = Size {
        rows: number(words, 1)?,
        cells: number(words, 2)?,
        columns: number(words, 3)?,
    };
    let field = Field::new(i64::from(number(words, 4)?)).ok()?;
    Some((size, field))
}

/// Makes the rows and eliminates them.
fn counted(alloc: Global, size: Size, field: Field) -> Result<Option<Counts>, AllocError> {
    match made_rows(alloc, field, size)? {
        Some(rows) => Ok(Some(eliminated(alloc, field, rows.as_slice())?)),
        None => Ok(None),
    }
}

/// Arguments: rows, cells a row, columns, modulus.
fn main(rt: HostRuntime) -> ExitCode {
    let alloc = rt.alloc();
    let Ok(words) = std::env::args(&rt) else {
        return ExitCode::from(2);
    };
    let Ok(words) = words.collect::<Vec<String>>(alloc) else {
        return ExitCode::from(2);
    };
    let Some((size, field)) = task_of(words.as_slice()) else {
        return ExitCode::from(1);
    };
    match counted(alloc, size, field) {
        Ok(Some(counts)) => {
            let Counts {
                independent,
                dependent,
                cells,
            } = counts;
            match println!(rt; "independent {independent}, dependent {dependent}, cells {cells}") {
                Ok(()) => ExitCode::from(0),
                Err(_) => ExitCode::from(2),
            }
        }
        Ok(None) => ExitCode::from(1),
        Err(_) => ExitCode::from(2),
    }
}
