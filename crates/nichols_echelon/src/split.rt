//! The elimination of the rows in turn.

ghost use Rattle.std.specs.Prelude.{◌≡◌, ◌<◌, ◌≤◌, ◌^◌, ◌++◌, ◌∷◌, [], IfOk, IfSome, List, None, length};
ghost use Rattle.nichols_echelon.specs.Cells.{Cell as PlainCell, AllBelow};
ghost use Rattle.nichols_echelon.specs.Combination.{AllRowsElements, AllRowsBelow, AreRows, row_at};
ghost use Rattle.nichols_echelon.specs.Echelon.{pivot_at};
ghost use Rattle.nichols_echelon.specs.NextRow.{Holds, IsNextRow};
ghost use Rattle.nichols_echelon.specs.Split.{IsSplit};
ghost use Rattle.nichols_echelon.specs.Sums.{IsZero};

use crate::echelon::{Echelon, minus_inverse};
use crate::parts::Parts;
use crate::retrace::retraced;
use crate::rows::{Cell, Place, Row};
use crate::sums::Sums;
use crate::sweep::{Remainder, swept};
use nichols_field::Field;
use std::alloc::{AllocError, Global};

/// The last cell of a row, if no kept row ends at its column.
fn free_end(rows: &Parts<'_>, position: usize, pivots: &[Option<u32>]) -> Option<Cell>
    requires inside { position < length rows.now }
    requires below { AllBelow (length pivots.now) (row_at rows.now position) }
    ensures { IfSome result (λ last. ((front : List PlainCell) × (row_at rows.now position ≡ front ++ last ∷ [])) × (pivot_at pivots.now last.column ≡ None)) }
{
    let last = rows.last(position)?;
    match pivots[last.column as usize] {
        None => Some(last),
        Some(_) => None,
    }
}

/// The place of the next row, which is kept where it is independent.
fn next_place(
    alloc: Global,
    field: Field,
    rows: &Parts<'_>,
    position: usize,
    echelon: &mut Echelon,
    sums: &mut Sums,
    back: &mut Sums,
) -> Result<Place, AllocError>
    requires shape { AreRows rows.now }
    requires elements { AllRowsElements field rows.now }
    requires below { AllRowsBelow (length echelon.old.pivots.items) rows.now }
    requires count { length rows.now < 2 ^ 32 }
    requires next { length echelon.old.left.rows ≡ position }
    requires inside { position < length rows.now }
    requires echelon { Holds field rows.now echelon.old }
    requires begun { (echelon.old.left.begun ≡ []) × (echelon.old.steps.begun ≡ []) }
    requires zero { IsZero field sums.old × IsZero field back.old }
    requires width { (length sums.old ≡ length echelon.old.pivots.items) × (length rows.now ≤ length back.old) }
    ensures settled { IfOk result (λ place. IsNextRow field rows.now echelon.old echelon.new place) }
    ensures zero { IfOk result (λ _. IsZero field sums.new × IsZero field back.new) }
    ensures width { (length sums.new ≡ length sums.old) × (length back.new ≡ length back.old) }
{
    let _modulus = field.modulus();
    if let Some(last) = free_end(rows, position, echelon.pivots.as_slice()) {
        echelon.left.close()?;
        echelon.steps.close()?;
        echelon.claim(minus_inverse(field, last.coefficient), last.column as usize)?;
        return Ok(Place::Independent);
    }
    rows.add(field, 1, position, sums);
    let Remainder { last, steps } = swept(alloc, field, rows, echelon, sums)?;
    match last {
        Some(last) => {
            sums.drain_into(field, &mut echelon.left)?;
            echelon.steps.push_row(steps.as_slice())?;
            echelon.claim(minus_inverse(field, last.coefficient), last.column as usize)?;
            Ok(Place::Independent)
        }
        None => {
            let combination = retraced(alloc, field, echelon, back, steps.as_slice())?;
            echelon.left.close()?;
            echelon.steps.close()?;
            echelon.factors.push(0)?;
            Ok(Place::Depends(Row::of(combination)))
        }
    }
}

/// Which rows depend on the rows before them, where each column is below `width`.
pub(crate) fn split_narrow(
    alloc: Global,
    field: Field,
    rows: &Parts<'_>,
    width: usize,
) -> Result<Vec<Place>, AllocError>
    requires shape { AreRows rows.now }
    requires elements { AllRowsElements field rows.now }
    requires below { AllRowsBelow width rows.now }
    requires count { length rows.now < 2 ^ 32 }
    requires short { width ≤ 2 ^ 32 }
    ensures { IfOk result (λ places. IsSplit field rows.now places.items) }
{
    let _modulus = field.modulus();
    let mut sums = Sums::new(alloc, field, width)?;
    let mut back = Sums::new(alloc, field, rows.len())?;
    let mut echelon = Echelon::new(alloc, sums.width())?;
    let mut places = Vec::new(alloc);
    for position in 0..rows.len() {
        let place = next_place(
            alloc,
            field,
            rows,
            position,
            &mut echelon,
            &mut sums,
            &mut back,
        )?;
        places.push(place)?;
    }
    Ok(places)
}
