//! A degree of a cover from the degree below it.

ghost use Rattle.std.specs.Prelude.{◌≡◌, ◌<◌, ◌*◌, ◌^◌, ◌++◌, suc, [], IfOk, OnOk};
ghost use Rattle.std.specs.List.{AllByRecursion};
ghost use Rattle.nichols_cover.specs.Ideal.{generators};
ghost use Rattle.nichols_cover.specs.Level.{IsQuadraticRelation, StandsFor};
ghost use Rattle.nichols_cover.specs.Units.{unit_rows};

use crate::level::{Level, level_of};
use crate::products::product_rows;
use nichols_echelon::{Cell, Rows, split_flat_rows};
use nichols_field::Field;
use nichols_words::Relation;
use std::alloc::{AllocError, Global};

/// The greatest number of rows.
const MOST_ROWS: usize = u32::MAX as usize;

/// Puts a row of one cell for each candidate behind others.
fn push_units(candidates: usize, rows: &mut Rows) -> Result<(), AllocError>
    requires few { candidates < 2 ^ 32 }
    requires begun { rows.old.begun ≡ [] }
    ensures { OnOk result (rows.new ≡ record { rows = rows.old.rows ++ unit_rows candidates; begun = [] }) }
{
    for column in 0..candidates {
        rows.push_row(&[Cell {
            column: column as u32,
            coefficient: 1,
        }])?;
    }
    Ok(())
}

/// The next degree: a candidate is least exactly where its own row isn't a combination of the rows of the products and of earlier
/// candidates, and else its normal form is what its place says of candidates.
///
/// `AllocError` comes, too, where there are 2^32 rows or more.
pub(crate) fn next_level(
    alloc: Global,
    field: Field,
    letters: u8,
    quadratic: &[Relation],
    level: &Level,
    _degree: u32,
) -> Result<Level, AllocError>
    requires relations { AllByRecursion (IsQuadraticRelation field letters) quadratic.now }
    requires level { StandsFor field letters (generators field quadratic.now) _degree level.now }
    requires few { level.now.count * letters < 2 ^ 32 }
    ensures next { IfOk result (λ l. StandsFor field letters (generators field quadratic.now) (suc _degree) l) }
    ensures few { IfOk result (λ l. l.count < 2 ^ 32) }
{
    let _modulus = field.modulus();
    let mut rows = product_rows(alloc, field, letters, quadratic, level)?;
    let others = rows.len();
    let candidates = level.count * usize::from(letters);
    push_units(candidates, &mut rows)?;
    if rows.len() > MOST_ROWS {
        return Err(AllocError);
    }
    let places = split_flat_rows(alloc, field, &rows)?;
    level_of(alloc, others, &places[others..], level.count)
}
