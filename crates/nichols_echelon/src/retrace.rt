//! The way back from kept rows to the rows that they come from.

ghost use Rattle.std.specs.Prelude.{◌≡◌, ◌<◌, ◌≤◌, IfOk, ℕ, length};
ghost use Rattle.nichols_echelon.specs.Echelon.{AreSteps};
ghost use Rattle.nichols_echelon.specs.Combination.{row_at};
ghost use Rattle.nichols_echelon.specs.Sums.{IsZero};
ghost use Rattle.nichols_echelon.specs.Sweep.{IsTraced};

use crate::echelon::Echelon;
use crate::rows::Cell;
use crate::sums::Sums;
use nichols_field::Field;
use std::alloc::{AllocError, Global};

/// A combination of kept rows as a combination of the rows that they come from, from the last kept
/// row on.
pub(crate) fn retraced(
    alloc: Global,
    field: Field,
    echelon: &Echelon,
    sums: &mut Sums,
    steps: &[Cell],
) -> Result<Vec<Cell>, AllocError>
    requires all_steps { (i : ℕ) → i < length echelon.now.steps.rows → AreSteps field echelon.now.pivots.items i (row_at echelon.now.steps.rows i) }
    requires zero { IsZero field sums.old }
    requires width { length echelon.now.steps.rows ≤ length sums.old }
    requires steps { AreSteps field echelon.now.pivots.items (length echelon.now.steps.rows) steps.now }
    ensures traced { IfOk result (λ r. IsTraced field echelon.now.pivots.items echelon.now.steps.rows steps.now r.items) }
    ensures zero { IfOk result (λ _. IsZero field sums.new) }
    ensures width { length sums.new ≡ length sums.old }
{
    let _modulus = field.modulus();
    sums.add_scaled(field, 1, steps);
    let mut out = Vec::new(alloc);
    let mut end = echelon.steps.len();
    while let Some(cell) = sums.take_last(field, end) {
        out.push(cell)?;
        let position = cell.column as usize;
        let back = field.neg(cell.coefficient);
        sums.add_scaled(field, back, echelon.steps.row(position));
        end = position;
    }
    out.reverse();
    Ok(out)
}
