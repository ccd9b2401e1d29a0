//! The combination of words that a row of cells is.

ghost use Rattle.std.specs.Prelude.{◌≡◌, length, IfOk};
ghost use Rattle.nichols_echelon.specs.Cells.{IsRow, AllBelow};
ghost use Rattle.nichols_tensor.specs.WordOrder.{IsRising};
ghost use Rattle.nichols_rows.specs.CombinationAt.{combination_at};

use nichols_echelon::Cell;
use nichols_words::{Comb, Term, Word};
use std::alloc::{AllocError, Global};

/// The combination of the words at the columns of a row, with its coefficients, in memory of its own.
///
/// The words rise; columns count from 0, and are below the number of words.
pub fn combination_of(alloc: Global, words: &[Word], cells: &[Cell]) -> Result<Comb, AllocError>
    requires rising { IsRising words.now }
    requires shape { IsRow cells.now }
    requires inside { AllBelow (length words.now) cells.now }
    ensures { IfOk result (λ r. r ≡ combination_at words.now cells.now) }
{
    let mut terms = Vec::new(alloc);
    for cell in cells {
        let word = words[cell.column as usize];
        let coefficient = cell.coefficient;
        terms.push(Term { word, coefficient })?;
    }
    Ok(Comb::from_terms(terms))
}
