//! Images of words under the quantum symmetrizer as rows of a matrix, whose columns are words.

ghost use Rattle.std.specs.Prelude.{◌≡◌, ◌<◌, ℕ, IfOk, length};
ghost use Rattle.std.specs.List.{AllByRecursion};
ghost use Rattle.nichols_tensor.specs.Positions.{word_at};
ghost use Rattle.nichols_echelon.specs.Cells.{AllElements, entry};
ghost use Rattle.nichols_echelon.specs.Combination.{AllRowsElements, row_at};
ghost use Rattle.nichols_plain.specs.Columns.{HasColumns, image_entry};

use crate::columns::column_of;
use nichols_braid::Braid;
use nichols_echelon::{Cell, Row};
use nichols_lift::symmetrize;
use nichols_words::{Comb, Word};
use std::alloc::{AllocError, Global};

/// The image of a word as a row.
fn image_row(alloc: Global, braid: &Braid, word: &Word) -> Result<Row, AllocError>
    requires { HasColumns braid.now word.now }
    ensures entries { IfOk result (λ row. (column : ℕ) → entry braid.now.field row column ≡ image_entry braid.now column word.now) }
    ensures elements { IfOk result (AllElements braid.now.field) }
{
    let field = braid.field();
    let single = Comb::single(alloc, field, *word, 1)?;
    let image = symmetrize(alloc, braid, &single)?;
    let mut cells = Vec::new(alloc);
    for term in image.terms() {
        cells.push(Cell {
            column: column_of(braid.letters(), &term.word),
            coefficient: term.coefficient,
        })?;
    }
    Ok(Row::of(cells))
}

/// The images of words as rows, one for each word.
pub(crate) fn image_rows(
    alloc: Global,
    braid: &Braid,
    words: &[Word],
) -> Result<Vec<Row>, AllocError>
    requires { AllByRecursion (HasColumns braid.now) words.now }
    ensures count { IfOk result (λ rows. length rows.items ≡ length words.now) }
    ensures entries { IfOk result (λ rows. (i : ℕ) → i < length words.now → (column : ℕ) → entry braid.now.field (row_at rows.items i) column ≡ image_entry braid.now column (word_at words.now i)) }
    ensures elements { IfOk result (λ rows. AllRowsElements braid.now.field rows.items) }
{
    let mut rows = Vec::new(alloc);
    for word in words {
        let row = image_row(alloc, braid, word)?;
        rows.push(row)?;
    }
    Ok(rows)
}
