//! A degree of a cover, with its least words as numbers.

ghost use Rattle.std.specs.Prelude.{◌≡◌, ◌<◌, ◌+◌, ◌^◌, ◌++◌, ◌∷◌, ℕ, [], IfOk, OnOk, cond, length, slice_index};
ghost use Rattle.nichols_echelon.specs.Cells.{AllBelow};
ghost use Rattle.nichols_echelon.specs.Split.{place_at};
ghost use Rattle.nichols_rows.specs.Places.{IsInside};
ghost use Rattle.nichols_cover.specs.Level.{IsMadeOf};
ghost use Rattle.nichols_cover.specs.Rows.{form_cells, is_independent, numbered};
ghost use Rattle.nichols_cover.specs.Units.{behind};

use nichols_echelon::{Cell, Place, Rows};
use std::alloc::{AllocError, Global};

/// The least words of a degree have the numbers from 0 on, rising. The candidate `u b` of the degree above, for the least word u with
/// number i, is candidate `i n + b - 1` over n letters. So rows need no words.
#[derive(Drop)]
pub(crate) struct Level {
    /// How many least words the degree below has; 0 in degree 0.
    pub(crate) below: usize,
    /// How many the degree itself has.
    pub(crate) count: usize,
    /// The normal form of each candidate over the least words; none in degree 0.
    pub(crate) forms: Rows,
}

/// 1 for an independent row, else 0.
fn independent(place: &Place) -> u32
    ensures { result ≡ cond (is_independent place.now) 1 0 }
{
    match place {
        Place::Independent => 1,
        Place::Depends(_) => 0,
    }
}

/// Puts the cells behind the first `others` rows, with the numbers of their columns, into the open row.
fn put_behind(
    others: usize,
    cells: &[Cell],
    numbers: &[u32],
    forms: &mut Rows,
) -> Result<(), AllocError>
    requires inside { AllBelow (others + length numbers.now) cells.now }
    requires begun { forms.old.begun ≡ [] }
    ensures begun { OnOk result (forms.new.begun ≡ numbered (slice_index numbers.now) (behind others cells.now)) }
    ensures rows { forms.new.rows ≡ forms.old.rows }
{
    for cell in cells {
        let column = cell.column as usize;
        if column >= others {
            forms.push_cell(Cell {
                column: numbers[column - others],
                coefficient: cell.coefficient,
            })?;
        }
    }
    Ok(())
}

/// Closes the row of a candidate's normal form behind others: its own number, or the numbers of the candidates that its place names
/// behind the first `others` rows.
fn push_form(
    others: usize,
    place: &Place,
    numbers: &[u32],
    own: u32,
    forms: &mut Rows,
) -> Result<(), AllocError>
    requires inside { IsInside (others + length numbers.now) place.now }
    requires begun { forms.old.begun ≡ [] }
    ensures { OnOk result (forms.new ≡ record { rows = forms.old.rows ++ form_cells (slice_index numbers.now) others own place.now ∷ []; begun = [] }) }
{
    match place {
        Place::Independent => forms.push_row(&[Cell {
            column: own,
            coefficient: 1,
        }]),
        Place::Depends(row) => {
            put_behind(others, row.cells(), numbers, forms)?;
            forms.close()
        }
    }
}

/// The level that the places of its candidates' own rows make, where these stood behind `others` rows. There are `below` least words
/// in the degree below.
pub(crate) fn level_of(
    alloc: Global,
    others: usize,
    places: &[Place],
    below: usize,
) -> Result<Level, AllocError>
    requires count { length places.now < 2 ^ 32 }
    requires inside { (k : ℕ) → k < length places.now → IsInside (others + k) (place_at places.now k) }
    ensures { IfOk result (λ l. IsMadeOf others places.now below l) }
{
    let mut numbers = Vec::new(alloc);
    let mut forms = Rows::new(alloc);
    let mut count = 0;
    for place in places {
        push_form(others, place, numbers.as_slice(), count, &mut forms)?;
        numbers.push(count)?;
        count += independent(place);
    }
    Ok(Level {
        below,
        count: count as usize,
        forms,
    })
}

/// Degree 0, which has the empty word alone.
pub(crate) fn lowest_level(alloc: Global) -> Level
    ensures counts { (result.below ≡ 0) × (result.count ≡ 1) }
    ensures forms { result.forms ≡ record { rows = []; begun = [] } }
{
    Level {
        below: 0,
        count: 1,
        forms: Rows::new(alloc),
    }
}
