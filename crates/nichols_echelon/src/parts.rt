//! Rows in parts, one list of rows behind the other.

ghost use Rattle.std.specs.Prelude.{◌≡◌, ◌<◌, ◌++◌, ◌∷◌, [], ℕ, List, MatchOption, length};
ghost use Rattle.nichols_field.specs.Field.{IsElement, plus, times};
ghost use Rattle.nichols_echelon.specs.Cells.{Cell as PlainCell, AllBelow, AllElements, entry};
ghost use Rattle.nichols_echelon.specs.Combination.{row_at};
ghost use Rattle.nichols_echelon.specs.Parts.{AreParts, HasParts, joined_row, joined_rows};
ghost use Rattle.nichols_echelon.specs.Sums.{sum_at};

use crate::flat::Rows;
use crate::rows::Cell;
use crate::sums::Sums;
use nichols_field::Field;
use std::marker::Model;

/// Rows in parts: each is the k-th rows of all lists, one behind the other, the columns of each list behind so many others.
#[derive(Drop)]
pub(crate) struct Parts<'t> {
    lists: &'t [Rows],
    offsets: &'t [u32],
    count: usize,
}

impl<'t> Model for Parts<'t> {
    ghost use Rattle.std.specs.Prelude.{List};
    ghost use Rattle.nichols_echelon.specs.Cells.{Cell as PlainCell};
    ghost use Rattle.nichols_echelon.specs.Parts.{AreParts, joined_rows};

    ghost Value = { List (List PlainCell) };

    ghost view = { λ p. joined_rows p.lists.now p.offsets.now p.count };

    ghost invariant = { λ p. AreParts p.lists.now p.offsets.now p.count };
}

/// The last cell of the k-th row in parts, if it has one: that of the last part with any.
fn last_of(lists: &[Rows], offsets: &[u32], k: usize) -> Option<Cell>
    requires parts { HasParts lists.now offsets.now k }
    ensures { MatchOption result (joined_row lists.now offsets.now k (length lists.now) ≡ [])
        (λ last. (front : List PlainCell) × (joined_row lists.now offsets.now k (length lists.now) ≡ front ++ last ∷ [])) }
{
    let mut left = lists.len();
    while left > 0 {
        let a = left - 1;
        if let Some((last, _)) = lists[a].row(k).split_last() {
            return Some(Cell {
                column: offsets[a] + last.column,
                coefficient: last.coefficient,
            });
        }
        left = a;
    }
    None
}

/// Adds a multiple of the k-th row in parts.
fn add_parts(field: Field, by: u32, lists: &[Rows], offsets: &[u32], k: usize, sums: &mut Sums)
    requires factor { IsElement field by }
    requires parts { HasParts lists.now offsets.now k }
    requires elements { AllElements field (joined_row lists.now offsets.now k (length lists.now)) }
    requires below { AllBelow (length sums.old) (joined_row lists.now offsets.now k (length lists.now)) }
    ensures value { (place : ℕ) → sum_at field sums.new place ≡ plus field (sum_at field sums.old place) (times field by (entry field (joined_row lists.now offsets.now k (length lists.now)) place)) }
    ensures width { length sums.new ≡ length sums.old }
{
    let _modulus = field.modulus();
    for a in 0..lists.len() {
        sums.add_behind(field, by, offsets[a], lists[a].row(k));
    }
}

impl<'t> Parts<'t> {
    /// So many rows, in the parts that these lists have.
    pub(crate) fn of(lists: &'t [Rows], offsets: &'t [u32], count: usize) -> Parts<'t>
        requires { AreParts lists.now offsets.now count }
        ensures { result ≡ joined_rows lists.now offsets.now count }
    {
        Parts {
            lists,
            offsets,
            count,
        }
    }

    /// The number of rows.
    pub(crate) fn len(&self) -> usize
        ensures { result ≡ length self.now }
    {
        self.count
    }

    /// The last cell of a row, if it has one.
    pub(crate) fn last(&self, k: usize) -> Option<Cell>
        requires { k < length self.now }
        ensures { MatchOption result (row_at self.now k ≡ []) (λ last. (front : List PlainCell) × (row_at self.now k ≡ front ++ last ∷ [])) }
    {
        last_of(self.lists, self.offsets, k)
    }

    /// Adds a multiple of a row.
    pub(crate) fn add(&self, field: Field, by: u32, k: usize, sums: &mut Sums)
        requires factor { IsElement field by }
        requires inside { k < length self.now }
        requires elements { AllElements field (row_at self.now k) }
        requires below { AllBelow (length sums.old) (row_at self.now k) }
        ensures value { (place : ℕ) → sum_at field sums.new place ≡ plus field (sum_at field sums.old place) (times field by (entry field (row_at self.now k) place)) }
        ensures width { length sums.new ≡ length sums.old }
    {
        add_parts(field, by, self.lists, self.offsets, k, sums);
    }
}
