//! Which new words of a block are least.

ghost use Rattle.std.specs.Prelude.{◌≡◌, [], IfOk, length};
ghost use Rattle.nichols_rows.specs.Places.{independent_in};
ghost use Rattle.nichols_block.specs.Lower.{AreLowerRules, IsUpperBlock};
ghost use Rattle.nichols_block.specs.NewRows.{AreOffsets, columns_to};
ghost use Rattle.nichols_block.specs.Places.{ArePlacesOf};
ghost use Rattle.nichols_block.specs.Rows.{AreNewDerivatives};

use crate::MOST_PLACES;
use crate::lower::words_below;
use nichols_braid::Braid;
use nichols_echelon::{Place, Rows, split_parts};
use nichols_value::{BlockKey, LowerValue};
use std::alloc::{AllocError, Global};

/// By letter, from letter 1 on, how many words the lower blocks by the letters before it have, and how many all of them have.
#[derive(Drop)]
struct Columns {
    offsets: Vec<u32>,
    all: usize,
}

/// The columns of the rows of new words: the words of the lower blocks, one letter behind the other.
fn columns_of(
    alloc: Global,
    braid: &Braid,
    key: &BlockKey,
    lower: &[LowerValue],
) -> Result<Columns, AllocError>
    requires block { IsUpperBlock braid.now key.now }
    requires lower { AreLowerRules braid.now key.now lower.now }
    ensures offsets { IfOk result (λ r. AreOffsets braid.now key.now.degree key.now.product r.offsets.items) }
    ensures all { IfOk result (λ r. r.all ≡ columns_to braid.now key.now.degree key.now.product braid.now.letters) }
{
    let mut offsets = Vec::new(alloc);
    let mut columns = 0;
    for a in 0..braid.letters() {
        offsets.push(columns as u32)?;
        columns += words_below(braid, key, lower, a + 1).len();
        if columns > MOST_PLACES {
            return Err(AllocError);
        }
    }
    let all = columns;
    Ok(Columns { offsets, all })
}

/// The places of the rows of the new words, from the normal forms of their derivatives by each letter.
///
/// A new word is least exactly where its row is no combination of the rows before it, and otherwise that combination of the words
/// is its normal form (Heckenberger and Schneider, "Hopf Algebras and Root Systems": what all skew derivations kill is zero in the
/// Nichols algebra). More words or columns than `MOST_PLACES` are answered as want of memory.
pub(crate) fn places_of(
    alloc: Global,
    braid: &Braid,
    key: &BlockKey,
    lower: &[LowerValue],
    derivs: &[Rows],
) -> Result<Vec<Place>, AllocError>
    requires block { IsUpperBlock braid.now key.now }
    requires lower { AreLowerRules braid.now key.now lower.now }
    requires derivs { AreNewDerivatives braid.now key.now.degree key.now.product derivs.now }
    ensures { IfOk result (λ places. ArePlacesOf braid.now key.now.degree key.now.product places.items) }
{
    let field = braid.field();
    let Columns { offsets, all } = columns_of(alloc, braid, key, lower)?;
    let count = derivs[0].len();
    if count > MOST_PLACES {
        return Err(AllocError);
    }
    split_parts(alloc, field, derivs, offsets.as_slice(), count, all)
}

/// The rows whose places are independent.
pub(crate) fn least_rows(alloc: Global, rows: &Rows, places: &[Place]) -> Result<Rows, AllocError>
    requires closed { rows.now.begun ≡ [] }
    requires count { length places.now ≡ length rows.now.rows }
    ensures { IfOk result (λ r. r ≡ record { rows = independent_in rows.now.rows places.now; begun = [] }) }
{
    let mut least = Rows::new(alloc);
    for (k, place) in places.iter().enumerate() {
        if let Place::Independent = place {
            least.push_row(rows.row(k))?;
        }
    }
    Ok(least)
}
