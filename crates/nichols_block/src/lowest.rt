//! The rule of the lowest degree.

ghost use Rattle.std.specs.Prelude.{◌≡◌, IfOk};
ghost use Rattle.nichols_tensor.specs.Words.{up_to};
ghost use Rattle.nichols_value.specs.Rule.{rule_of};

use crate::empty::{empty_rows_by_letter, no_words};
use nichols_braid::{Braid, Product};
use nichols_value::{BlockKey, BlockRule, Ends, Words};
use nichols_words::Word;
use std::alloc::{AllocError, Global};

/// The rule of the block of degree 0: the empty word is least, its derivatives are 0, and there is no word with a letter behind or
/// in front.
pub(crate) fn lowest_rule(alloc: Global, braid: &Braid) -> Result<BlockRule, AllocError>
    ensures { IfOk result (λ r. r ≡ rule_of braid.now 0 (up_to braid.now.letters)) }
{
    let _field = braid.field();
    let letters = braid.letters();
    let key = BlockKey {
        degree: 0,
        product: Product::identity(letters),
    };
    let mut words = Vec::new(alloc);
    words.push(Word::empty())?;
    let basis = Words::of(alloc, words)?;
    let below = no_words(alloc, letters)?;
    let right = empty_rows_by_letter(alloc, letters, 0)?;
    let derivs = empty_rows_by_letter(alloc, letters, 1)?;
    let left = empty_rows_by_letter(alloc, letters, 0)?;
    let mut ends = Vec::new(alloc);
    ends.push(Ends { front: 0, back: 0 })?;
    Ok(BlockRule::new(
        key,
        basis,
        below,
        right,
        Vec::new(alloc),
        derivs,
        left,
        ends,
    ))
}
