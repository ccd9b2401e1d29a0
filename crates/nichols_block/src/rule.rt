//! The rule of a block, from those of the blocks below it.

ghost use Rattle.std.specs.Prelude.{◌≡◌, IfOk, length, map};
ghost use Rattle.nichols_tensor.specs.Words.{up_to};
ghost use Rattle.nichols_braid.specs.Braid.{IsLetter};
ghost use Rattle.nichols_rows.specs.Places.{independent_in};
ghost use Rattle.nichols_value.specs.Block.{block_basis, lower_basis};
ghost use Rattle.nichols_value.specs.Rule.{rule_of};
ghost use Rattle.nichols_block.specs.Lower.{AreLowerRules, IsUpperBlock};
ghost use Rattle.nichols_block.specs.Places.{ArePlacesOf};
ghost use Rattle.nichols_block.specs.Rows.{AreLeastDerivatives, AreNewDerivatives};
ghost use Rattle.nichols_block.specs.Words.{ends_of};

use crate::derivatives::derivative_rows;
use crate::forms::{BlockForms, block_forms};
use crate::lower::rule_below;
use crate::split::{least_rows, places_of};
use crate::words::{NewWords, listed_words, new_words};
use nichols_braid::Braid;
use nichols_echelon::{Place, Rows};
use nichols_rows::independent_words;
use nichols_value::{BlockKey, BlockRule, Ends, LowerValue, Words};
use std::alloc::{AllocError, Global};

/// The least words u for which `u b` has the block's product, b being the letter, shared with the lower block.
fn shared_below(
    alloc: Global,
    braid: &Braid,
    key: &BlockKey,
    lower: &[LowerValue],
    letter: u8,
) -> Result<Words, AllocError>
    requires block { IsUpperBlock braid.now key.now }
    requires lower { AreLowerRules braid.now key.now lower.now }
    requires letter { IsLetter braid.now letter }
    ensures { IfOk result (λ w. w ≡ lower_basis braid.now key.now.degree key.now.product letter) }
{
    match rule_below(braid, key, lower, letter) {
        Some(rule) => rule.shared_basis(),
        None => Words::of(alloc, Vec::new(alloc)),
    }
}

/// The words of the lower blocks by letter, from letter 1 on.
fn all_below(
    alloc: Global,
    braid: &Braid,
    key: &BlockKey,
    lower: &[LowerValue],
) -> Result<Vec<Words>, AllocError>
    requires block { IsUpperBlock braid.now key.now }
    requires lower { AreLowerRules braid.now key.now lower.now }
    ensures { IfOk result (λ r. r.items ≡ map (lower_basis braid.now key.now.degree key.now.product) (up_to braid.now.letters)) }
{
    let _field = braid.field();
    let mut below = Vec::new(alloc);
    for b in 0..braid.letters() {
        below.push(shared_below(alloc, braid, key, lower, b + 1)?)?;
    }
    Ok(below)
}

/// By letter, copies of the rows of the derivatives of the new words that are least.
fn copied_derivatives(
    alloc: Global,
    braid: &Braid,
    key: &BlockKey,
    derivs: &[Rows],
    places: &[Place],
) -> Result<Vec<Rows>, AllocError>
    requires block { IsUpperBlock braid.now key.now }
    requires derivs { AreNewDerivatives braid.now key.now.degree key.now.product derivs.now }
    requires places { ArePlacesOf braid.now key.now.degree key.now.product places.now }
    ensures { IfOk result (λ r. AreLeastDerivatives braid.now key.now.degree key.now.product r.items) }
{
    let mut least = Vec::new(alloc);
    for own in derivs {
        least.push(least_rows(alloc, own, places)?)?;
    }
    Ok(least)
}

/// By letter, the rows of the derivatives of the new words that are least: all that were made, where so many words are least as are new.
fn least_derivatives(
    alloc: Global,
    braid: &Braid,
    key: &BlockKey,
    derivs: Vec<Rows>,
    places: &[Place],
    least: usize,
) -> Result<Vec<Rows>, AllocError>
    requires block { IsUpperBlock braid.now key.now }
    requires derivs { AreNewDerivatives braid.now key.now.degree key.now.product derivs.items }
    requires places { ArePlacesOf braid.now key.now.degree key.now.product places.now }
    requires least { least ≡ length (block_basis braid.now key.now.degree key.now.product) }
    ensures { IfOk result (λ r. AreLeastDerivatives braid.now key.now.degree key.now.product r.items) }
{
    if least == places.len() {
        return Ok(derivs);
    }
    copied_derivatives(alloc, braid, key, derivs.as_slice(), places)
}

/// Where the new words that are least stand below without their end letters.
fn least_ends(alloc: Global, new: &NewWords, places: &[Place]) -> Result<Vec<Ends>, AllocError>
    requires places { length places.now ≡ length new.now.spots.items }
    requires backs { length new.now.backs.items ≡ length new.now.spots.items }
    ensures { IfOk result (λ r. r.items ≡ independent_in (ends_of new.now.spots.items new.now.backs.items) places.now) }
{
    let mut least = Vec::new(alloc);
    for (k, place) in places.iter().enumerate() {
        if let Place::Independent = place {
            least.push(Ends {
                front: new.spots[k].place,
                back: new.backs[k],
            })?;
        }
    }
    Ok(least)
}

/// The rule of a block, from the rules of its lower blocks: its new words are least, or have their normal forms, by the elimination
/// of the rows of their derivatives; the normal forms of all other words follow from these.
pub(crate) fn block_rule(
    alloc: Global,
    braid: &Braid,
    key: &BlockKey,
    lower: &[LowerValue],
) -> Result<BlockRule, AllocError>
    requires block { IsUpperBlock braid.now key.now }
    requires lower { AreLowerRules braid.now key.now lower.now }
    ensures { IfOk result (λ r. r ≡ rule_of braid.now key.now.degree key.now.product) }
{
    let _field = braid.field();
    let listed = listed_words(alloc, braid, key, lower)?;
    let new = new_words(alloc, braid, key, listed.as_slice())?;
    let derived = derivative_rows(alloc, braid, key, lower, new.spots.as_slice())?;
    let places = places_of(alloc, braid, key, lower, derived.as_slice())?;
    let least = independent_words(alloc, new.words.as_slice(), places.as_slice())?;
    let forms = block_forms(
        alloc,
        braid,
        key,
        lower,
        listed.as_slice(),
        places.as_slice(),
        least.as_slice(),
    )?;
    let count = least.len();
    let derivs = least_derivatives(alloc, braid, key, derived, places.as_slice(), count)?;
    let ends = least_ends(alloc, &new, places.as_slice())?;
    let below = all_below(alloc, braid, key, lower)?;
    let basis = Words::of(alloc, least)?;
    let BlockForms { right, left, spots } = forms;
    Ok(BlockRule::new(*key, basis, below, right, spots, derivs, left, ends))
}
