//! The values of the lower blocks of a block, from the levels below it.

ghost use Rattle.std.specs.Prelude.{◌≡◌, IfOk, MatchOption, false, true, length, suc};
ghost use Rattle.nichols_braid.specs.Braid.{IsLetter};
ghost use Rattle.nichols_braid.specs.Product.{product_before};
ghost use Rattle.nichols_value.specs.declared.value.BlockValue.TheVariants.{Rule};
ghost use Rattle.nichols_value.specs.Rule.{rule_of};
ghost use Rattle.nichols_value.specs.Worth.{worth};
ghost use Rattle.nichols_block.specs.Below.{is_lower_letter};
ghost use Rattle.nichols_block.specs.Lower.{AreLowerRules, IsUpperBlock};

use crate::levels::Levels;
use nichols_braid::Product;
use nichols_value::{BlockKey, LowerValue, Shared};
use std::alloc::{AllocError, Global};

/// The value of the lower block by a letter of a block of the degree after the last one, if the letter is a leading one and there
/// is such a block.
fn lower_value<'t>(levels: &'t Levels, product: &Product, letter: u8) -> Option<&'t Shared>
    requires product { length product.now ≡ levels.now.braid.letters }
    requires letter { IsLetter levels.now.braid letter }
    ensures { MatchOption result (is_lower_letter levels.now.braid levels.now.last product.now letter ≡ false)
        (λ v. (is_lower_letter levels.now.braid levels.now.last product.now letter ≡ true) × (worth v.now ≡ Rule (rule_of levels.now.braid levels.now.last (product_before levels.now.braid letter product.now)))) }
{
    let braid = levels.braid();
    let last = levels.last();
    if braid.leading(letter) != letter {
        return None;
    }
    match levels.products(last).find(&product.back(braid, letter)) {
        Some(k) => Some(levels.value(last, k)),
        None => None,
    }
}

/// The values of the lower blocks of a block of the degree after the last one, by rising leading letter: the rules of the last
/// degree's blocks, shared once more.
pub fn lower_values(
    alloc: Global,
    levels: &Levels,
    key: &BlockKey,
) -> Result<Vec<LowerValue>, AllocError>
    requires block { IsUpperBlock levels.now.braid key.now }
    requires degree { key.now.degree ≡ suc levels.now.last }
    ensures { IfOk result (λ r. AreLowerRules levels.now.braid key.now r.items) }
{
    let _braid = levels.braid().field();
    let mut lower = Vec::new(alloc);
    for a in 0..levels.braid().letters() {
        if let Some(value) = lower_value(levels, &key.product, a + 1) {
            lower.push(LowerValue {
                letter: a + 1,
                value: value.copy()?,
            })?;
        }
    }
    Ok(lower)
}
