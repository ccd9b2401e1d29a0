//! The value of a block, from those of the blocks below it.

ghost use Rattle.std.specs.Prelude.{◌≡◌, ◌≤◌, ◌<◌, ◌↔◌, ℕ};
ghost use Rattle.nichols_braid.specs.declared.TheConstants.{MOST_ROWS};
ghost use Rattle.nichols_braid.specs.Kernel.{is_killed};
ghost use Rattle.nichols_braid.specs.Products.{rows};
ghost use Rattle.nichols_value.specs.declared.value.BlockValue.TheVariants.{Over, Void};
ghost use Rattle.nichols_value.specs.Value.{IsRight};
ghost use Rattle.nichols_value.specs.Worth.{worth};
ghost use Rattle.nichols_block.specs.Allowed.{AreAllowed, allows};
ghost use Rattle.nichols_block.specs.Lower.{AreLowerValues, IsUpperBlock};
ghost use Rattle.nichols_block.specs.Making.{EachLower, IsARule, IsOverOrVoid, IsStarved, SomeLower};

use crate::lower::candidate_count;
use crate::rule::block_rule;
use nichols_braid::Braid;
use nichols_value::{BlockKey, BlockValue, LowerValue};
use std::alloc::Global;

/// What the values of lower blocks allow.
enum Outlook {
    /// They are rules: the block is made.
    Rules,
    /// One of them exceeds the limit, or has such a block below it: the block is void.
    Void,
    /// There was no memory for one of them.
    Starved,
}

/// What the value of one lower block allows.
fn outlook_of(below: &LowerValue) -> Outlook
    ensures { result ≡ allows (worth below.now.value) }
{
    match below.value.get() {
        Some(BlockValue::Rule(_)) => Outlook::Rules,
        Some(BlockValue::Over(_)) => Outlook::Void,
        Some(BlockValue::Void) => Outlook::Void,
        Some(BlockValue::Starved) => Outlook::Starved,
        None => Outlook::Starved,
    }
}

/// What the values of all lower blocks allow.
fn outlook_over(lower: &[LowerValue]) -> Outlook
    ensures { AreAllowed result lower.now }
{
    let mut void = false;
    for below in lower {
        match outlook_of(below) {
            Outlook::Rules => {}
            Outlook::Void => void = true,
            Outlook::Starved => return Outlook::Starved,
        }
    }
    if void { Outlook::Void } else { Outlook::Rules }
}

/// The value of a block under a rows limit, from the values of its lower blocks, by rising leading letter.
///
/// `Starved` comes where a lower value is `Starved`, and for want of memory. Otherwise `Void` comes exactly where a lower value is
/// `Over` or `Void`, `Over` exactly where every lower value is a rule and the candidates of the block exceed the limit, and else its
/// rule.
pub fn make(
    alloc: Global,
    braid: &Braid,
    key: &BlockKey,
    lower: &[LowerValue],
    rows_limit: u32,
) -> BlockValue
    requires block { IsUpperBlock braid.now key.now }
    requires some_rows { 1 ≤ rows_limit }
    requires few_rows { rows_limit ≤ MOST_ROWS }
    requires lower { AreLowerValues braid.now rows_limit key.now lower.now }
    ensures right { IsRight braid.now rows_limit key.now.degree key.now.product result }
    ensures starved { SomeLower IsStarved lower.now → IsStarved result }
    ensures void { (result ≡ Void) ↔ (SomeLower IsOverOrVoid lower.now × (SomeLower IsStarved lower.now → ⊥)) }
    ensures over { (count : ℕ) → (result ≡ Over count) ↔ (EachLower IsARule lower.now × (count ≡ rows is_killed braid.now key.now.degree key.now.product) × (rows_limit < count)) }
{
    let _field = braid.field();
    match outlook_over(lower) {
        Outlook::Rules => {}
        Outlook::Void => return BlockValue::Void,
        Outlook::Starved => return BlockValue::Starved,
    }
    let count = candidate_count(braid, key, lower);
    if count > u64::from(rows_limit) {
        return BlockValue::Over(count);
    }
    match block_rule(alloc, braid, key, lower) {
        Ok(rule) => BlockValue::Rule(rule),
        Err(_) => BlockValue::Starved,
    }
}
