//! The rules of the lower blocks of a block, by letter.

ghost use Rattle.std.specs.Prelude.{◌≡◌, ◌<◌, ◌-◌, ℕ, None, [], IfOk, MatchOption, length, slice_index, slice_index_or};
ghost use Rattle.nichols_tensor.specs.WordOrder.{IsRising};
ghost use Rattle.nichols_braid.specs.Braid.{IsLetter};
ghost use Rattle.nichols_braid.specs.Product.{product_before};
ghost use Rattle.nichols_braid.specs.Kernel.{is_killed};
ghost use Rattle.nichols_braid.specs.Products.{rows};
ghost use Rattle.nichols_value.specs.Block.{left_lower_basis, lower_basis};
ghost use Rattle.nichols_value.specs.Rule.{rule_of};
ghost use Rattle.nichols_value.specs.Worth.{worth};
ghost use Rattle.nichols_value.specs.declared.value.BlockValue.TheVariants.{Rule};
ghost use Rattle.nichols_block.specs.Below.{AreFewBelow, AreSent, IsNoRule};
ghost use Rattle.nichols_block.specs.Lower.{AreLowerRules, IsUpperBlock};

use nichols_braid::Braid;
use nichols_value::{BlockKey, BlockRule, BlockValue, LowerValue};
use nichols_words::Word;
use std::alloc::{AllocError, Global};

/// The rule of a lower block, if its value is one.
fn rule_in(below: &LowerValue) -> Option<&BlockRule>
    ensures { MatchOption result (IsNoRule (worth below.now.value)) (λ r. worth below.now.value ≡ Rule r.now) }
{
    match below.value.get() {
        Some(BlockValue::Rule(rule)) => Some(rule),
        _ => None,
    }
}

/// The rule of the lower block by a letter, if there is one: that of the leading letter with the same map.
pub(crate) fn rule_below<'t>(
    braid: &Braid,
    key: &BlockKey,
    lower: &'t [LowerValue],
    letter: u8,
) -> Option<&'t BlockRule>
    requires block { IsUpperBlock braid.now key.now }
    requires lower { AreLowerRules braid.now key.now lower.now }
    requires letter { IsLetter braid.now letter }
    ensures { MatchOption result (lower_basis braid.now key.now.degree key.now.product letter ≡ [])
        (λ r. r.now ≡ rule_of braid.now (key.now.degree - 1) (product_before braid.now letter key.now.product)) }
{
    let leading = braid.leading(letter);
    for below in lower {
        if below.letter == leading {
            return rule_in(below);
        }
    }
    None
}

/// The rules of the lower blocks, by letter from letter 1 on.
pub(crate) fn rules_below<'t>(
    alloc: Global,
    braid: &Braid,
    key: &BlockKey,
    lower: &'t [LowerValue],
) -> Result<Vec<Option<&'t BlockRule>>, AllocError>
    requires block { IsUpperBlock braid.now key.now }
    requires lower { AreLowerRules braid.now key.now lower.now }
    ensures count { IfOk result (λ r. length r.items ≡ braid.now.letters) }
    ensures each { IfOk result (λ r. (b : ℕ) → IsLetter braid.now b → MatchOption (slice_index_or r.items (b - 1) None) (lower_basis braid.now key.now.degree key.now.product b ≡ [])
        (λ s. s.now ≡ rule_of braid.now (key.now.degree - 1) (product_before braid.now b key.now.product))) }
{
    let _field = braid.field();
    let mut rules = Vec::new(alloc);
    for b in 0..braid.letters() {
        rules.push(rule_below(braid, key, lower, b + 1))?;
    }
    Ok(rules)
}

/// The least words u for which `u b` has the block's product, b being the letter.
pub(crate) fn words_below<'t>(
    braid: &Braid,
    key: &BlockKey,
    lower: &'t [LowerValue],
    letter: u8,
) -> &'t [Word]
    requires block { IsUpperBlock braid.now key.now }
    requires lower { AreLowerRules braid.now key.now lower.now }
    requires letter { IsLetter braid.now letter }
    ensures same { result.now ≡ lower_basis braid.now key.now.degree key.now.product letter }
    ensures rising { IsRising result.now }
{
    match rule_below(braid, key, lower, letter) {
        Some(rule) => rule.basis(),
        None => &[],
    }
}

/// The letter that the block's product sends to a letter. In front, this one makes of the words of the lower block by that one
/// words of the block: the left lower block by a letter is the lower block by the letter that is sent to it.
pub(crate) fn sent_to(braid: &Braid, key: &BlockKey, letter: u8) -> u8
    requires block { IsUpperBlock braid.now key.now }
    requires letter { IsLetter braid.now letter }
    ensures letter { IsLetter braid.now result }
    ensures sent { slice_index key.now.product (result - 1) ≡ letter }
    ensures words { left_lower_basis braid.now key.now.degree key.now.product letter ≡ lower_basis braid.now key.now.degree key.now.product result }
{
    let _field = braid.field();
    let images = key.product.images();
    for c in 1..braid.letters() {
        if images[usize::from(c) - 1] == letter {
            return c;
        }
    }
    braid.letters()
}

/// By letter, from letter 1 on, the letter that is sent to it.
pub(crate) fn all_sent(alloc: Global, braid: &Braid, key: &BlockKey) -> Result<Vec<u8>, AllocError>
    requires block { IsUpperBlock braid.now key.now }
    ensures { IfOk result (λ r. AreSent braid.now key.now.degree key.now.product r.items) }
{
    let _field = braid.field();
    let mut sent = Vec::new(alloc);
    for a in 0..braid.letters() {
        sent.push(sent_to(braid, key, a + 1))?;
    }
    Ok(sent)
}

/// The least words v for which `a v` has the block's product, a being the letter.
pub(crate) fn left_words_below<'t>(
    braid: &Braid,
    key: &BlockKey,
    lower: &'t [LowerValue],
    letter: u8,
) -> &'t [Word]
    requires block { IsUpperBlock braid.now key.now }
    requires lower { AreLowerRules braid.now key.now lower.now }
    requires letter { IsLetter braid.now letter }
    ensures same { result.now ≡ left_lower_basis braid.now key.now.degree key.now.product letter }
    ensures rising { IsRising result.now }
{
    words_below(braid, key, lower, sent_to(braid, key, letter))
}

/// The number of candidates of the block.
pub(crate) fn candidate_count(braid: &Braid, key: &BlockKey, lower: &[LowerValue]) -> u64
    requires block { IsUpperBlock braid.now key.now }
    requires lower { AreLowerRules braid.now key.now lower.now }
    requires few { AreFewBelow braid.now key.now }
    ensures { result ≡ rows is_killed braid.now key.now.degree key.now.product }
{
    let _field = braid.field();
    let mut count = 0;
    for b in 0..braid.letters() {
        count += words_below(braid, key, lower, b + 1).len() as u64;
    }
    count
}
