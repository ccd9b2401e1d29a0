//! Derivatives of the new words of a block, in normal form over the lower blocks.

ghost use Rattle.std.specs.Prelude.{◌≡◌, ◌≤◌, ◌-◌, [], IfOk, OnOk, length};
ghost use Rattle.std.specs.List.{AllByRecursion};
ghost use Rattle.nichols_field.specs.Field.{IsElement};
ghost use Rattle.nichols_tensor.specs.Combination.{scalar_multiple};
ghost use Rattle.nichols_tensor.specs.Combination.{AllElements as AllTermsElements};
ghost use Rattle.nichols_tensor.specs.WordOrder.{IsRising};
ghost use Rattle.nichols_braid.specs.Braid.{IsLetter};
ghost use Rattle.nichols_braid.specs.Forms.{derived_form};
ghost use Rattle.nichols_braid.specs.Kernel.{is_killed};
ghost use Rattle.nichols_braid.specs.Product.{product_before};
ghost use Rattle.nichols_echelon.specs.Cells.{AllBelow, AllElements};
ghost use Rattle.nichols_echelon.specs.Sums.{IsZero};
ghost use Rattle.nichols_value.specs.Block.{lower_basis};
ghost use Rattle.nichols_value.specs.Kept.{IsSpot, candidate_at};
ghost use Rattle.nichols_value.specs.Rule.{right_in, rule_of};
ghost use Rattle.nichols_block.specs.Lower.{AreLowerRules, IsUpperBlock};
ghost use Rattle.nichols_block.specs.Rows.{AreNewDerivatives, AreRowsAt, AreRulesBelow, AreSpotsOf, AreSums, HasNewRow, IsRuleBelow, lower_words, summed_forms};

use crate::MOST_PLACES;
use crate::empty::empty_rows;
use crate::lower::rules_below;
use nichols_braid::Braid;
use nichols_echelon::{Cell, Rows, Sums};
use nichols_field::Field;
use nichols_value::{BlockKey, BlockRule, LowerValue, Spot};
use std::alloc::{AllocError, Global};

/// The rule of the lower block by a letter, if it has one.
#[inline]
pub(crate) fn rule_at<'t>(
    braid: &Braid,
    key: &BlockKey,
    rules: &[Option<&'t BlockRule>],
    letter: u8,
) -> Option<&'t BlockRule>
    requires rules { AreRulesBelow braid.now key.now.degree key.now.product rules.now }
    requires letter { IsLetter braid.now letter }
    ensures { IsRuleBelow braid.now key.now.degree key.now.product letter result }
{
    rules[usize::from(letter) - 1]
}

/// Adds up, for each cell of a row, its coefficient times the normal form of `v c`, where v is the word at its column, all by a
/// factor. The sums are 0 before.
fn add_right_rows(field: Field, by: u32, cells: &[Cell], rule: &BlockRule, c: u8, sums: &mut Sums)
    requires factor { IsElement field by }
    requires elements { AllElements field cells.now }
    requires rising { IsRising rule.now.basis }
    requires letter { 1 ≤ c }
    requires columns { AllBelow (length (right_in rule.now c)) cells.now }
    requires forms { AllByRecursion (AllTermsElements field) (right_in rule.now c) }
    requires zero { IsZero field sums.old }
    requires width { length rule.now.basis ≤ length sums.old }
    ensures sums { AreSums field rule.now.basis sums.new (scalar_multiple field by (summed_forms field (right_in rule.now c) cells.now)) }
    ensures width { length sums.new ≡ length sums.old }
{
    let _modulus = field.modulus();
    for cell in cells {
        let row = rule.right_row(c, cell.column as usize);
        sums.add_scaled(field, field.mul(by, cell.coefficient), row);
    }
}

/// Adds up the derivative by a of the word at a spot, `u b`, from the rules of the lower blocks by a and by b. The sums are 0 before.
fn add_derivative(
    braid: &Braid,
    key: &BlockKey,
    rule: &BlockRule,
    own: &BlockRule,
    a: u8,
    spot: Spot,
    sums: &mut Sums,
)
    requires block { IsUpperBlock braid.now key.now }
    requires letter { IsLetter braid.now a }
    requires last { IsLetter braid.now spot.letter }
    requires rule { rule.now ≡ rule_of braid.now (key.now.degree - 1) (product_before braid.now a key.now.product) }
    requires own { own.now ≡ rule_of braid.now (key.now.degree - 1) (product_before braid.now spot.letter key.now.product) }
    requires spot { IsSpot (lower_words braid.now key.now.degree key.now.product) spot }
    requires zero { IsZero braid.now.field sums.old }
    requires width { length (lower_basis braid.now key.now.degree key.now.product a) ≤ length sums.old }
    ensures sums { AreSums braid.now.field (lower_basis braid.now key.now.degree key.now.product a) sums.new
        (derived_form is_killed braid.now key.now.degree (candidate_at (lower_words braid.now key.now.degree key.now.product) spot) a) }
    ensures width { length sums.new ≡ length sums.old }
{
    let field = braid.field();
    let by = braid.scalar(a, spot.letter);
    let c = braid.act(a, spot.letter);
    let place = spot.place as usize;
    add_right_rows(field, by, own.derivative_row(a, place), rule, c, sums);
    if a == spot.letter {
        sums.put(field, place, 1);
    }
}

/// Puts the row of the derivative by a of the word at a spot behind others. The sums are 0 before and after.
fn push_derivative(
    braid: &Braid,
    key: &BlockKey,
    rules: &[Option<&BlockRule>],
    rule: &BlockRule,
    a: u8,
    spot: Spot,
    sums: &mut Sums,
    rows: &mut Rows,
) -> Result<(), AllocError>
    requires block { IsUpperBlock braid.now key.now }
    requires rules { AreRulesBelow braid.now key.now.degree key.now.product rules.now }
    requires letter { IsLetter braid.now a }
    requires rule { rule.now ≡ rule_of braid.now (key.now.degree - 1) (product_before braid.now a key.now.product) }
    requires spot { IsSpot (lower_words braid.now key.now.degree key.now.product) spot }
    requires zero { IsZero braid.now.field sums.old }
    requires width { length (lower_basis braid.now key.now.degree key.now.product a) ≤ length sums.old }
    requires closed { rows.old.begun ≡ [] }
    ensures row { OnOk result (HasNewRow (lower_basis braid.now key.now.degree key.now.product a)
        (derived_form is_killed braid.now key.now.degree (candidate_at (lower_words braid.now key.now.degree key.now.product) spot) a) rows.old rows.new) }
    ensures zero { OnOk result (IsZero braid.now.field sums.new) }
    ensures width { length sums.new ≡ length sums.old }
{
    let field = braid.field();
    let Some(own) = rule_at(braid, key, rules, spot.letter) else {
        unreachable!()
    };
    add_derivative(braid, key, rule, own, a, spot, sums);
    sums.drain_into(field, rows)
}

/// The rows of the derivatives by a of the words at spots, where the lower block by a has a rule. The sums are 0 before and after.
fn rows_over(
    alloc: Global,
    braid: &Braid,
    key: &BlockKey,
    rules: &[Option<&BlockRule>],
    rule: &BlockRule,
    a: u8,
    spots: &[Spot],
    sums: &mut Sums,
) -> Result<Rows, AllocError>
    requires block { IsUpperBlock braid.now key.now }
    requires rules { AreRulesBelow braid.now key.now.degree key.now.product rules.now }
    requires letter { IsLetter braid.now a }
    requires rule { rule.now ≡ rule_of braid.now (key.now.degree - 1) (product_before braid.now a key.now.product) }
    requires spots { AllByRecursion (IsSpot (lower_words braid.now key.now.degree key.now.product)) spots.now }
    requires zero { IsZero braid.now.field sums.old }
    ensures rows { IfOk result (AreRowsAt braid.now key.now.degree key.now.product spots.now a) }
    ensures zero { OnOk result (IsZero braid.now.field sums.new) }
{
    let places = rule.basis().len();
    if places > MOST_PLACES {
        return Err(AllocError);
    }
    sums.room(alloc, braid.field(), places)?;
    let mut rows = Rows::new(alloc);
    for spot in spots {
        push_derivative(braid, key, rules, rule, a, *spot, sums, &mut rows)?;
    }
    Ok(rows)
}

/// The rows of the derivatives by a of the words at spots. The sums are 0 before and after.
fn rows_by_letter(
    alloc: Global,
    braid: &Braid,
    key: &BlockKey,
    rules: &[Option<&BlockRule>],
    a: u8,
    spots: &[Spot],
    sums: &mut Sums,
) -> Result<Rows, AllocError>
    requires block { IsUpperBlock braid.now key.now }
    requires rules { AreRulesBelow braid.now key.now.degree key.now.product rules.now }
    requires letter { IsLetter braid.now a }
    requires spots { AllByRecursion (IsSpot (lower_words braid.now key.now.degree key.now.product)) spots.now }
    requires zero { IsZero braid.now.field sums.old }
    ensures rows { IfOk result (AreRowsAt braid.now key.now.degree key.now.product spots.now a) }
    ensures zero { OnOk result (IsZero braid.now.field sums.new) }
{
    let _field = braid.field();
    match rule_at(braid, key, rules, a) {
        Some(rule) => rows_over(alloc, braid, key, rules, rule, a, spots, sums),
        None => empty_rows(alloc, spots.len()),
    }
}

/// By letter a, from letter 1 on, the normal forms of the derivatives by a of the new words, which stand at these spots, as rows over the words of the lower
/// block by a.
///
/// The derivative of `u b` by a is u, where a is b, and `q(a,b) ∂_a(u) x_{a ▷ b}` added up; the normal form of `∂_a(u)` and those
/// of its words with the letter `a ▷ b` behind are known from the lower blocks.
pub(crate) fn derivative_rows(
    alloc: Global,
    braid: &Braid,
    key: &BlockKey,
    lower: &[LowerValue],
    spots: &[Spot],
) -> Result<Vec<Rows>, AllocError>
    requires block { IsUpperBlock braid.now key.now }
    requires lower { AreLowerRules braid.now key.now lower.now }
    requires spots { AreSpotsOf braid.now key.now.degree key.now.product spots.now }
    ensures { IfOk result (λ r. AreNewDerivatives braid.now key.now.degree key.now.product r.items) }
{
    let field = braid.field();
    let rules = rules_below(alloc, braid, key, lower)?;
    let found = rules.as_slice();
    let mut sums = Sums::new(alloc, field, 0)?;
    let mut lists = Vec::new(alloc);
    for a in 0..braid.letters() {
        lists.push(rows_by_letter(alloc, braid, key, found, a + 1, spots, &mut sums)?)?;
    }
    Ok(lists)
}
