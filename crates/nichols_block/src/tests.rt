ghost use Rattle.std.specs.Prelude.{◌≡◌, ◌<◌, ◌≤◌, IfOk, MatchOption, false, true, length, suc};
ghost use Rattle.nichols_braid.specs.declared.TheConstants.{MOST_DEGREES, MOST_ROWS};
ghost use Rattle.nichols_braid.specs.Braid.{IsLetter};
ghost use Rattle.nichols_braid.specs.Product.{product_before};
ghost use Rattle.nichols_braid.specs.Products.{products};
ghost use Rattle.nichols_value.specs.Value.{IsRight};
ghost use Rattle.nichols_value.specs.Worth.{worth};
ghost use Rattle.nichols_block.specs.Below.{is_lower_letter};
ghost use Rattle.nichols_block.specs.Lower.{AreLowerValues, IsUpperBlock};
ghost use Rattle.nichols_block.specs.Tested.{AreRightFor};

use super::*;
use crate::lowest::lowest_rule;
use nichols_braid::{Braid, MOST_DEGREES, Product, Products};
use nichols_testing::{braid_with_constant, has_terms, has_words, three_transpositions, word};
use std::alloc::{AllocError, Global};
use std::test::Fail;

/// The value of the lower block by a letter, if the letter is a leading one and there is such a block.
fn lower_value<'t>(
    braid: &Braid,
    m: u32,
    _limit: u32,
    list: &Products,
    values: &'t [Shared],
    product: &Product,
    letter: u8,
) -> Option<&'t Shared>
    requires letter { IsLetter braid.now letter }
    requires size { length product.now ≡ braid.now.letters }
    requires list { list.now ≡ products braid.now m }
    requires right { AreRightFor braid.now _limit m list.now (length list.now) values.now }
    ensures { MatchOption result (is_lower_letter braid.now m product.now letter ≡ false)
        (λ v. (is_lower_letter braid.now m product.now letter ≡ true) × IsRight braid.now _limit m (product_before braid.now letter product.now) (worth v.now)) }
{
    if braid.leading(letter) != letter {
        return None;
    }
    match list.find(&product.back(braid, letter)) {
        Some(k) => Some(&values[k]),
        None => None,
    }
}

/// The values of the lower blocks of a block of degree `m + 1`, from those of the blocks of degree m.
fn values_below(
    alloc: Global,
    braid: &Braid,
    m: u32,
    limit: u32,
    list: &Products,
    values: &[Shared],
    key: &BlockKey,
) -> Result<Vec<LowerValue>, AllocError>
    requires block { IsUpperBlock braid.now key.now }
    requires degree { key.now.degree ≡ suc m }
    requires list { list.now ≡ products braid.now m }
    requires right { AreRightFor braid.now limit m list.now (length list.now) values.now }
    ensures { IfOk result (λ r. AreLowerValues braid.now limit key.now r.items) }
{
    let _field = braid.field();
    let mut lower = Vec::new(alloc);
    for a in 0..braid.letters() {
        if let Some(value) = lower_value(braid, m, limit, list, values, &key.product, a + 1) {
            lower.push(LowerValue {
                letter: a + 1,
                value: value.copy()?,
            })?;
        }
    }
    Ok(lower)
}

/// The values of the blocks of degree `m + 1`, from those of the blocks of degree m.
fn next_values(
    alloc: Global,
    braid: &Braid,
    m: u32,
    limit: u32,
    list: &Products,
    values: &[Shared],
    next: &Products,
) -> Result<Vec<Shared>, AllocError>
    requires room { m < MOST_DEGREES }
    requires some_rows { 1 ≤ limit }
    requires few_rows { limit ≤ MOST_ROWS }
    requires list { list.now ≡ products braid.now m }
    requires right { AreRightFor braid.now limit m list.now (length list.now) values.now }
    requires next { next.now ≡ products braid.now (suc m) }
    ensures { IfOk result (λ r. AreRightFor braid.now limit (suc m) next.now (length next.now) r.items) }
{
    let mut made = Vec::new(alloc);
    for k in 0..next.len() {
        let key = BlockKey {
            degree: m + 1,
            product: *next.at(k),
        };
        let lower = values_below(alloc, braid, m, limit, list, values, &key)?;
        let value = make(alloc, braid, &key, lower.as_slice(), limit);
        made.push(Shared::of(alloc, value))?;
    }
    Ok(made)
}

/// Want of memory for the block of degree 0.
fn no_values(
    alloc: Global,
    _braid: &Braid,
    _limit: u32,
    first: &Products,
) -> Result<Vec<Shared>, AllocError>
    requires { first.now ≡ products _braid.now 0 }
    ensures { IfOk result (λ r. AreRightFor _braid.now _limit 0 first.now (length first.now) r.items) }
{
    let mut values = Vec::new(alloc);
    values.push(Shared::Starved)?;
    Ok(values)
}

/// The value of the block of degree 0.
fn first_values(
    alloc: Global,
    braid: &Braid,
    _limit: u32,
    first: &Products,
) -> Result<Vec<Shared>, AllocError>
    requires some_rows { 1 ≤ _limit }
    requires first { first.now ≡ products braid.now 0 }
    ensures { IfOk result (λ r. AreRightFor braid.now _limit 0 first.now (length first.now) r.items) }
{
    let rule = lowest_rule(alloc, braid)?;
    let mut values = Vec::new(alloc);
    values.push(Shared::of(alloc, BlockValue::Rule(rule)))?;
    Ok(values)
}

const TWO: [&[i64]; 2] = [&[1, 2], &[1, 2]];

/// The values of the blocks of degrees 1 and 2 under a rows limit, by product.
#[derive(Drop)]
struct Values {
    one: Vec<Shared>,
    two: Vec<Shared>,
}

fn two_degrees(alloc: Global, braid: &Braid, limit: u32) -> Result<Values, Fail>
    requires some_rows { 1 ≤ limit }
    requires few_rows { limit ≤ MOST_ROWS }
{
    let none = Products::first(alloc, braid)?;
    let empty = first_values(alloc, braid, limit, &none)?;
    let letters = none.next(alloc, braid).map_err(|_| "too many products")?;
    let one = next_values(alloc, braid, 0, limit, &none, empty.as_slice(), &letters)?;
    let pairs = letters.next(alloc, braid).map_err(|_| "too many products")?;
    let two = next_values(alloc, braid, 1, limit, &letters, one.as_slice(), &pairs)?;
    Ok(Values { one, two })
}

/// The terms of a combination, with the word of each as a text.
type Terms = &'static [(&'static str, u32)];

/// A candidate with the terms of its form.
type Expected = (&'static str, Terms);

/// Whether a value is a rule with these least words, and with relations of these candidates and forms.
fn is_rule(
    alloc: Global,
    value: &Shared,
    words: &[&str],
    relations: &[Expected],
) -> Result<bool, AllocError> {
    let Some(BlockValue::Rule(rule)) = value.get() else {
        return Ok(false);
    };
    if !has_words(rule.basis(), words) || rule.relation_count() != relations.len() {
        return Ok(false);
    }
    for k in 0..relations.len() {
        let relation = rule.relation(k);
        let (candidate, form) = relations[k];
        let found = relation.form.copy(alloc)?;
        if relation.candidate != word(candidate) || !has_terms(&found, form) {
            return Ok(false);
        }
    }
    Ok(true)
}

/// Whether the value at a place of a list is a rule with one least word, and the derivatives of that word by the letters have these
/// terms.
fn has_derivatives(
    alloc: Global,
    braid: &Braid,
    _m: u32,
    _limit: u32,
    _list: &Products,
    values: &[Shared],
    k: usize,
    expected: &[Terms],
) -> Result<bool, AllocError>
    requires { AreRightFor braid.now _limit _m _list.now (length _list.now) values.now }
{
    if k >= values.len() {
        return Ok(false);
    }
    let Some(BlockValue::Rule(rule)) = values[k].get() else {
        return Ok(false);
    };
    if rule.basis().len() != 1 || expected.len() != usize::from(braid.letters()) {
        return Ok(false);
    }
    for a in 0..braid.letters() {
        let found = rule.derivative(a + 1, 0).copy(alloc)?;
        if !has_terms(&found, expected[usize::from(a)]) {
            return Ok(false);
        }
    }
    Ok(true)
}

/// The least words of the blocks of degree 1, and those of degree 2 with the relations.
const LETTERS: [&[&str]; 3] = [&["1"], &["2"], &["3"]];

const PAIRS: [(&[&str], &[Expected]); 3] = [
    (&[], &[("1.1", &[]), ("2.2", &[]), ("3.3", &[])]),
    (&["1.2", "2.3"], &[("3.1", &[("1.2", 100), ("2.3", 100)])]),
    (&["1.3", "2.1"], &[("3.2", &[("1.3", 100), ("2.1", 100)])]),
];

/// Three letters of degree 1, each a block of its own; and in degree 2 three blocks, in the order of their first words 1.1, 1.2 and
/// 1.3.
#[test]
fn blocks_of_the_three_transpositions(rt: HostRuntime) -> Result<(), Fail> {
    let alloc = rt.alloc();
    let braid = three_transpositions(alloc)?;
    let values = two_degrees(alloc, &braid, 100)?;
    assert_eq!(rt; values.one.len(), 3);
    for (value, words) in values.one.iter().zip(&LETTERS) {
        assert!(rt; is_rule(alloc, value, words, &[])?);
    }
    assert_eq!(rt; values.two.len(), 3);
    for (value, (words, relations)) in values.two.iter().zip(&PAIRS) {
        assert!(rt; is_rule(alloc, value, words, relations)?);
    }
    Ok(())
}

/// The derivative of the letter 1 by itself is the empty word, and by 2 and by 3 it is 0.
#[test]
fn derivatives_of_a_letter(rt: HostRuntime) -> Result<(), Fail> {
    let alloc = rt.alloc();
    let braid = three_transpositions(alloc)?;
    let none = Products::first(alloc, &braid)?;
    let empty = first_values(alloc, &braid, 100, &none)?;
    let letters = none.next(alloc, &braid).map_err(|_| "too many products")?;
    let values = next_values(alloc, &braid, 0, 100, &none, empty.as_slice(), &letters)?;
    assert_eq!(rt; values.len(), 3);
    assert!(rt; is_rule(alloc, &values[0], &["1"], &[])?);
    assert!(rt;
        has_derivatives(
            alloc,
            &braid,
            1,
            100,
            &letters,
            values.as_slice(),
            0,
            &[&[("", 1)], &[], &[]],
        )?
    );
    Ok(())
}

/// Under the limit 1 the block of both letters has two candidates, and the one above it is void; under the limit 2 the first has its
/// rule, and the four candidates above it are too many.
#[test]
fn trivial_rack(rt: HostRuntime) -> Result<(), Fail> {
    let alloc = rt.alloc();
    let braid = braid_with_constant(alloc, 2, &TWO, 1)?;
    let least = two_degrees(alloc, &braid, 1)?;
    assert_eq!(rt; least.one.len(), 1);
    assert!(rt; matches!(least.one[0].get(), Some(BlockValue::Over(2))));
    assert_eq!(rt; least.two.len(), 1);
    assert!(rt; matches!(least.two[0].get(), Some(BlockValue::Void)));
    let more = two_degrees(alloc, &braid, 2)?;
    assert_eq!(rt; more.one.len(), 1);
    assert_eq!(rt; more.two.len(), 1);
    assert!(rt; is_rule(alloc, &more.one[0], &["1", "2"], &[])?);
    assert!(rt; matches!(more.two[0].get(), Some(BlockValue::Over(4))));
    Ok(())
}

/// Where the block of degree 0 found no memory, each block above it is starved.
#[test]
fn starved_below(rt: HostRuntime) -> Result<(), Fail> {
    let alloc = rt.alloc();
    let braid = three_transpositions(alloc)?;
    let none = Products::first(alloc, &braid)?;
    let starved = no_values(alloc, &braid, 100, &none)?;
    let letters = none.next(alloc, &braid).map_err(|_| "too many products")?;
    let values = next_values(alloc, &braid, 0, 100, &none, starved.as_slice(), &letters)?;
    assert_eq!(rt; values.len(), 3);
    for value in &values {
        assert!(rt; matches!(value.get(), Some(BlockValue::Starved) | None));
    }
    Ok(())
}

/// What may be sent to another thread, and read by several.
fn crosses<T: Send + Sync>(_value: &T) -> bool {
    true
}

#[test]
fn values_and_levels_cross_threads(rt: HostRuntime) -> Result<(), Fail> {
    let alloc = rt.alloc();
    let braid = three_transpositions(alloc)?;
    let values = two_degrees(alloc, &braid, 100)?;
    for value in &values.two {
        assert!(rt; crosses(value));
        if let Some(own) = value.get() {
            assert!(rt; crosses(own));
        }
    }
    let levels = Levels::start(alloc, braid)?;
    assert!(rt; crosses(&levels));
    Ok(())
}
