ghost use Rattle.std.specs.Prelude.{◌≡◌, ◌<◌, ◌≤◌, IfOk, MatchOption, map, suc, ⊤};
ghost use Rattle.std.specs.List.{AllByRecursion, Contains};
ghost use Rattle.nichols_tensor.specs.Combination.{AllElements};
ghost use Rattle.nichols_tensor.specs.Words.{IsOver};
ghost use Rattle.nichols_braid.specs.declared.TheConstants.{MOST_DEGREES};
ghost use Rattle.nichols_braid.specs.Products.{products};
ghost use Rattle.nichols_value.specs.declared.value.BlockValue.TheVariants.{Rule};
ghost use Rattle.nichols_value.specs.Worth.{worth};
ghost use Rattle.nichols_block.specs.Levels.{rules_of};
ghost use Rattle.nichols_reduce.specs.Whole.{AreWhole, IsWholeRule};

use super::*;
use nichols_block::{BlockKey, BlockValue, Levels, Shared, lower_values, make};
use nichols_braid::{Braid, MOST_DEGREES, MOST_ROWS, Product, Products};
use nichols_memo::Memo;
use nichols_tensor::WORD_LIMIT;
use nichols_testing::{has_terms, tetrahedron, three_transpositions, word, word_over};
use nichols_words::Comb;
use std::alloc::{AllocError, Global};
use std::test::Fail;
use std::thread::Threads;

/// The rule of the block of the next degree and a product, or `None` where there was none.
fn next_value(
    alloc: Global,
    levels: &Levels,
    product: &Product,
) -> Result<Option<Shared>, AllocError>
    requires room { levels.now.last < MOST_DEGREES }
    requires there { Contains (products levels.now.braid (suc levels.now.last)) product.now }
    requires whole { AreWhole levels.now.braid levels.now.last }
    ensures { IfOk result (λ r. MatchOption r ⊤ (λ v. IsWholeRule levels.now.braid (suc levels.now.last) product.now (worth v))) }
{
    let key = BlockKey {
        degree: levels.last() + 1,
        product: *product,
    };
    let lower = lower_values(alloc, levels, &key)?;
    let value = make(alloc, levels.braid(), &key, lower.as_slice(), MOST_ROWS);
    let shared = Shared::of(alloc, value);
    match shared.get() {
        Some(BlockValue::Rule(_)) => Ok(Some(shared)),
        _ => Ok(None),
    }
}

/// The rules of the blocks of the next degree.
fn next_values(alloc: Global, levels: &Levels, next: &Products) -> Result<Vec<Shared>, Fail>
    requires room { levels.now.last < MOST_DEGREES }
    requires products { next.now ≡ products levels.now.braid (suc levels.now.last) }
    requires whole { AreWhole levels.now.braid levels.now.last }
    ensures rules { IfOk result (λ vs. map worth vs.items ≡ map Rule (rules_of levels.now.braid (suc levels.now.last))) }
    ensures whole { IfOk result (λ vs. AreWhole levels.now.braid (suc levels.now.last)) }
{
    let mut values = Vec::new(alloc);
    for k in 0..next.len() {
        let value = next_value(alloc, levels, next.at(k))?.ok_or("no rule")?;
        values.push(value)?;
    }
    Ok(values)
}

/// Levels of one degree more.
fn longer(alloc: Global, levels: Levels) -> Result<Levels, Fail>
    requires room { levels.last < MOST_DEGREES }
    requires whole { AreWhole levels.braid levels.last }
    ensures { IfOk result (λ l. AreWhole l.braid l.last) }
{
    let mut levels = levels;
    let next = levels
        .products(levels.last())
        .next(alloc, levels.braid())
        .map_err(|_| "wide")?;
    let values = next_values(alloc, &levels, &next)?;
    levels.push(next, values)?;
    Ok(levels)
}

/// The algebra of a braid up to a degree, or to where it closes.
fn levels_up_to(alloc: Global, braid: Braid, degree: u32) -> Result<Levels, Fail> {
    let mut levels = Levels::start(alloc, braid)?;
    for _step in 0..degree {
        if levels.last() < MOST_DEGREES && !levels.closed() {
            levels = longer(alloc, levels)?;
        }
    }
    Ok(levels)
}

type Listed = &'static [(&'static str, i64)];

/// A sum, and a multiple of a word more, where each letter is one of the braid.
fn with_term(
    alloc: Global,
    braid: &Braid,
    sum: &Comb,
    text: &str,
    coefficient: i64,
) -> Result<Comb, Fail>
    requires letters { IsOver braid.now.letters sum.now }
    requires elements { AllElements braid.now.field sum.now }
    ensures letters { IfOk result (IsOver braid.now.letters) }
    ensures elements { IfOk result (AllElements braid.now.field) }
{
    let field = braid.field();
    let word = word_over(braid, text).ok_or("no word")?;
    let single = Comb::single(alloc, field, word, field.from_i64(coefficient))?;
    let longer = sum.add_scaled(alloc, field, field.from_i64(1), &single)?;
    Ok(longer)
}

/// The combination of these terms, where each letter is one of the braid.
fn comb_over(alloc: Global, braid: &Braid, listed: &[(&str, i64)]) -> Result<Comb, Fail>
    ensures letters { IfOk result (IsOver braid.now.letters) }
    ensures elements { IfOk result (AllElements braid.now.field) }
{
    let _field = braid.field();
    let mut sum = Comb::zero(alloc);
    for (text, coefficient) in listed {
        sum = with_term(alloc, braid, &sum, text, *coefficient)?;
    }
    Ok(sum)
}

/// What is wanted: the terms of the form in order, or the last degree.
#[derive(Clone, Copy)]
enum Want {
    Terms(&'static [(&'static str, u32)]),
    Last(u32),
}

fn is_wanted(found: &Normal, want: Want) -> bool {
    match (found, want) {
        (Normal::Form(form), Want::Terms(expected)) => has_terms(form, expected),
        (Normal::Beyond(last), Want::Last(expected)) => *last == expected,
        _ => false,
    }
}

/// Whether each combination has the answer that stands beside it.
fn has_answers(alloc: Global, levels: &Levels, rows: &[(Listed, Want)]) -> Result<bool, Fail> {
    let (memo, mut seat) = Memo::start(alloc, levels.braid(), 16)?;
    for (listed, want) in rows {
        let comb = comb_over(alloc, levels.braid(), listed)?;
        if !is_wanted(&normal(alloc, levels, &memo, &mut seat, &comb)?, *want) {
            return Ok(false);
        }
    }
    Ok(true)
}

#[test]
fn three_transpositions_up_to_degree_4(rt: HostRuntime) -> Result<(), Fail> {
    let alloc = rt.alloc();
    let levels = levels_up_to(alloc, three_transpositions(alloc)?, 4)?;
    assert_eq!(rt; levels.last(), 4);
    assert!(rt; !levels.closed());
    let rows: [(Listed, Want); 6] = [
        (&[("2.1.3.1", 1)], Want::Terms(&[("1.2.1.3", 100)])),
        (&[("1.2.1.3.1", 1), ("1", 1)], Want::Last(4)),
        // A long word that cancels is no word of the combination.
        (
            &[("1.2.1.3.1", 1), ("2.1.2", 5), ("1.2.1.3.1", -1)],
            Want::Terms(&[("1.2.1", 5)]),
        ),
        (&[], Want::Terms(&[])),
        (&[("", 7)], Want::Terms(&[("", 7)])),
        (
            &[("", 2), ("3.1", 3), ("1.2", 3), ("3", 1), ("2.1.3.1", -1)],
            Want::Terms(&[("", 2), ("3", 1), ("2.3", 98), ("1.2.1.3", 1)]),
        ),
    ];
    assert!(rt; has_answers(alloc, &levels, &rows)?);
    Ok(())
}

#[test]
fn three_transpositions_up_to_degree_2(rt: HostRuntime) -> Result<(), Fail> {
    let alloc = rt.alloc();
    let levels = levels_up_to(alloc, three_transpositions(alloc)?, 2)?;
    let rows: [(Listed, Want); 4] = [
        (&[("1.2.1", 1), ("2.1.2", -1)], Want::Last(2)),
        (&[("3.1", 1)], Want::Terms(&[("1.2", 100), ("2.3", 100)])),
        (&[("", 1)], Want::Terms(&[("", 1)])),
        (&[("1.2.1.3.1.2.1.3.1", 1)], Want::Last(2)),
    ];
    assert!(rt; has_answers(alloc, &levels, &rows)?);
    Ok(())
}

const SIXTY: &str =
    "1.2.1.3.1.2.1.3.1.2.1.3.1.2.1.3.1.2.1.3.1.2.1.3.1.2.1.3.1.2.1.3.1.2.1.3.1.2.1.3.1.2.1.3.1.2.1.3.1.2.1.3.1.2.1.3.1.2.1.3";

#[test]
fn three_transpositions_closed(rt: HostRuntime) -> Result<(), Fail> {
    let alloc = rt.alloc();
    let levels = levels_up_to(alloc, three_transpositions(alloc)?, 12)?;
    assert!(rt; levels.closed());
    assert_eq!(rt; word(SIXTY).len(), WORD_LIMIT);
    let rows: [(Listed, Want); 7] = [
        (&[("1.2.1", 1), ("2.1.2", -1)], Want::Terms(&[])),
        (&[("3.1", 1)], Want::Terms(&[("1.2", 100), ("2.3", 100)])),
        (&[("", 1)], Want::Terms(&[("", 1)])),
        (&[("1.2.1.3.1.2.1.3.1", 1)], Want::Terms(&[])),
        (&[("1.2.1.3.1", 1)], Want::Terms(&[])),
        (
            &[(SIXTY, 1), ("2.1.3.1", 4)],
            Want::Terms(&[("1.2.1.3", 97)]),
        ),
        (&[], Want::Terms(&[])),
    ];
    assert!(rt; has_answers(alloc, &levels, &rows)?);
    Ok(())
}

/// Forms that were found by elimination on the images of all words under the quantum symmetrizer.
#[test]
fn tetrahedron_up_to_degree_5(rt: HostRuntime) -> Result<(), Fail> {
    let alloc = rt.alloc();
    let levels = levels_up_to(alloc, tetrahedron(alloc)?, 5)?;
    let rows: [(Listed, Want); 5] = [
        (
            &[("4.2.1", 1)],
            Want::Terms(&[("1.3.4", 100), ("2.1.4", 100), ("2.3.1", 100), ("3.1.2", 1)]),
        ),
        (
            &[("2.4.3.2", 1)],
            Want::Terms(&[("1.2.1.3", 1), ("2.1.3.4", 1), ("2.3.1.2", 100)]),
        ),
        (
            &[("4.1.3.4.1", 1)],
            Want::Terms(&[("1.2.1.3.4", 100), ("1.2.3.1.2", 1), ("2.3.1.2.4", 100)]),
        ),
        (
            &[("4.2.1.4.2", 10), ("4.3.2.4.3", 10)],
            Want::Terms(&[
                ("1.2.3.1.4", 91),
                ("1.3.1.2.4", 91),
                ("2.1.3.1.4", 10),
                ("2.3.1.2.3", 10),
                ("3.1.2.3.1", 10),
                ("3.1.2.3.4", 91),
            ]),
        ),
        (
            &[("4.1", 1), ("4.1.3", 2)],
            Want::Terms(&[
                ("1.2", 100),
                ("2.4", 100),
                ("1.2.3", 99),
                ("2.1.4", 2),
                ("2.3.1", 2),
            ]),
        ),
    ];
    assert!(rt; has_answers(alloc, &levels, &rows)?);
    Ok(())
}

/// A word of three letters is kept whole.
#[test]
fn the_form_of_a_word_is_found_again(rt: HostRuntime) -> Result<(), Fail> {
    let alloc = rt.alloc();
    let levels = levels_up_to(alloc, three_transpositions(alloc)?, 12)?;
    let (memo, mut seat) = Memo::start(alloc, levels.braid(), 16)?;
    let comb = comb_over(alloc, levels.braid(), &[("3.1.2", 1)])?;
    let want = Want::Terms(&[("2.1.3", 1)]);
    let first = normal(alloc, &levels, &memo, &mut seat, &comb)?;
    assert!(rt; is_wanted(&first, want));
    assert_eq!(rt; memo.hits(&seat), 0);
    let second = normal(alloc, &levels, &memo, &mut seat, &comb)?;
    assert!(rt; is_wanted(&second, want));
    assert_eq!(rt; memo.hits(&seat), 1);
    Ok(())
}

/// Two words of seven letters that share the first five: the second begins from the form of these.
#[test]
fn words_share_a_prefix(rt: HostRuntime) -> Result<(), Fail> {
    let alloc = rt.alloc();
    let levels = levels_up_to(alloc, tetrahedron(alloc)?, 7)?;
    let (memo, mut seat) = Memo::start(alloc, levels.braid(), 256)?;
    let one = comb_over(alloc, levels.braid(), &[("4.1.3.4.1.2.3", 1)])?;
    let other = comb_over(alloc, levels.braid(), &[("4.1.3.4.1.3.2", 1)])?;
    let prefix = comb_over(alloc, levels.braid(), &[("4.1.3.4.1", 1)])?;
    let _one = normal(alloc, &levels, &memo, &mut seat, &one)?;
    assert_eq!(rt; memo.hits(&seat), 0);
    let _other = normal(alloc, &levels, &memo, &mut seat, &other)?;
    assert_eq!(rt; memo.hits(&seat), 1);
    let form = normal(alloc, &levels, &memo, &mut seat, &prefix)?;
    assert_eq!(rt; memo.hits(&seat), 2);
    let want = Want::Terms(&[("1.2.1.3.4", 100), ("1.2.3.1.2", 1), ("2.3.1.2.4", 100)]);
    assert!(rt; is_wanted(&form, want));
    Ok(())
}

/// These combinations, where each letter is one of the braid.
fn combs_over(alloc: Global, braid: &Braid, rows: &[(Listed, Want)]) -> Result<Vec<Comb>, Fail>
    ensures letters { IfOk result (λ cs. AllByRecursion (IsOver braid.now.letters) cs.items) }
    ensures elements { IfOk result (λ cs. AllByRecursion (AllElements braid.now.field) cs.items) }
{
    let mut combs = Vec::new(alloc);
    for (listed, _) in rows {
        combs.push(comb_over(alloc, braid, listed)?)?;
    }
    Ok(combs)
}

/// Whether these combinations have the answers that stand beside them, by so many workers.
fn has_all_answers<R: Threads + Sync>(
    rt: &R,
    alloc: Global,
    levels: &Levels,
    rows: &[(Listed, Want)],
    workers: u32,
) -> Result<bool, Fail>
    requires { 1 ≤ workers }
{
    let combs = combs_over(alloc, levels.braid(), rows)?;
    let answers = normal_all(rt, alloc, levels, combs.as_slice(), workers)?;
    let wanted = answers
        .iter()
        .zip(rows)
        .all(|(found, row)| is_wanted(found, row.1));
    Ok(wanted && answers.len() == rows.len())
}

/// One worker, several, and more than there are combinations.
#[test]
fn many_forms_by_workers(rt: HostRuntime) -> Result<(), Fail> {
    let alloc = rt.alloc();
    let levels = levels_up_to(alloc, three_transpositions(alloc)?, 2)?;
    let rows: [(Listed, Want); 5] = [
        (&[("3.1", 1)], Want::Terms(&[("1.2", 100), ("2.3", 100)])),
        (&[("1.2.1", 1), ("2.1.2", -1)], Want::Last(2)),
        (&[], Want::Terms(&[])),
        (&[("3.1", 2)], Want::Terms(&[("1.2", 99), ("2.3", 99)])),
        (&[("", 1)], Want::Terms(&[("", 1)])),
    ];
    assert!(rt; has_all_answers(&rt, alloc, &levels, &rows, 1)?);
    assert!(rt; has_all_answers(&rt, alloc, &levels, &rows, 2)?);
    assert!(rt; has_all_answers(&rt, alloc, &levels, &rows, 16)?);
    Ok(())
}
