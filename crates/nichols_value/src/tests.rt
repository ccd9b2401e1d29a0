ghost use Rattle.std.specs.Prelude.{◌≡◌, ◌<◌, ◌∷◌, IfOk, [], is_some, length, true};
ghost use Rattle.nichols_value.specs.Rule.{derivs_in, left_in};

use super::*;
use nichols_braid::Product;
use nichols_echelon::{Cell, Rows};
use nichols_testing::{has_words, word};
use nichols_words::{Term, Word};
use std::alloc::{AllocError, Global};
use std::test::Fail;

/// The words 1 and 2.
fn letters(alloc: Global) -> Result<Words, AllocError>
    ensures { IfOk result (λ w. w ≡ (1 ∷ []) ∷ (2 ∷ []) ∷ []) }
{
    let mut words = Vec::new(alloc);
    words.push(Word::empty().followed_by(1))?;
    words.push(Word::empty().followed_by(2))?;
    Words::of(alloc, words)
}

/// The words 1.1, 1.2 and 2.2.
fn three_words(alloc: Global) -> Result<Words, AllocError>
    ensures { IfOk result (λ w. w ≡ (1 ∷ 1 ∷ []) ∷ (1 ∷ 2 ∷ []) ∷ (2 ∷ 2 ∷ []) ∷ []) }
{
    let mut words = Vec::new(alloc);
    words.push(Word::empty().followed_by(1).followed_by(1))?;
    words.push(Word::empty().followed_by(1).followed_by(2))?;
    words.push(Word::empty().followed_by(2).followed_by(2))?;
    Words::of(alloc, words)
}

fn cell(column: u32, coefficient: u32) -> Cell
    ensures { result ≡ record { column = column; coefficient = coefficient } }
{
    Cell {
        column,
        coefficient,
    }
}

/// The rows of 1.1 and 2.1, and those of 1.2 and 2.2, over 1.1, 1.2 and 2.2; and as well those of 1.1 and 1.2, and of 2.1 and 2.2.
fn form_rows(alloc: Global) -> Result<Vec<Rows>, AllocError>
    ensures { IfOk result (λ r. r.items ≡ record { rows = (record { column = 0; coefficient = 1 } ∷ []) ∷ (record { column = 1; coefficient = 1 } ∷ []) ∷ []; begun = [] }
        ∷ record { rows = (record { column = 1; coefficient = 1 } ∷ []) ∷ (record { column = 2; coefficient = 1 } ∷ []) ∷ []; begun = [] } ∷ []) }
{
    let mut lists = Vec::new(alloc);
    let mut rows = Rows::new(alloc);
    rows.push_row(&[cell(0, 1)])?;
    rows.push_row(&[cell(1, 1)])?;
    lists.push(rows)?;
    let mut rows = Rows::new(alloc);
    rows.push_row(&[cell(1, 1)])?;
    rows.push_row(&[cell(2, 1)])?;
    lists.push(rows)?;
    Ok(lists)
}

/// The rows of the derivatives of 1.1, 1.2 and 2.2 by each letter.
fn derivative_rows(alloc: Global) -> Result<Vec<Rows>, AllocError>
    ensures { IfOk result (λ r. r.items ≡ record { rows = (record { column = 0; coefficient = 2 } ∷ []) ∷ (record { column = 1; coefficient = 1 } ∷ []) ∷ [] ∷ []; begun = [] }
        ∷ record { rows = [] ∷ (record { column = 0; coefficient = 1 } ∷ []) ∷ (record { column = 1; coefficient = 2 } ∷ []) ∷ []; begun = [] } ∷ []) }
{
    let mut lists = Vec::new(alloc);
    let mut rows = Rows::new(alloc);
    rows.push_row(&[cell(0, 2)])?;
    rows.push_row(&[cell(1, 1)])?;
    rows.push_row(&[])?;
    lists.push(rows)?;
    let mut rows = Rows::new(alloc);
    rows.push_row(&[])?;
    rows.push_row(&[cell(0, 1)])?;
    rows.push_row(&[cell(1, 2)])?;
    lists.push(rows)?;
    Ok(lists)
}

/// The words 1 and 2 for each letter.
fn words_below(alloc: Global) -> Result<Vec<Words>, AllocError>
    ensures { IfOk result (λ r. r.items ≡ ((1 ∷ []) ∷ (2 ∷ []) ∷ []) ∷ ((1 ∷ []) ∷ (2 ∷ []) ∷ []) ∷ []) }
{
    let mut lists = Vec::new(alloc);
    lists.push(letters(alloc)?)?;
    lists.push(letters(alloc)?)?;
    Ok(lists)
}

/// Where 1.1, 1.2 and 2.2 stand without their last and without their first letter.
fn ends(alloc: Global) -> Result<Vec<Ends>, AllocError>
    ensures { IfOk result (λ r. r.items ≡ record { front = 0; back = 0 } ∷ record { front = 0; back = 1 } ∷ record { front = 1; back = 1 } ∷ []) }
{
    let mut ends = Vec::new(alloc);
    ends.push(Ends { front: 0, back: 0 })?;
    ends.push(Ends { front: 0, back: 1 })?;
    ends.push(Ends { front: 1, back: 1 })?;
    Ok(ends)
}

/// Where the form of 2.1 stands.
fn spots(alloc: Global) -> Result<Vec<Spot>, AllocError>
    ensures { IfOk result (λ r. r.items ≡ record { letter = 1; place = 1 } ∷ []) }
{
    let mut spots = Vec::new(alloc);
    spots.push(Spot {
        letter: 1,
        place: 1,
    })?;
    Ok(spots)
}

/// The rule of the block of degree 2 of two letters that commute, over the field of 101 elements: 2.1 is 1.2.
fn rule(alloc: Global) -> Result<BlockRule, AllocError>
    ensures derivatives { IfOk result (λ r. length (derivs_in r 2) ≡ 3) }
    ensures left { IfOk result (λ r. length (left_in r 2) ≡ 2) }
    ensures upper { IfOk result (λ r. is_some r.upper ≡ true) }
    ensures basis { IfOk result (λ r. length r.basis ≡ 3) }
{
    let key = BlockKey {
        degree: 2,
        product: Product::identity(2),
    };
    let basis = three_words(alloc)?;
    let below = words_below(alloc)?;
    let right = form_rows(alloc)?;
    let spots = spots(alloc)?;
    let derivs = derivative_rows(alloc)?;
    let left = form_rows(alloc)?;
    let ends = ends(alloc)?;
    Ok(BlockRule::new(key, basis, below, right, spots, derivs, left, ends))
}

/// Whether a form has these terms, in this order.
fn has_terms(form: &Form<'_>, expected: &[(&str, u32)]) -> bool {
    if form.len() != expected.len() {
        return false;
    }
    for k in 0..form.len() {
        let (text, coefficient) = expected[k];
        if form.term(k)
            != (Term {
                word: word(text),
                coefficient,
            })
        {
            return false;
        }
    }
    true
}

#[test]
fn rule_has_its_words(rt: HostRuntime) -> Result<(), Fail> {
    let rule = rule(rt.alloc())?;
    assert_eq!(rt; rule.letters(), 2);
    let words = ["1.1", "1.2", "2.2"];
    assert!(rt; has_words(rule.basis(), &words));
    assert!(rt; has_words(rule.shared_basis()?.as_slice(), &words));
    for b in 1..=rule.letters() {
        assert!(rt; has_words(rule.below(b), &["1", "2"]), "letter {b}");
    }
    for (k, places) in [(0, 0), (0, 1), (1, 1)].iter().enumerate() {
        let ends = rule.ends(k);
        assert_eq!(rt; (ends.front, ends.back), *places, "word {k}");
    }
    Ok(())
}

/// Whether the relation of a rule at this index is that of 2.1.
fn is_relation_of_21(alloc: Global, rule: &BlockRule, k: usize) -> Result<bool, AllocError>
    requires { k < length rule.now.table }
{
    let relation = rule.relation(k);
    let copy = relation.form.copy(alloc)?;
    Ok(
        relation.candidate == word("2.1")
            && copy.terms().len() == 1
            && has_terms(&relation.form, &[("1.2", 1)]),
    )
}

#[test]
fn rule_has_its_forms(rt: HostRuntime) -> Result<(), Fail> {
    let alloc = rt.alloc();
    let rule = rule(alloc)?;
    assert_eq!(rt; rule.relation_count(), 1);
    for k in 0..rule.relation_count() {
        assert!(rt; is_relation_of_21(alloc, &rule, k)?);
    }
    assert!(rt; has_terms(&rule.derivative(2, 0), &[]));
    assert!(rt; has_terms(&rule.derivative(2, 1), &[("1", 1)]));
    assert!(rt; has_terms(&rule.derivative(2, 2), &[("2", 2)]));
    assert_eq!(rt; rule.left_row(2, 0).len(), 1);
    Ok(())
}

fn is_in_basis(rule: &BlockRule, text: &str) -> bool {
    match rule.look(&word(text)) {
        Looked::Basis => true,
        _ => false,
    }
}

fn is_not_here(rule: &BlockRule, text: &str) -> bool {
    match rule.look(&word(text)) {
        Looked::NotHere => true,
        _ => false,
    }
}

/// Whether a word is the candidate of a relation with these terms.
fn has_form(rule: &BlockRule, text: &str, expected: &[(&str, u32)]) -> bool {
    match rule.look(&word(text)) {
        Looked::Form(form) => has_terms(&form, expected),
        _ => false,
    }
}

#[test]
fn words_are_looked_up(rt: HostRuntime) -> Result<(), Fail> {
    let rule = rule(rt.alloc())?;
    for text in ["1.1", "1.2", "2.2"] {
        assert!(rt; is_in_basis(&rule, text), "{text}");
    }
    assert!(rt; has_form(&rule, "2.1", &[("1.2", 1)]));
    for text in ["1.3", "3.2", "2.1.1", "1", ""] {
        assert!(rt; is_not_here(&rule, text), "{text}");
    }
    Ok(())
}

/// The number of relations of a value that is a rule.
fn relation_count(shared: &Shared) -> Option<usize> {
    match shared.get() {
        Some(BlockValue::Rule(rule)) => Some(rule.relation_count()),
        _ => None,
    }
}

#[test]
fn values_are_shared(rt: HostRuntime) -> Result<(), Fail> {
    let alloc = rt.alloc();
    let mut first = Shared::of(alloc, BlockValue::Rule(rule(alloc)?));
    assert_eq!(rt; relation_count(&first), Some(1));
    let second = first.copy()?;
    assert!(rt; !first.let_go());
    assert_eq!(rt; relation_count(&second), Some(1));
    drop(second);
    assert!(rt; first.let_go());
    assert_eq!(rt; relation_count(&first), Some(1));
    let mut none = Shared::Starved;
    assert!(rt; none.copy()?.get().is_none());
    assert!(rt; !none.let_go());
    Ok(())
}

fn may_cross_threads<T: Send + Sync + Drop>(_value: T) {}

#[test]
fn all_may_cross_threads(rt: HostRuntime) -> Result<(), Fail> {
    let alloc = rt.alloc();
    let rule = rule(alloc)?;
    may_cross_threads(rule.shared_basis()?);
    may_cross_threads(rule.derivative(2, 0));
    may_cross_threads(LowerValue {
        letter: 1,
        value: Shared::of(alloc, BlockValue::Rule(rule)),
    });
    Ok(())
}
