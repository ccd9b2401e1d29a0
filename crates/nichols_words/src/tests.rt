ghost use Rattle.std.specs.Prelude.{◌≡◌};

use super::*;
use nichols_field::Field;
use nichols_tensor::{LETTER_LIMIT, WORD_LIMIT};
use std::test::Fail;

/// The word that a text spells, as "3.1.24", or "" for the empty word. What is no letter, or has no room, is left out.
fn word(text: &str) -> Word {
    let mut word = Word::empty();
    for letter in text.split('.') {
        if let Ok(letter) = letter.parse() {
            if 1 <= letter && letter <= LETTER_LIMIT {
                let _put = word.push(letter);
            }
        }
    }
    word
}

/// Whether a combination has these terms, in this order.
fn has_terms(comb: &Comb, expected: &[Term]) -> bool {
    comb.terms() == expected
}

fn term(text: &str, coefficient: u32) -> Term
    ensures { result.coefficient ≡ coefficient }
{
    Term {
        word: word(text),
        coefficient,
    }
}

#[test]
fn letters_and_prefixes(rt: HostRuntime) -> Result<(), Fail> {
    let w = word("3.1.24");
    assert!(rt; Word::empty().is_empty() && !w.is_empty());
    assert_eq!(rt; w.len(), 3);
    assert_eq!(rt; w.letter(2), 24);
    assert!(rt; w.letters() == [3, 1, 24].as_slice());
    assert!(rt; w.prefix(2) == word("3.1"));
    assert!(rt; w.prefix(0) == Word::empty());
    let mut other = w;
    if other.is_empty() {
        return Err("no letters".into());
    }
    other.set(0, 2);
    assert!(rt; other == word("2.1.24"));
    Ok(())
}

#[test]
fn words_with_each_letter_behind(rt: HostRuntime) -> Result<(), Fail> {
    let shorter = [Word::empty(), Word::empty().followed_by(3)];
    let longer = with_letters(rt.alloc(), 2, &shorter)?;
    let expected = [word("1"), word("2"), word("3.1"), word("3.2")];
    assert!(rt; longer.as_slice() == expected.as_slice());
    Ok(())
}

#[test]
fn a_full_word_takes_no_letter(rt: HostRuntime) {
    let mut w = Word::empty();
    for _ in 0..WORD_LIMIT {
        assert!(rt; w.push(7));
    }
    let full = w;
    assert!(rt; !w.push(7));
    assert_eq!(rt; w.len(), WORD_LIMIT);
    assert!(rt; w == full);
}

/// Each word of the table stands before the next.
#[test]
fn shorter_words_come_first(rt: HostRuntime) {
    let rising = [
        word(""),
        word("1"),
        word("24"),
        word("1.1"),
        word("1.2"),
        word("2.1"),
        word("1.1.1"),
    ];
    for (i, left) in rising.iter().enumerate() {
        for (j, right) in rising.iter().enumerate() {
            assert_eq!(rt; left.cmp(right), i.cmp(&j), "at {i} and {j}");
        }
    }
}

/// `1*1.2` plus 100 times `1*1.2` is zero.
#[test]
fn a_sum_that_is_zero(rt: HostRuntime) -> Result<(), Fail> {
    let field = Field::new(101).ok().ok_or("the field")?;
    let f = Comb::single(rt.alloc(), field, word("1.2"), field.from_i64(1))?;
    assert!(rt; has_terms(&f, &[term("1.2", 1)]));
    let sum = f.add_scaled(rt.alloc(), field, field.from_i64(100), &f)?;
    assert!(rt; sum.is_zero());
    let zero = Comb::single(rt.alloc(), field, word("1.2"), field.from_i64(0))?;
    assert!(rt; zero.is_zero());
    Ok(())
}

/// 100 times `1*1.2` is `100*1.2`, and 0 times is zero.
#[test]
fn multiples_of_one_term(rt: HostRuntime) -> Result<(), Fail> {
    let field = Field::new(101).ok().ok_or("the field")?;
    let f = Comb::single(rt.alloc(), field, word("1.2"), field.from_i64(1))?;
    let multiple = f.scale(rt.alloc(), field, field.from_i64(100))?;
    assert!(rt; has_terms(&multiple, &[term("1.2", 100)]));
    let none = f.scale(rt.alloc(), field, field.from_i64(0))?;
    assert!(rt; none.is_zero());
    Ok(())
}

/// `1*1.2` plus 2 times `7*3` is `14*3 + 1*1.2`, and that with 100 times `1*1.2` is `14*3`.
#[test]
fn sums_of_several_terms(rt: HostRuntime) -> Result<(), Fail> {
    let field = Field::new(101).ok().ok_or("the field")?;
    let f = Comb::single(rt.alloc(), field, word("1.2"), field.from_i64(1))?;
    let g = Comb::single(rt.alloc(), field, word("3"), field.from_i64(7))?;
    let sum = f.add_scaled(rt.alloc(), field, field.from_i64(2), &g)?;
    assert!(rt; has_terms(&sum, &[term("3", 14), term("1.2", 1)]));
    let less = sum.add_scaled(rt.alloc(), field, field.from_i64(100), &f)?;
    assert!(rt; has_terms(&less, &[term("3", 14)]));
    Ok(())
}

/// `1*1.2 + 7*3 + 0*5 + 2*1.2 + 5*3.1 + 4*2 + 96*3.1` is `4*2 + 7*3 + 3*1.2`.
#[test]
fn a_sum_of_terms_in_any_order(rt: HostRuntime) -> Result<(), Fail> {
    let field = Field::new(101).ok().ok_or("the field")?;
    let mut terms = [
        term("1.2", field.from_i64(1)),
        term("3", field.from_i64(7)),
        term("5", field.from_i64(0)),
        term("1.2", field.from_i64(2)),
        term("3.1", field.from_i64(5)),
        term("2", field.from_i64(4)),
        term("3.1", field.from_i64(96)),
    ];
    let sum = Comb::sum_of(rt.alloc(), field, &mut terms)?;
    assert!(rt; has_terms(&sum, &[term("2", 4), term("3", 7), term("1.2", 3)]));
    let none = Comb::sum_of(rt.alloc(), field, &mut [])?;
    assert!(rt; none.is_zero());
    Ok(())
}

#[test]
fn terms_in_and_out(rt: HostRuntime) -> Result<(), Fail> {
    let mut f = Comb::zero(rt.alloc());
    f.push(term("2", 5))?;
    assert!(rt; has_terms(&f, &[term("2", 5)]));
    let g = Comb::from_terms(f.into_terms());
    assert!(rt; has_terms(&g, &[term("2", 5)]));
    Ok(())
}

#[test]
fn coefficients_at_words(rt: HostRuntime) -> Result<(), Fail> {
    let mut f = Comb::zero(rt.alloc());
    f.push(term("2", 5))?;
    assert_eq!(rt; f.coefficient(&word("2")), 5);
    assert_eq!(rt; f.coefficient(&word("1.1")), 0);
    Ok(())
}

#[test]
fn copies_are_equal(rt: HostRuntime) -> Result<(), Fail> {
    let mut f = Comb::zero(rt.alloc());
    f.push(term("2", 5))?;
    let relation = Relation {
        candidate: word("2.1"),
        form: f.copy(rt.alloc())?,
    };
    assert!(rt; has_terms(&relation.form, f.terms()));
    let other = relation.copy(rt.alloc())?;
    assert!(rt; other.candidate == relation.candidate);
    assert!(rt; has_terms(&other.form, f.terms()));
    Ok(())
}

fn may_cross_threads<T: Send + Sync + Drop>(_value: T) {}

#[test]
fn words_and_combinations_may_cross_threads(rt: HostRuntime) {
    may_cross_threads(Word::empty());
    may_cross_threads(term("1", 1));
    may_cross_threads(Comb::zero(rt.alloc()));
    may_cross_threads(Relation {
        candidate: Word::empty(),
        form: Comb::zero(rt.alloc()),
    });
}
