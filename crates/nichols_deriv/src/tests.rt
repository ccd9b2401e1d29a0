use super::*;
use nichols_braid::Braid;
use nichols_testing::{has_terms, one_letter, three_transpositions, two_letters, word_over};
use nichols_words::Comb;
use std::alloc::Global;
use std::test::Fail;

/// The derivative of a word.
fn derivative(alloc: Global, braid: &Braid, a: u8, text: &str) -> Result<Comb, Fail> {
    let field = braid.field();
    let word = word_over(braid, text).ok_or("no word")?;
    let comb = Comb::single(alloc, field, word, field.from_i64(1))?;
    if a < 1 || a > braid.letters() {
        return Ok(comb);
    }
    let derivative = derive(alloc, braid, a, &comb)?;
    Ok(derivative)
}

type Row = (u8, &'static str, &'static [(&'static str, u32)]);

#[test]
fn over_the_three_transpositions(rt: HostRuntime) -> Result<(), Fail> {
    let three = three_transpositions(rt.alloc())?;
    let rows: [Row; 4] = [
        (1, "1.2.1", &[("1.2", 1), ("3.1", 1)]),
        (2, "1.2.1", &[("1.3", 100)]),
        (3, "1.2.1", &[]),
        (1, "", &[]),
    ];
    for (a, word, expected) in rows {
        let found = derivative(rt.alloc(), &three, a, word)?;
        assert!(rt; has_terms(&found, expected), "by {a}");
    }
    Ok(())
}

/// Over the trivial rack of two letters `q(2, 1)` is not `q(1, 2)`.
#[test]
fn the_letter_that_passes_stands_first(rt: HostRuntime) -> Result<(), Fail> {
    let two = two_letters(rt.alloc())?;
    let found = derivative(rt.alloc(), &two, 2, "2.1")?;
    assert!(rt; has_terms(&found, &[("1", 100)]));
    Ok(())
}

/// Over one letter with scalar 2 the derivatives of the powers are 1, 1 + 2 and 1 + 2 + 4, which is 0 over 7 elements.
#[test]
fn powers_of_one_letter(rt: HostRuntime) -> Result<(), Fail> {
    let one = one_letter(rt.alloc())?;
    let rows: [Row; 3] = [
        (1, "1", &[("", 1)]),
        (1, "1.1", &[("1", 3)]),
        (1, "1.1.1", &[]),
    ];
    for (a, word, expected) in rows {
        let found = derivative(rt.alloc(), &one, a, word)?;
        assert!(rt; has_terms(&found, expected));
    }
    Ok(())
}
