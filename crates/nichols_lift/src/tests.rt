ghost use Rattle.std.specs.Prelude.{IfOk};
ghost use Rattle.nichols_tensor.specs.Combination.{AllElements};
ghost use Rattle.nichols_tensor.specs.Words.{IsOver};
ghost use Rattle.nichols_lift.specs.declared.TheConstants.{PLACE_LIMIT};
ghost use Rattle.nichols_lift.specs.Lengths.{AllAtMost};

use super::*;
use nichols_braid::Braid;
use nichols_testing::{
    braid_with_constant, has_terms, one_letter, three_transpositions, word, word_over,
};
use nichols_words::{Comb, Word};
use std::alloc::Global;
use std::test::Fail;

/// The image of a word of at most `PLACE_LIMIT` letters.
fn image(alloc: Global, braid: &Braid, text: &str) -> Result<Comb, Fail> {
    let field = braid.field();
    let word = word_over(braid, text).ok_or("no word")?;
    let comb = Comb::single(alloc, field, word, field.from_i64(1))?;
    if word.len() > PLACE_LIMIT {
        return Err("too many letters".into());
    }
    let image = symmetrize(alloc, braid, &comb)?;
    Ok(image)
}

#[test]
fn images_over_the_three_transpositions(rt: HostRuntime) -> Result<(), Fail> {
    let three = three_transpositions(rt.alloc())?;
    let rows: [(&str, &[(&str, u32)]); 3] = [
        ("", &[("", 1)]),
        ("2", &[("2", 1)]),
        ("1.2", &[("1.2", 1), ("3.1", 100)]),
    ];
    for (text, expected) in rows {
        let found = image(rt.alloc(), &three, text)?;
        assert!(rt; has_terms(&found, expected));
    }
    let zero = symmetrize(rt.alloc(), &three, &Comb::zero(rt.alloc()))?;
    assert!(rt; zero.is_zero());
    Ok(())
}

/// A sum of words of at most `PLACE_LIMIT` letters, and one word more.
fn with_word(alloc: Global, braid: &Braid, sum: &Comb, text: &str) -> Result<Comb, Fail>
    requires lengths { AllAtMost PLACE_LIMIT sum.now }
    requires letters { IsOver braid.now.letters sum.now }
    requires elements { AllElements braid.now.field sum.now }
    ensures lengths { IfOk result (AllAtMost PLACE_LIMIT) }
    ensures letters { IfOk result (IsOver braid.now.letters) }
    ensures elements { IfOk result (AllElements braid.now.field) }
{
    let field = braid.field();
    let one = field.from_i64(1);
    let word = word_over(braid, text).ok_or("no word")?;
    if word.len() > PLACE_LIMIT {
        return Err("too many letters".into());
    }
    let single = Comb::single(alloc, field, word, one)?;
    let longer = sum.add_scaled(alloc, field, one, &single)?;
    Ok(longer)
}

/// The images of `1.2`, `2.3` and `3.1` add up to zero, and `1*e` is its own image.
#[test]
fn the_image_of_a_sum(rt: HostRuntime) -> Result<(), Fail> {
    let three = three_transpositions(rt.alloc())?;
    let none = Comb::zero(rt.alloc());
    let empty = with_word(rt.alloc(), &three, &none, "")?;
    let first = with_word(rt.alloc(), &three, &empty, "1.2")?;
    let second = with_word(rt.alloc(), &three, &first, "2.3")?;
    let third = with_word(rt.alloc(), &three, &second, "3.1")?;
    assert_eq!(rt; third.terms().len(), 4);
    let found = symmetrize(rt.alloc(), &three, &third)?;
    assert!(rt; has_terms(&found, &[("", 1)]));
    Ok(())
}

/// Over one letter with scalar -1 the square goes to zero, and with scalar 2 over 7 elements the cube:
/// 1 times 3 times 7 is zero there.
#[test]
fn images_of_powers(rt: HostRuntime) -> Result<(), Fail> {
    let minus = braid_with_constant(rt.alloc(), 7, &[&[1]], -1)?;
    assert!(rt; image(rt.alloc(), &minus, "1.1")?.is_zero());
    let two = one_letter(rt.alloc())?;
    assert!(rt; has_terms(&image(rt.alloc(), &two, "1.1")?, &[("1.1", 3)]));
    assert!(rt; image(rt.alloc(), &two, "1.1.1")?.is_zero());
    Ok(())
}

#[test]
fn end_places(rt: HostRuntime) {
    let refused: [&[u8]; 5] = [&[1, 1], &[0], &[2], &[1, 3], &[1, 2, 3, 4, 5, 6, 7, 8]];
    for ends in refused {
        assert!(rt; Perm::new(ends).is_none());
    }
    let taken: [&[u8]; 3] = [&[], &[3, 1, 2], &[7, 6, 5, 4, 3, 2, 1]];
    for ends in taken {
        assert!(rt; Perm::new(ends).is_some_and(|perm| perm.ends() == ends));
    }
}

/// The lift of a word of as many letters as the permutation has places.
fn lifted(braid: &Braid, ends: &[u8], text: &str) -> Option<(Word, u32)> {
    let perm = Perm::new(ends)?;
    let word = word_over(braid, text)?;
    if word.len() != perm.ends().len() {
        return None;
    }
    Some(lift(braid, &perm, &word))
}

#[test]
fn lifts_over_the_three_transpositions(rt: HostRuntime) -> Result<(), Fail> {
    let three = three_transpositions(rt.alloc())?;
    let rows: [(&[u8], &str, u32); 3] = [
        (&[3, 2, 1], "1.3.1", 100),
        (&[3, 1, 2], "3.2.1", 1),
        (&[1, 2, 3], "1.2.3", 1),
    ];
    for (ends, text, scalar) in rows {
        let (found, met) = lifted(&three, ends, "1.2.3").ok_or("no lift")?;
        assert!(rt; found == word(text) && met == scalar);
    }
    Ok(())
}

#[test]
fn a_crossing(rt: HostRuntime) -> Result<(), Fail> {
    let three = three_transpositions(rt.alloc())?;
    let mut crossed = word_over(&three, "1.2.3").ok_or("no word")?;
    if crossed.len() != 3 {
        return Err("not three letters".into());
    }
    let met = cross_at(&three, &mut crossed, 2);
    assert!(rt; crossed == word("1.1.2") && met == 100);
    Ok(())
}

/// Both descending lists of the reversal of three places lead to its lift.
#[test]
fn both_lists_of_the_reversal(rt: HostRuntime) -> Result<(), Fail> {
    let three = three_transpositions(rt.alloc())?;
    let start = word_over(&three, "1.2.3").ok_or("no word")?;
    let reversal = Perm::new(&[3, 2, 1]).ok_or("no permutation")?;
    if start.len() != 3 {
        return Err("not three letters".into());
    }
    let (found, met) = lift(&three, &reversal, &start);
    assert!(rt; found == word("1.3.1") && met == 100);
    let first = lift_by(&three, &reversal, &[1, 2, 1], &start);
    assert!(rt; first.0 == found && first.1 == met);
    let second = lift_by(&three, &reversal, &[2, 1, 2], &start);
    assert!(rt; second.0 == found && second.1 == met);
    Ok(())
}
