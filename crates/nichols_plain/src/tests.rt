use super::*;
use nichols_testing::{
    braid_with_constant, has_terms, has_words, one_letter, three_transpositions, word,
};
use nichols_words::Relation;
use std::test::Fail;

/// A candidate with the terms of its form.
type Expected = (&'static str, &'static [(&'static str, u32)]);

fn has_relations(relations: &[Relation], expected: &[Expected]) -> bool {
    relations.len() == expected.len()
        && relations.iter().zip(expected).all(|(relation, (text, form))| relation.candidate
            == word(text)
            && has_terms(&relation.form, form))
}

/// Over the three transpositions with scalar -1, dimensions 1, 3, 4, 3.
#[test]
fn degrees_over_the_three_transpositions(rt: HostRuntime) -> Result<(), Fail> {
    let three = three_transpositions(rt.alloc())?;
    if three.letters() != 3 {
        return Err("not three letters".into());
    }
    let none = plain_degree(rt.alloc(), &three, 0)?;
    assert!(rt; has_words(none.basis.as_slice(), &[""]) && none.relations.is_empty());
    let letters = plain_degree(rt.alloc(), &three, 1)?;
    assert!(rt;
        has_words(letters.basis.as_slice(), &["1", "2", "3"]) && letters.relations.is_empty()
    );
    let pairs = plain_degree(rt.alloc(), &three, 2)?;
    assert!(rt; has_words(pairs.basis.as_slice(), &["1.2", "1.3", "2.1", "2.3"]));
    let relations: [Expected; 5] = [
        ("1.1", &[]),
        ("2.2", &[]),
        ("3.1", &[("1.2", 100), ("2.3", 100)]),
        ("3.2", &[("1.3", 100), ("2.1", 100)]),
        ("3.3", &[]),
    ];
    assert!(rt; has_relations(pairs.relations.as_slice(), &relations));
    let triples = plain_degree(rt.alloc(), &three, 3)?;
    assert_eq!(rt; triples.basis.len(), 3);
    Ok(())
}

/// Over one letter with scalar -1 the square is zero, and with scalar 2 over 7 elements the cube.
#[test]
fn degrees_over_one_letter(rt: HostRuntime) -> Result<(), Fail> {
    let minus = braid_with_constant(rt.alloc(), 7, &[&[1]], -1)?;
    let two = one_letter(rt.alloc())?;
    if minus.letters() != 1 || two.letters() != 1 {
        return Err("not one letter".into());
    }
    let square = plain_degree(rt.alloc(), &minus, 2)?;
    assert!(rt; square.basis.is_empty());
    assert!(rt; has_relations(square.relations.as_slice(), &[("1.1", &[])]));
    let square = plain_degree(rt.alloc(), &two, 2)?;
    assert!(rt; has_words(square.basis.as_slice(), &["1.1"]) && square.relations.is_empty());
    let cube = plain_degree(rt.alloc(), &two, 3)?;
    assert!(rt; has_relations(cube.relations.as_slice(), &[("1.1.1", &[])]));
    Ok(())
}

/// Over the trivial rack of two letters with scalar 1 and two elements: squares are zero, and 2.1 is 1.2.
#[test]
fn degrees_over_two_elements(rt: HostRuntime) -> Result<(), Fail> {
    let two = braid_with_constant(rt.alloc(), 2, &[&[1, 2], &[1, 2]], 1)?;
    if two.letters() != 2 {
        return Err("not two letters".into());
    }
    let pairs = plain_degree(rt.alloc(), &two, 2)?;
    assert_eq!(rt; pairs.degree, 2);
    assert!(rt; has_words(pairs.basis.as_slice(), &["1.2"]));
    let relations: [Expected; 3] = [("1.1", &[]), ("2.1", &[("1.2", 1)]), ("2.2", &[])];
    assert!(rt; has_relations(pairs.relations.as_slice(), &relations));
    Ok(())
}
