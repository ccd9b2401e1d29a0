use super::*;
use nichols_echelon::{Cell, Place, Row};
use nichols_words::{Relation, Word};
use std::test::Fail;

/// Whether a relation has this candidate, and a form of these terms.
fn is_relation(relation: &Relation, candidate: &Word, form: &[(Word, u32)]) -> bool {
    let terms = relation.form.terms();
    relation.candidate == *candidate
        && terms.len() == form.len()
        && terms.iter().zip(form).all(|(term, (word, coefficient))| term.word == *word
            && term.coefficient == *coefficient)
}

/// Of the words 1, 2, 3 and 1.1, the second is 5 times the first, and the last is 7 times the first and 2 times the third.
#[test]
fn words_by_their_places(rt: HostRuntime) -> Result<(), Fail> {
    let alloc = rt.alloc();
    let one = Word::empty().followed_by(1);
    let two = Word::empty().followed_by(2);
    let three = Word::empty().followed_by(3);
    let words = [one, two, three, one.followed_by(1)];
    let first = Cell {
        column: 0,
        coefficient: 5,
    };
    let second = [
        Cell {
            column: 0,
            coefficient: 7,
        },
        Cell {
            column: 2,
            coefficient: 2,
        },
    ];
    let places = [
        Place::Independent,
        Place::Depends(Row::of(vec![in alloc; first; 1]?)),
        Place::Independent,
        Place::Depends(Row::of(second.to_vec(alloc)?)),
    ];
    let independent = independent_words(alloc, &words, &places)?;
    assert!(rt; independent.as_slice() == [one, three].as_slice());
    let found = relations(alloc, &words, &places)?;
    let expected: [(Word, &[(Word, u32)]); 2] = [
        (two, &[(one, 5)]),
        (one.followed_by(1), &[(one, 7), (three, 2)]),
    ];
    assert_eq!(rt; found.len(), expected.len());
    for (relation, (candidate, form)) in found.iter().zip(&expected) {
        assert!(rt; is_relation(relation, candidate, form));
    }
    Ok(())
}
