ghost use Rattle.std.specs.Prelude.{◌≡◌, IfOk, length};
ghost use Rattle.std.specs.List.{AllByRecursion};
ghost use Rattle.nichols_tensor.specs.Combination.{AllElements};
ghost use Rattle.nichols_tensor.specs.Words.{HasDegree, IsOver, IsWordOver};
ghost use Rattle.nichols_cover.specs.Level.{IsQuadraticRelation};

use super::*;
use nichols_field::Field;
use nichols_tensor::LETTER_LIMIT;
use nichols_words::{Comb, Relation, Word};
use std::alloc::Global;
use std::test::Fail;

/// A word of two letters with its coefficient.
type Product = (u8, u8, i64);

/// A candidate of two letters, and the terms of its form.
type Rule<'t> = (u8, u8, &'t [Product]);

/// The dimensions that are expected, and where the cover stops.
type Expected<'t> = (&'t [u64], Option<(u32, u64)>);

/// The word of two letters.
fn pair(letters: u8, x: u8, y: u8) -> Result<Word, Fail>
    ensures { IfOk result (λ w. (length w ≡ 2) × IsWordOver letters w) }
{
    if letters > LETTER_LIMIT || x < 1 || x > letters || y < 1 || y > letters {
        return Err("no letters".into());
    }
    Ok(Word::empty().followed_by(x).followed_by(y))
}

/// A combination of words of two letters, and another term.
fn with_term(
    alloc: Global,
    field: Field,
    letters: u8,
    sum: &Comb,
    term: &Product,
) -> Result<Comb, Fail>
    requires degree { HasDegree 2 sum.now }
    requires letters { IsOver letters sum.now }
    requires elements { AllElements field sum.now }
    ensures degree { IfOk result (HasDegree 2) }
    ensures letters { IfOk result (IsOver letters) }
    ensures elements { IfOk result (AllElements field) }
{
    let _modulus = field.modulus();
    let (x, y, coefficient) = *term;
    let word = pair(letters, x, y)?;
    let one = Comb::single(alloc, field, word, field.from_i64(coefficient))?;
    let both = sum.add_scaled(alloc, field, field.from_i64(1), &one)?;
    Ok(both)
}

/// The relation of a rule.
fn relation(alloc: Global, field: Field, letters: u8, rule: &Rule<'_>) -> Result<Relation, Fail>
    ensures { IfOk result (IsQuadraticRelation field letters) }
{
    let (x, y, terms) = *rule;
    let candidate = pair(letters, x, y)?;
    let mut form = Comb::zero(alloc);
    for term in terms {
        form = with_term(alloc, field, letters, &form, term)?;
    }
    Ok(Relation { candidate, form })
}

fn relations(
    alloc: Global,
    field: Field,
    letters: u8,
    rules: &[Rule<'_>],
) -> Result<Vec<Relation>, Fail>
    ensures { IfOk result (λ r. AllByRecursion (IsQuadraticRelation field letters) r.items) }
{
    let mut found = Vec::new(alloc);
    for rule in rules {
        found.push(relation(alloc, field, letters, rule)?)?;
    }
    Ok(found)
}

/// Whether the cover of some relations, over so many letters, up to a degree and under a limit, is as expected.
fn is_as_expected(
    alloc: Global,
    modulus: i64,
    letters: u8,
    rules: &[Rule<'_>],
    through: u32,
    limit: u32,
    expected: Expected<'_>,
) -> Result<bool, Fail> {
    let field = Field::new(modulus).ok().ok_or("no field")?;
    let rules = relations(alloc, field, letters, rules)?;
    let found = cover(alloc, field, letters, rules.as_slice(), through, limit)?;
    let stop = found.stop.map(|stop| (stop.degree, stop.count));
    Ok(found.dimensions.as_slice() == expected.0 && stop == expected.1)
}

/// The dimensions were found by elimination among all words, from the span of all `u r v`, by another program.
#[test]
fn covers_of_relations(rt: HostRuntime) -> Result<(), Fail> {
    let alloc = rt.alloc();
    let cases: [(
        i64,
        u8,
        &[(u8, u8, &[(u8, u8, i64)])],
        u32,
        u32,
        &[u64],
        Option<(u32, u64)>,
    ); 17] = [
        (
            101,
            3,
            &[
                (1, 1, &[]),
                (2, 2, &[]),
                (3, 1, &[(1, 2, -1), (2, 3, -1)]),
                (3, 2, &[(1, 3, -1), (2, 1, -1)]),
                (3, 3, &[]),
            ],
            5,
            1024,
            &[1, 3, 4, 3, 1, 0],
            None,
        ),
        (
            101,
            2,
            &[(1, 1, &[]), (2, 2, &[])],
            5,
            1024,
            &[1, 2, 2, 2, 2, 2],
            None,
        ),
        (7, 1, &[], 3, 1024, &[1, 1, 1, 1], None),
        (
            101,
            2,
            &[],
            12,
            1024,
            &[1, 2, 4, 8, 16, 32, 64, 128, 256, 512, 1024],
            Some((11, 2048)),
        ),
        (2, 1, &[(1, 1, &[])], 4, 24, &[1, 1, 0, 0, 0], None),
        (
            7,
            2,
            &[(2, 1, &[(1, 2, 3)])],
            6,
            24,
            &[1, 2, 3, 4, 5, 6, 7],
            None,
        ),
        (
            7,
            2,
            &[(1, 1, &[]), (2, 1, &[(1, 2, 6)]), (2, 2, &[])],
            4,
            24,
            &[1, 2, 1, 0, 0],
            None,
        ),
        (
            101,
            2,
            &[(1, 1, &[]), (1, 2, &[]), (2, 1, &[]), (2, 2, &[])],
            4,
            24,
            &[1, 2, 0, 0, 0],
            None,
        ),
        (
            5,
            2,
            &[(2, 2, &[(1, 1, 1), (1, 2, 2)])],
            7,
            40,
            &[1, 2, 3, 4, 5, 6, 7, 8],
            None,
        ),
        (
            101,
            2,
            &[(1, 2, &[(1, 1, 4)]), (2, 2, &[(2, 1, 7)])],
            6,
            40,
            &[1, 2, 2, 0, 0, 0, 0],
            None,
        ),
        (
            101,
            3,
            &[
                (2, 1, &[(1, 3, 1)]),
                (3, 2, &[(1, 1, 3), (2, 1, 2)]),
                (3, 3, &[(1, 2, 1)]),
            ],
            5,
            40,
            &[1, 3, 6, 9, 9, 3],
            None,
        ),
        (
            7,
            3,
            &[(2, 2, &[(1, 1, 1), (1, 3, 2)]), (3, 1, &[(1, 2, 4)])],
            5,
            90,
            &[1, 3, 7, 15, 31],
            Some((5, 93)),
        ),
        (
            101,
            2,
            &[(1, 2, &[(2, 1, 5)]), (2, 1, &[(1, 1, 1)])],
            6,
            30,
            &[1, 2, 2, 1, 1, 1, 1],
            None,
        ),
        (101, 2, &[], 6, 16, &[1, 2, 4, 8, 16], Some((5, 32))),
        (101, 2, &[], 6, 15, &[1, 2, 4, 8], Some((4, 16))),
        (101, 3, &[], 6, 2, &[1], Some((1, 3))),
        (101, 3, &[(1, 1, &[])], 0, 24, &[1], None),
    ];
    for (modulus, letters, rules, through, limit, dimensions, stop) in cases {
        assert!(rt;
            is_as_expected(
                alloc,
                modulus,
                letters,
                rules,
                through,
                limit,
                (dimensions, stop)
            )?,
            "{letters} letters, degrees up to {through}"
        );
    }
    Ok(())
}
