//! Reports of products of expressions, and products of two elements.

ghost use Rattle.std.specs.Prelude.{IfOk};
ghost use Rattle.nichols_tensor.specs.Combination.{AllElements};
ghost use Rattle.nichols_tensor.specs.Words.{IsOver};

use super::{BRIEF, CLOSED, DEGREES, Row, are_written};
use nichols_braid::Braid;
use nichols_crew::OpenGate;
use nichols_graded::Graded;
use nichols_memo::Memo;
use nichols_product::times;
use nichols_reduce::Normal;
use nichols_testing::{has_terms, three_transpositions, word_over};
use nichols_words::Comb;
use std::alloc::Global;
use std::test::Fail;
use std::thread::Threads;

/// The header of the three transpositions, all of whose degrees are made.
const HEADER: &str = "nichols p 101 letters 3 degree 12 rows 1024\n";

/// Their brief report up to degree 2, and up to degree 3.
const UP_TO_TWO: &str =
    "nichols p 101 letters 3 degree 2 rows 1024\ndegree 0 dimension 1\ndegree 1 dimension 3\ndegree 2 dimension 4\nstopped degree limit last 2\nhilbert 1 3 4\n";

const UP_TO_THREE: &str =
    "nichols p 101 letters 3 degree 3 rows 1024\ndegree 0 dimension 1\ndegree 1 dimension 3\ndegree 2 dimension 4\ndegree 3 dimension 3\nstopped degree limit last 3\nhilbert 1 3 4 3\n";

/// The three transpositions with three expressions.
const THREE_FACTORS: &str =
    "modulus = 101\nrack = [[1, 3, 2], [3, 2, 1], [2, 1, 3]]\ncocycle = [[-1, -1, -1], [-1, -1, -1], [-1, -1, -1]]\nexpressions = [\"3.1\", \"2\", \"1.2.1\"]\n";

/// The same with factors of several lengths; in the product of the first two the word 1.2 cancels.
const LONG_AND_SHORT: &str =
    "modulus = 101\nrack = [[1, 3, 2], [3, 2, 1], [2, 1, 3]]\ncocycle = -1\nexpressions = [\"e + 1 + 2.1\", \"2 - 1.2\", \"3\"]\n";

/// The same with three words of 60 letters.
const SIXTY_LETTERS: &str =
    "modulus = 101\nrack = [[1, 3, 2], [3, 2, 1], [2, 1, 3]]\ncocycle = -1\nexpressions = [\"1.2.1.3.1.2.1.3.1.2.1.3.1.2.1.3.1.2.1.3.1.2.1.3.1.2.1.3.1.2.1.3.1.2.1.3.1.2.1.3.1.2.1.3.1.2.1.3.1.2.1.3.1.2.1.3.1.2.1.3\", \"1.2.3.1.2.3.1.2.3.1.2.3.1.2.3.1.2.3.1.2.3.1.2.3.1.2.3.1.2.3.1.2.3.1.2.3.1.2.3.1.2.3.1.2.3.1.2.3.1.2.3.1.2.3.1.2.3.1.2.3\", \"3.2.1.3.2.1.3.2.1.3.2.1.3.2.1.3.2.1.3.2.1.3.2.1.3.2.1.3.2.1.3.2.1.3.2.1.3.2.1.3.2.1.3.2.1.3.2.1.3.2.1.3.2.1.3.2.1.3.2.1\"]\n";

/// The same with such a word in each factor, beside the empty word and a letter.
const SIXTY_LETTERS_AND_FEW: &str =
    "modulus = 101\nrack = [[1, 3, 2], [3, 2, 1], [2, 1, 3]]\ncocycle = -1\nexpressions = [\"2*e + 1.2.1.3.1.2.1.3.1.2.1.3.1.2.1.3.1.2.1.3.1.2.1.3.1.2.1.3.1.2.1.3.1.2.1.3.1.2.1.3.1.2.1.3.1.2.1.3.1.2.1.3.1.2.1.3.1.2.1.3\", \"3*e - 1 + 1.2.3.1.2.3.1.2.3.1.2.3.1.2.3.1.2.3.1.2.3.1.2.3.1.2.3.1.2.3.1.2.3.1.2.3.1.2.3.1.2.3.1.2.3.1.2.3.1.2.3.1.2.3.1.2.3.1.2.3\", \"e + 2 + 3.2.1.3.2.1.3.2.1.3.2.1.3.2.1.3.2.1.3.2.1.3.2.1.3.2.1.3.2.1.3.2.1.3.2.1.3.2.1.3.2.1.3.2.1.3.2.1.3.2.1.3.2.1.3.2.1.3.2.1\"]\n";

/// The same with a factor that is zero: the first, the one in the middle, and the last.
const ZERO_FIRST: &str =
    "modulus = 101\nrack = [[1, 3, 2], [3, 2, 1], [2, 1, 3]]\ncocycle = -1\nexpressions = [\"0\", \"1.2.1\", \"2\"]\n";

const ZERO_IN_THE_MIDDLE: &str =
    "modulus = 101\nrack = [[1, 3, 2], [3, 2, 1], [2, 1, 3]]\ncocycle = -1\nexpressions = [\"1.2.1\", \"1 - 1\", \"2\"]\n";

const ZERO_LAST: &str =
    "modulus = 101\nrack = [[1, 3, 2], [3, 2, 1], [2, 1, 3]]\ncocycle = -1\nexpressions = [\"1.2.1\", \"3\", \"0*1\"]\n";

/// Reports of products, found by hand from the table of products.
const REPORTS: [Row; 14] = [
    (
        &["product"],
        THREE_FACTORS,
        &[
            HEADER,
            DEGREES,
            CLOSED,
            "product 1 = 100*1.2 + 100*2.3\nproduct 2 = 1*2.1.3\nproduct 3 = 0\n",
        ],
        0,
    ),
    (
        &["product", "--degree", "3", "--brief"],
        THREE_FACTORS,
        &[
            UP_TO_THREE,
            "product 1 = 100*1.2 + 100*2.3\nproduct 2 = 1*2.1.3\nproduct 3 beyond 3\n",
        ],
        3,
    ),
    (
        &["product", "--brief"],
        LONG_AND_SHORT,
        &[
            HEADER,
            BRIEF,
            "product 1 = 1*e + 1*1 + 1*2.1\nproduct 2 = 1*2 + 1*1.2.1\nproduct 3 = 1*2.3 + 1*1.2.1.3\n",
        ],
        0,
    ),
    // the degrees of the factors decide, and not that of the normal form
    (
        &["product", "--degree=3", "--brief"],
        LONG_AND_SHORT,
        &[
            UP_TO_THREE,
            "product 1 = 1*e + 1*1 + 1*2.1\nproduct 2 beyond 3\nproduct 3 beyond 3\n",
        ],
        3,
    ),
    (
        &["product", "--brief"],
        SIXTY_LETTERS,
        &[
            HEADER,
            BRIEF,
            "product 1 = 0\nproduct 2 = 0\nproduct 3 = 0\n",
        ],
        0,
    ),
    (
        &["product", "--brief"],
        SIXTY_LETTERS_AND_FEW,
        &[
            HEADER,
            BRIEF,
            "product 1 = 2*e\nproduct 2 = 6*e + 99*1\nproduct 3 = 6*e + 99*1 + 6*2 + 99*1.2\n",
        ],
        0,
    ),
    (
        &["product", "--brief"],
        ZERO_FIRST,
        &[
            HEADER,
            BRIEF,
            "product 1 = 0\nproduct 2 = 0\nproduct 3 = 0\n",
        ],
        0,
    ),
    (
        &["product", "--brief"],
        ZERO_IN_THE_MIDDLE,
        &[
            HEADER,
            BRIEF,
            "product 1 = 1*1.2.1\nproduct 2 = 0\nproduct 3 = 0\n",
        ],
        0,
    ),
    (
        &["product", "--brief"],
        ZERO_LAST,
        &[
            HEADER,
            BRIEF,
            "product 1 = 1*1.2.1\nproduct 2 = 1*1.2.1.3\nproduct 3 = 0\n",
        ],
        0,
    ),
    // what is zero is known also where the algebra is stopped below it, and behind what isn't known
    (
        &["product", "--degree", "2", "--brief"],
        ZERO_FIRST,
        &[UP_TO_TWO, "product 1 = 0\nproduct 2 = 0\nproduct 3 = 0\n"],
        3,
    ),
    (
        &["product", "--degree", "2", "--brief"],
        ZERO_IN_THE_MIDDLE,
        &[
            UP_TO_TWO,
            "product 1 beyond 2\nproduct 2 = 0\nproduct 3 = 0\n",
        ],
        3,
    ),
    (
        &["product", "--degree", "2", "--brief"],
        ZERO_LAST,
        &[
            UP_TO_TWO,
            "product 1 beyond 2\nproduct 2 beyond 2\nproduct 3 = 0\n",
        ],
        3,
    ),
    // ranks and letters
    (
        &["product", "--brief"],
        "modulus = 101\nrack = [[1, 2], [1, 2]]\ncocycle = [[-1, 2], [51, -1]]\norder = [2, 1]\nexpressions = [\"1\", \"2\", \"2\"]\n",
        &[
            "nichols p 101 letters 2 degree 12 rows 1024 order 2 1\ndegree 0 dimension 1\ndegree 1 dimension 2\ndegree 2 dimension 1\ndegree 3 dimension 0\nclosed top 2 dimension 4\nhilbert 1 2 1 0\nfactors 2 2\n",
            "product 1 = 1*1\nproduct 2 = 2*2.1\nproduct 3 = 0\n",
        ],
        0,
    ),
    (
        &["product", "--degree=2", "--brief"],
        "modulus = 101\nrack = [[1, 3, 2], [3, 2, 1], [2, 1, 3]]\ncocycle = -1\n",
        &[UP_TO_TWO],
        3,
    ),
];

/// A product of two forms that are printed, and the normal form of the same product written out.
const ALIKE: [Row; 2] = [
    (
        &["product", "--brief"],
        "modulus = 101\nrack = [[1, 3, 2], [3, 2, 1], [2, 1, 3]]\ncocycle = -1\nexpressions = [\"100*1.2 + 100*2.3\", \"100*1.3 + 100*2.1\"]\n",
        &[
            HEADER,
            BRIEF,
            "product 1 = 100*1.2 + 100*2.3\nproduct 2 = 1*1.2.1.3\n",
        ],
        0,
    ),
    (
        &["reduce", "--brief"],
        "modulus = 101\nrack = [[1, 3, 2], [3, 2, 1], [2, 1, 3]]\ncocycle = -1\nexpressions = [\"100*1.2 + 100*2.3\", \"1.2.1.3 + 1.2.2.1 + 2.3.1.3 + 2.3.2.1\"]\n",
        &[
            HEADER,
            BRIEF,
            "form 1 = 100*1.2 + 100*2.3\nform 2 = 1*1.2.1.3\n",
        ],
        0,
    ),
];

#[test]
fn products_are_written(rt: HostRuntime) -> Result<(), Fail> {
    let alloc = rt.alloc();
    for row in REPORTS {
        assert!(rt; are_written(&rt, alloc, row)?, "{:?} of {}", row.0, row.1);
    }
    for row in ALIKE {
        assert!(rt; are_written(&rt, alloc, row)?, "{:?} of {}", row.0, row.1);
    }
    Ok(())
}

/// A word over the letters of a braid.
fn element(alloc: Global, braid: &Braid, text: &str) -> Result<Comb, Fail>
    ensures letters { IfOk result (IsOver braid.now.letters) }
    ensures elements { IfOk result (AllElements braid.now.field) }
{
    let field = braid.field();
    let word = word_over(braid, text).ok_or("no word")?;
    let element = Comb::single(alloc, field, word, field.from_i64(1))?;
    Ok(element)
}

/// Whether the product of two words is this in the three transpositions, where these degrees are made: the terms of a form, or `None`
/// where it is beyond the last degree.
fn is_product<R: Threads + Sync>(
    rt: &R,
    alloc: Global,
    degrees: u32,
    (left, right): (&str, &str),
    wanted: Option<&[(&str, u32)]>,
) -> Result<bool, Fail> {
    let mut gate = OpenGate::new();
    let mut graded = Graded::start(alloc, three_transpositions(alloc)?, 12, 1024, 1)?;
    for _degree in 0..degrees {
        if !graded.ended() {
            graded.advance(rt, alloc, 2, &mut gate)?;
        }
    }
    let levels = graded.levels();
    let (memo, mut seat) = Memo::start(alloc, levels.braid(), 1)?;
    let f = element(alloc, levels.braid(), left)?;
    let g = element(alloc, levels.braid(), right)?;
    let answer = times(alloc, levels, &memo, &mut seat, &f, &g)?;
    Ok(match (&answer, wanted) {
        (Normal::Form(form), Some(terms)) => has_terms(form, terms),
        (Normal::Beyond(last), None) => *last == degrees,
        _ => false,
    })
}

#[test]
fn two_elements_are_multiplied(rt: HostRuntime) -> Result<(), Fail> {
    let alloc = rt.alloc();
    assert!(rt; is_product(&rt, alloc, 5, ("1", "2"), Some(&[("1.2", 1)]))?);
    assert!(rt; is_product(&rt, alloc, 5, ("3.1", "2"), Some(&[("2.1.3", 1)]))?);
    assert!(rt; is_product(&rt, alloc, 2, ("1", "2"), Some(&[("1.2", 1)]))?);
    assert!(rt; is_product(&rt, alloc, 2, ("3.1", "2"), None)?);
    Ok(())
}
