//! Reports of algebras.

use super::{
    AFFINE_FIVE, BRIEF, CLOSED, DEGREES, Run, SIX_TRANSPOSITIONS, TETRAHEDRON, TETRAHEDRON_TWO,
    THREE, THREE_BY_A_CONSTANT, THREE_OVER_FOUR, are_written, ran,
};
use std::alloc::Global;
use std::test::Fail;

/// The report of the tetrahedron up to degree 3, which another program wrote.
const UP_TO_THREE: &str =
    "nichols p 101 letters 4 degree 3 rows 1024\ndegree 0 dimension 1\nbasis e\ndegree 1 dimension 4\nbasis 1 2 3 4\ndegree 2 dimension 8\nbasis 1.2 1.3 1.4 2.1 2.3 2.4 3.1 3.4\nrelation 1.1 = 0\nrelation 2.2 = 0\nrelation 3.2 = 100*1.3 + 100*2.1\nrelation 3.3 = 0\nrelation 4.1 = 100*1.2 + 100*2.4\nrelation 4.2 = 100*2.3 + 100*3.4\nrelation 4.3 = 100*1.4 + 100*3.1\nrelation 4.4 = 0\ndegree 3 dimension 11\nbasis 1.2.1 1.2.3 1.2.4 1.3.1 1.3.4 2.1.3 2.1.4 2.3.1 2.3.4 3.1.2 3.1.4\nrelation 1.2.2 = 0\nrelation 1.3.2 = 100*1.2.1\nrelation 1.3.3 = 0\nrelation 1.4.1 = 100*1.2.4\nrelation 1.4.2 = 100*1.2.3 + 100*1.3.4\nrelation 1.4.3 = 100*1.3.1\nrelation 1.4.4 = 0\nrelation 2.1.1 = 0\nrelation 2.1.2 = 1*1.2.1\nrelation 2.3.2 = 100*2.1.3\nrelation 2.3.3 = 0\nrelation 2.4.1 = 100*1.2.1\nrelation 2.4.2 = 100*2.3.4\nrelation 2.4.3 = 100*2.1.4 + 100*2.3.1\nrelation 2.4.4 = 0\nrelation 3.1.1 = 0\nrelation 3.1.3 = 1*1.3.1\nrelation 3.4.1 = 1*1.3.4 + 1*2.1.4 + 100*3.1.2\nrelation 3.4.2 = 1*2.1.3\nrelation 3.4.3 = 100*3.1.4\nrelation 3.4.4 = 0\nstopped degree limit last 3\nhilbert 1 4 8 11\n";

/// Two letters that stand still, with a table of scalars.
const TABLE: &str = "modulus = 101\nrack = [[1, 2], [1, 2]]\ncocycle = [[-1, 1], [-1, -1]]\n";

/// The degrees 0 to 4 of the three transpositions, with the scalar 1 over two elements.
const DEGREES_OF_TWO: &str =
    "degree 0 dimension 1\nbasis e\ndegree 1 dimension 3\nbasis 1 2 3\ndegree 2 dimension 4\nbasis 1.2 1.3 2.1 2.3\nrelation 1.1 = 0\nrelation 2.2 = 0\nrelation 3.1 = 1*1.2 + 1*2.3\nrelation 3.2 = 1*1.3 + 1*2.1\nrelation 3.3 = 0\ndegree 3 dimension 3\nbasis 1.2.1 1.2.3 2.1.3\nrelation 1.2.2 = 0\nrelation 1.3.1 = 1*1.2.3\nrelation 1.3.2 = 1*1.2.1\nrelation 1.3.3 = 0\nrelation 2.1.1 = 0\nrelation 2.1.2 = 1*1.2.1\nrelation 2.3.1 = 1*1.2.1\nrelation 2.3.2 = 1*2.1.3\nrelation 2.3.3 = 0\ndegree 4 dimension 1\nbasis 1.2.1.3\nrelation 1.2.1.1 = 0\nrelation 1.2.1.2 = 0\nrelation 1.2.3.1 = 0\nrelation 1.2.3.2 = 1*1.2.1.3\nrelation 1.2.3.3 = 0\nrelation 2.1.3.1 = 1*1.2.1.3\nrelation 2.1.3.2 = 0\nrelation 2.1.3.3 = 0\n";

/// The degrees 0 to 4 of the table.
const DEGREES_OF_TABLE: &str =
    "degree 0 dimension 1\nbasis e\ndegree 1 dimension 2\nbasis 1 2\ndegree 2 dimension 2\nbasis 1.2 2.1\nrelation 1.1 = 0\nrelation 2.2 = 0\ndegree 3 dimension 2\nbasis 1.2.1 2.1.2\nrelation 1.2.2 = 0\nrelation 2.1.1 = 0\ndegree 4 dimension 1\nbasis 1.2.1.2\nrelation 1.2.1.1 = 0\nrelation 2.1.2.1 = 100*1.2.1.2\nrelation 2.1.2.2 = 0\n";

/// Two letters that act alike, and the scalar 1 at every place: the polynomials in two commuting letters.
const TWO_ALIKE: &str = "modulus = 101\nrack = [[1, 2], [1, 2]]\ncocycle = 1\n";

const UP_TO_TWO_ALIKE: &str =
    "degree 0 dimension 1\nbasis e\ndegree 1 dimension 2\nbasis 1 2\ndegree 2 dimension 3\nbasis 1.1 1.2 2.2\nrelation 2.1 = 1*1.2\n";

/// The words, the document, the pieces of the text and the status, computed by hand or from the rules or by another
/// program, of algebras that close or are stopped.
const REPORTS: [(&[&str], &str, &[&str], u8); 17] = [
    (
        &["algebra", "--degree", "3"],
        TETRAHEDRON,
        &[UP_TO_THREE],
        3,
    ),
    (
        &["algebra"],
        THREE_BY_A_CONSTANT,
        &[
            "nichols p 101 letters 3 degree 12 rows 1024\n",
            DEGREES,
            CLOSED,
        ],
        0,
    ),
    (
        &["algebra", "--degree", "0"],
        THREE,
        &[
            "nichols p 101 letters 3 degree 0 rows 1024\ndegree 0 dimension 1\nbasis e\nstopped degree limit last 0\nhilbert 1\n",
        ],
        3,
    ),
    (
        &["algebra", "--degree", "2"],
        "modulus = 7\nrack = [[1]]\ncocycle = -1\n",
        &[
            "nichols p 7 letters 1 degree 2 rows 1024\ndegree 0 dimension 1\nbasis e\ndegree 1 dimension 1\nbasis 1\ndegree 2 dimension 0\nbasis\nrelation 1.1 = 0\nclosed top 1 dimension 2\nhilbert 1 1 0\nfactors 2\n",
        ],
        0,
    ),
    (
        &["algebra"],
        "modulus = 7\nrack = [[1]]\ncocycle = 2\n",
        &[
            "nichols p 7 letters 1 degree 12 rows 1024\ndegree 0 dimension 1\nbasis e\ndegree 1 dimension 1\nbasis 1\ndegree 2 dimension 1\nbasis 1.1\ndegree 3 dimension 0\nbasis\nrelation 1.1.1 = 0\nclosed top 2 dimension 3\nhilbert 1 1 1 0\nfactors 3\n",
        ],
        0,
    ),
    (
        &["algebra", "--degree", "009"],
        "modulus = 5\nrack = [[1]]\ncocycle = 1\n",
        &[
            "nichols p 5 letters 1 degree 9 rows 1024\ndegree 0 dimension 1\nbasis e\ndegree 1 dimension 1\nbasis 1\ndegree 2 dimension 1\nbasis 1.1\ndegree 3 dimension 1\nbasis 1.1.1\ndegree 4 dimension 1\nbasis 1.1.1.1\ndegree 5 dimension 0\nbasis\nrelation 1.1.1.1.1 = 0\nclosed top 4 dimension 5\nhilbert 1 1 1 1 1 0\nfactors 5\n",
        ],
        0,
    ),
    (
        &["algebra"],
        "modulus = 2\nrack = [[1, 2], [1, 2]]\ncocycle = 1\n",
        &[
            "nichols p 2 letters 2 degree 12 rows 1024\ndegree 0 dimension 1\nbasis e\ndegree 1 dimension 2\nbasis 1 2\ndegree 2 dimension 1\nbasis 1.2\nrelation 1.1 = 0\nrelation 2.1 = 1*1.2\nrelation 2.2 = 0\ndegree 3 dimension 0\nbasis\nrelation 1.2.1 = 0\nrelation 1.2.2 = 0\nclosed top 2 dimension 4\nhilbert 1 2 1 0\nfactors 2 2\n",
        ],
        0,
    ),
    (
        &["algebra", "--degree", "4"],
        TABLE,
        &[
            "nichols p 101 letters 2 degree 4 rows 1024\n",
            DEGREES_OF_TABLE,
            "stopped degree limit last 4\nhilbert 1 2 2 2 1\n",
        ],
        3,
    ),
    (
        &["algebra"],
        TABLE,
        &[
            "nichols p 101 letters 2 degree 12 rows 1024\n",
            DEGREES_OF_TABLE,
            "degree 5 dimension 0\nbasis\nrelation 1.2.1.2.1 = 0\nrelation 1.2.1.2.2 = 0\nclosed top 4 dimension 8\nhilbert 1 2 2 2 1 0\nfactors 4 2\n",
        ],
        0,
    ),
    (
        &["algebra"],
        THREE,
        &[
            "nichols p 101 letters 3 degree 12 rows 1024\n",
            DEGREES,
            CLOSED,
        ],
        0,
    ),
    (
        &["algebra", "--degree", "4"],
        THREE,
        &[
            "nichols p 101 letters 3 degree 4 rows 1024\n",
            DEGREES,
            "stopped degree limit last 4\nhilbert 1 3 4 3 1\n",
        ],
        3,
    ),
    (
        &["algebra"],
        "modulus = 2\nrack = [[1, 3, 2], [3, 2, 1], [2, 1, 3]]\ncocycle = 1\n",
        &[
            "nichols p 2 letters 3 degree 12 rows 1024\n",
            DEGREES_OF_TWO,
            CLOSED,
        ],
        0,
    ),
    (
        &["algebra", "--degree=04"],
        THREE,
        &[
            "nichols p 101 letters 3 degree 4 rows 1024\n",
            DEGREES,
            "stopped degree limit last 4\nhilbert 1 3 4 3 1\n",
        ],
        3,
    ),
    (
        &["algebra", "--brief", "--workers", "1", "--window=8"],
        THREE,
        &["nichols p 101 letters 3 degree 12 rows 1024\n", BRIEF],
        0,
    ),
    (
        &["algebra", "--rows", "5"],
        TWO_ALIKE,
        &[
            "nichols p 101 letters 2 degree 12 rows 5\n",
            UP_TO_TWO_ALIKE,
            "stopped rows degree 3 product 1 count 6 last 2\nhilbert 1 2 3\n",
        ],
        3,
    ),
    (
        &["algebra", "--rows=6"],
        TWO_ALIKE,
        &[
            "nichols p 101 letters 2 degree 12 rows 6\n",
            UP_TO_TWO_ALIKE,
            "degree 3 dimension 4\nbasis 1.1.1 1.1.2 1.2.2 2.2.2\nrelation 1.2.1 = 1*1.1.2\nrelation 2.2.1 = 1*1.2.2\n",
            "stopped rows degree 4 product 1 count 8 last 3\nhilbert 1 2 3 4\n",
        ],
        3,
    ),
    (
        &["algebra", "--rows", "1"],
        TWO_ALIKE,
        &[
            "nichols p 101 letters 2 degree 12 rows 1\ndegree 0 dimension 1\nbasis e\nstopped rows degree 1 product 1 count 2 last 0\nhilbert 1\n",
        ],
        3,
    ),
];

#[test]
fn reports_are_written_whole(rt: HostRuntime) -> Result<(), Fail> {
    let alloc = rt.alloc();
    for row in REPORTS {
        assert!(rt; are_written(&rt, alloc, row)?, "{:?} of {}", row.0, row.1);
    }
    Ok(())
}

/// A document of eight times the three transpositions, whose letters act trivially on those of the others.
fn eight_threes(alloc: Global) -> Result<String, Fail> {
    let mut text = String::from_str(alloc, "modulus = 101\ncocycle = -1\nrack = [")?;
    for i in 0..24u32 {
        text.push_str("[")?;
        for j in 0..24u32 {
            let third = if i / 3 == j / 3 && i != j {
                i / 3 * 3 + (6 - i % 3 - j % 3) % 3
            } else {
                j
            };
            write!(text, "{}, ", third + 1)?;
        }
        text.push_str("], ")?;
    }
    text.push_str("]\n")?;
    Ok(text)
}

/// Letters of different groups anticommute, so the dimensions are the coefficients of `(1 + 3t + 4t^2 + 3t^3 + t^4)^8`. There
/// are 1,872 products of three letters and 9,075 of four.
#[test]
fn a_rack_of_24_letters_has_too_many_products(rt: HostRuntime) -> Result<(), Fail> {
    let alloc = rt.alloc();
    let document = eight_threes(alloc)?;
    let given = Run::steady(&["algebra", "--brief"], document.as_bytes());
    let (written, ended) = ran(&rt, alloc, given)?;
    let text =
        "nichols p 101 letters 24 degree 12 rows 1024\ndegree 0 dimension 1\ndegree 1 dimension 24\ndegree 2 dimension 284\ndegree 3 dimension 2208\nstopped wide degree 4 last 3\nhilbert 1 24 284 2208\n";
    assert_eq!(rt; written.as_slice(), text.as_bytes());
    assert_eq!(rt; ended, 3);
    Ok(())
}

/// The documents of `examples/` with the three last lines of their reports: the known dimensions, and the factors by another program.
const CLOSED_ALGEBRAS: [(&str, &str); 6] = [
    (
        THREE,
        "closed top 4 dimension 12\nhilbert 1 3 4 3 1 0\nfactors 3 2 2\n",
    ),
    (
        TETRAHEDRON,
        "closed top 9 dimension 72\nhilbert 1 4 8 11 12 12 11 8 4 1 0\nfactors 6 3 2 2\n",
    ),
    (
        TETRAHEDRON_TWO,
        "closed top 6 dimension 36\nhilbert 1 4 8 10 8 4 1 0\nfactors 3 3 2 2\n",
    ),
    (
        SIX_TRANSPOSITIONS,
        "closed top 12 dimension 576\nhilbert 1 6 19 42 71 96 106 96 71 42 19 6 1 0\nfactors 4 4 3 3 2 2\n",
    ),
    (
        THREE_OVER_FOUR,
        "closed top 20 dimension 432\nhilbert 1 3 7 12 18 24 29 33 35 36 36 36 35 33 29 24 18 12 7 3 1 0\nfactors none\n",
    ),
    (
        AFFINE_FIVE,
        "closed top 16 dimension 1280\nhilbert 1 5 15 35 66 105 145 175 186 175 145 105 66 35 15 5 1 0\nfactors 5 4 4 4 4\n",
    ),
];

#[test]
fn known_algebras_close(rt: HostRuntime) -> Result<(), Fail> {
    let alloc = rt.alloc();
    for (document, end) in CLOSED_ALGEBRAS {
        let given = Run::steady(&["algebra", "--degree", "60"], document.as_bytes());
        let (written, ended) = ran(&rt, alloc, given)?;
        assert!(rt; written.ends_with(end.as_bytes()), "of {document}");
        assert_eq!(rt; ended, 0, "of {document}");
    }
    Ok(())
}
