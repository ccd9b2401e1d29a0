//! Runs whole, each on the document of three transpositions or on one that has no fault but the one that is told.

use super::refusals::{Refused, is_refused};
use super::{BRIEF, CLOSED, DEGREES, Row, THREE, are_written};
use std::test::Fail;

const ALGEBRA: &[&str] = &["algebra"];

/// The three transpositions with a table of scalars, and expressions.
const FOUR: &str =
    "modulus = 101\nrack = [[1, 3, 2], [3, 2, 1], [2, 1, 3]]\ncocycle = [[-1, -1, -1], [-1, -1, -1], [-1, -1, -1]]\nexpressions = [\"1.2.1 - 2.1.2\", \"3.1\", \"e\", \"1.2.1.3.1.2.1.3.1\"]\n";

/// What is told of one fault, computed by hand.
const FAULTS: [Refused; 18] = [
    (
        ALGEBRA,
        &[(1, "modulus = 101\nrack = [[1, 2], [2, 1]]\ncocycle = 1\n")],
        "refused: not distributive at 2 1 1: 2 and 1\n",
    ),
    (
        ALGEBRA,
        &[(
            1,
            "modulus = 7\nrack = [[1, 3, 2], [3, 2, 1], [2, 1, 3]]\ncocycle = [[1, 2, 1], [1, 1, 1], [1, 1, 1]]\n",
        )],
        "refused: not a cocycle at 1 3 1: 2 and 1\n",
    ),
    (
        ALGEBRA,
        &[(
            1,
            "modulus = 15\nrack = [[1, 3, 2], [3, 2, 1], [2, 1, 3]]\ncocycle = -1\n",
        )],
        "refused: modulus 15 not in the list\n",
    ),
    (
        ALGEBRA,
        &[(
            1,
            "modulus = 11\nrack = [[1, 3, 2], [3, 2, 1], [2, 1, 3]]\ncocycle = -1\n",
        )],
        "refused: modulus 11 not in the list\n",
    ),
    (
        ALGEBRA,
        &[(
            1,
            "modulus = 65522\nrack = [[1, 3, 2], [3, 2, 1], [2, 1, 3]]\ncocycle = -1\n",
        )],
        "refused: modulus 65522 not in the list\n",
    ),
    (
        ALGEBRA,
        &[(
            1,
            "modulus = 101\ncocycle = [[-1, -1, -1], [-1, -1, -1], [-1, -1, -1]]\ncolour = 1\n",
        )],
        "refused: missing key rack\n",
    ),
    (
        ALGEBRA,
        &[(1, THREE), (1, "colour = 1\n")],
        "refused: unknown key colour\n",
    ),
    // expressions
    (
        ALGEBRA,
        &[(1, THREE), (1, "expressions = ['']\n")],
        "refused: expression 1 at byte 1: text ends too early\n",
    ),
    (
        ALGEBRA,
        &[(1, THREE), (1, "expressions = ['1.']\n")],
        "refused: expression 1 at byte 3: text ends too early\n",
    ),
    (
        ALGEBRA,
        &[(1, THREE), (1, "expressions = ['1.4']\n")],
        "refused: expression 1 at byte 3: letter outside the rack\n",
    ),
    (
        ALGEBRA,
        &[(1, THREE), (1, "expressions = ['1,2']\n")],
        "refused: expression 1 at byte 2: unexpected byte\n",
    ),
    (
        ALGEBRA,
        &[(1, THREE), (1, "expressions = ['1234567890*1']\n")],
        "refused: expression 1 at byte 1: number longer than 9 digits\n",
    ),
    // what the reader of TOML takes beyond TOML 1.0: more lines and a last comma in an inline table, and two escapes
    (
        ALGEBRA,
        &[(1, THREE), (1, "colour = {\n  a = 1\n}\n")],
        "refused: unknown key colour\n",
    ),
    (
        ALGEBRA,
        &[(1, THREE), (1, "colour = { a = 1, }\n")],
        "refused: unknown key colour\n",
    ),
    (
        ALGEBRA,
        &[(1, THREE), (1, "\"\\x41\" = 1\n")],
        "refused: unknown key A\n",
    ),
    (
        ALGEBRA,
        &[(1, THREE), (1, "\"\\e[\" = 1\n")],
        "refused: unknown key ?[\n",
    ),
    // and what it doesn't take: values nested deeper than 80
    (
        ALGEBRA,
        &[
            (1, THREE),
            (1, "colour = "),
            (80, "["),
            (80, "]"),
            (1, "\n"),
        ],
        "refused: unknown key colour\n",
    ),
    (
        ALGEBRA,
        &[
            (1, THREE),
            (1, "colour = "),
            (81, "["),
            (81, "]"),
            (1, "\n"),
        ],
        "refused: not TOML\n",
    ),
];

/// Reports of the three transpositions with a table of scalars.
const REPORTS: [Row; 4] = [
    (
        &["reduce"],
        FOUR,
        &[
            "nichols p 101 letters 3 degree 12 rows 1024\n",
            DEGREES,
            CLOSED,
            "form 1 = 0\nform 2 = 100*1.2 + 100*2.3\nform 3 = 1*e\nform 4 = 0\n",
        ],
        0,
    ),
    (
        &["reduce", "--degree", "2"],
        FOUR,
        &[
            "nichols p 101 letters 3 degree 2 rows 1024\ndegree 0 dimension 1\nbasis e\ndegree 1 dimension 3\nbasis 1 2 3\n",
            "degree 2 dimension 4\nbasis 1.2 1.3 2.1 2.3\nrelation 1.1 = 0\nrelation 2.2 = 0\nrelation 3.1 = 100*1.2 + 100*2.3\nrelation 3.2 = 100*1.3 + 100*2.1\nrelation 3.3 = 0\n",
            "stopped degree limit last 2\nhilbert 1 3 4\nform 1 beyond 2\nform 2 = 100*1.2 + 100*2.3\nform 3 = 1*e\nform 4 beyond 2\n",
        ],
        3,
    ),
    (
        &["reduce", "--degree", "2", "--brief"],
        "modulus = 101\nrack = [[1, 3, 2], [3, 2, 1], [2, 1, 3]]\ncocycle = [[-1, -1, -1], [-1, -1, -1], [-1, -1, -1]]\nexpressions = [\"2*1.2 - 1.2\", \" 0 \", \"102*1\"]\n",
        &[
            "nichols p 101 letters 3 degree 2 rows 1024\ndegree 0 dimension 1\ndegree 1 dimension 3\ndegree 2 dimension 4\nstopped degree limit last 2\nhilbert 1 3 4\n",
            "form 1 = 1*1.2\nform 2 = 0\nform 3 = 1*1\n",
        ],
        3,
    ),
    (
        &["symmetrize"],
        "modulus = 101\nrack = [[1, 3, 2], [3, 2, 1], [2, 1, 3]]\ncocycle = [[-1, -1, -1], [-1, -1, -1], [-1, -1, -1]]\nexpressions = [\"1.2 + 2.3 + 3.1\", \"1.2\"]\n",
        &[
            "nichols symmetrize p 101 letters 3\n",
            "image 1 = 0\nimage 2 = 1*1.2 + 100*3.1\n",
        ],
        0,
    ),
];

/// Runs under orders in which rank and letter are two maps; the texts were computed by another program.
const ORDERED: [Row; 4] = [
    (
        &["reduce", "--brief"],
        "modulus = 101\nrack = [[1, 3, 2], [3, 2, 1], [2, 1, 3]]\ncocycle = [[-1, -1, -1], [-1, -1, -1], [-1, -1, -1]]\norder = [3, 1, 2]\nexpressions = [\"2.1.3.1\", \"1.2 + 2.3 + 3.1\", \"1 - 2*3.2\"]\n",
        &[
            "nichols p 101 letters 3 degree 12 rows 1024 order 3 1 2\n",
            BRIEF,
            "form 1 = 100*3.1.3.2\nform 2 = 0\nform 3 = 1*1 + 99*3.2\n",
        ],
        0,
    ),
    (
        &["symmetrize"],
        "modulus = 101\nrack = [[1, 3, 2], [3, 2, 1], [2, 1, 3]]\ncocycle = [[-1, -1, -1], [-1, -1, -1], [-1, -1, -1]]\norder = [3, 1, 2]\nexpressions = [\"1.2 + 2.3 + 3.1\", \"1.2\", \"1 - 2*3.2\"]\n",
        &[
            "nichols symmetrize p 101 letters 3 order 3 1 2\nimage 1 = 0\nimage 2 = 100*3.1 + 1*1.2\nimage 3 = 1*1 + 99*3.2 + 2*1.3\n",
        ],
        0,
    ),
    (
        &["reduce", "--degree", "2"],
        "modulus = 5\nrack = [[2, 3, 4, 1], [2, 3, 4, 1], [2, 3, 4, 1], [2, 3, 4, 1]]\ncocycle = [[1, 2, 3, 4], [1, 2, 3, 4], [1, 2, 3, 4], [1, 2, 3, 4]]\norder = [2, 3, 1, 4]\nexpressions = [\"1.2\", \"4.1 + 2.2\", \"3.1.4\"]\n",
        &[
            "nichols p 5 letters 4 degree 2 rows 1024 order 2 3 1 4\ndegree 0 dimension 1\nbasis e\ndegree 1 dimension 4\nbasis 2 3 1 4\n",
            "degree 2 dimension 14\nbasis 2.2 2.3 2.1 2.4 3.2 3.3 3.1 3.4 1.2 1.3 1.1 1.4 4.2 4.3\nrelation 4.1 = 2*2.3 + 1*2.4 + 3*3.1 + 2*3.4 + 1*1.2 + 2*1.3 + 4*4.2\nrelation 4.4 = 4*2.2 + 1*2.1 + 2*3.2 + 1*3.3 + 4*1.1 + 4*1.4 + 2*4.3\n",
            "stopped degree limit last 2\nhilbert 1 4 14\nform 1 = 1*1.2\nform 2 = 1*2.2 + 2*2.3 + 1*2.4 + 3*3.1 + 2*3.4 + 1*1.2 + 2*1.3 + 4*4.2\nform 3 beyond 2\n",
        ],
        3,
    ),
    (
        &["symmetrize"],
        "modulus = 5\nrack = [[2, 3, 4, 1], [2, 3, 4, 1], [2, 3, 4, 1], [2, 3, 4, 1]]\ncocycle = [[1, 2, 3, 4], [1, 2, 3, 4], [1, 2, 3, 4], [1, 2, 3, 4]]\norder = [2, 3, 1, 4]\nexpressions = [\"1.2\", \"4.1 + 2.2\"]\n",
        &[
            "nichols symmetrize p 5 letters 4 order 2 3 1 4\nimage 1 = 2*3.1 + 1*1.2\nimage 2 = 1*2.2 + 1*2.4 + 2*3.2 + 1*4.1\n",
        ],
        0,
    ),
];

#[test]
fn single_faults_are_told(rt: HostRuntime) -> Result<(), Fail> {
    let alloc = rt.alloc();
    for row in FAULTS {
        assert!(rt; is_refused(&rt, alloc, row)?, "{:?} of {:?}", row.0, row.1);
    }
    Ok(())
}

#[test]
fn rows_with_a_table_of_scalars_are_written(rt: HostRuntime) -> Result<(), Fail> {
    let alloc = rt.alloc();
    for row in REPORTS {
        assert!(rt; are_written(&rt, alloc, row)?, "{:?} of {}", row.0, row.1);
    }
    Ok(())
}

#[test]
fn rows_under_orders_are_written(rt: HostRuntime) -> Result<(), Fail> {
    let alloc = rt.alloc();
    for row in ORDERED {
        assert!(rt; are_written(&rt, alloc, row)?, "{:?} of {}", row.0, row.1);
    }
    Ok(())
}
