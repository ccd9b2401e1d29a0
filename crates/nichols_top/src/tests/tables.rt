//! Reports of tables of products.

use super::{BRIEF, Row, THREE, are_written};
use std::test::Fail;

/// The products of the twelve least words of the three transpositions, found by another program.
const PRODUCTS_OF_THREE: &str =
    "times e e = 1*e\ntimes e 1 = 1*1\ntimes e 2 = 1*2\ntimes e 3 = 1*3\ntimes e 1.2 = 1*1.2\ntimes e 1.3 = 1*1.3\ntimes e 2.1 = 1*2.1\ntimes e 2.3 = 1*2.3\ntimes e 1.2.1 = 1*1.2.1\ntimes e 1.2.3 = 1*1.2.3\ntimes e 2.1.3 = 1*2.1.3\ntimes e 1.2.1.3 = 1*1.2.1.3\ntimes 1 e = 1*1\ntimes 1 1 = 0\ntimes 1 2 = 1*1.2\ntimes 1 3 = 1*1.3\ntimes 1 1.2 = 0\ntimes 1 1.3 = 0\ntimes 1 2.1 = 1*1.2.1\ntimes 1 2.3 = 1*1.2.3\ntimes 1 1.2.1 = 0\ntimes 1 1.2.3 = 0\ntimes 1 2.1.3 = 1*1.2.1.3\ntimes 1 1.2.1.3 = 0\ntimes 2 e = 1*2\ntimes 2 1 = 1*2.1\ntimes 2 2 = 0\ntimes 2 3 = 1*2.3\ntimes 2 1.2 = 1*1.2.1\ntimes 2 1.3 = 1*2.1.3\ntimes 2 2.1 = 0\ntimes 2 2.3 = 0\ntimes 2 1.2.1 = 0\ntimes 2 1.2.3 = 1*1.2.1.3\ntimes 2 2.1.3 = 0\ntimes 2 1.2.1.3 = 0\ntimes 3 e = 1*3\ntimes 3 1 = 100*1.2 + 100*2.3\ntimes 3 2 = 100*1.3 + 100*2.1\ntimes 3 3 = 0\ntimes 3 1.2 = 1*2.1.3\ntimes 3 1.3 = 100*1.2.3\ntimes 3 2.1 = 1*1.2.3\ntimes 3 2.3 = 100*2.1.3\ntimes 3 1.2.1 = 100*1.2.1.3\ntimes 3 1.2.3 = 0\ntimes 3 2.1.3 = 0\ntimes 3 1.2.1.3 = 0\ntimes 1.2 e = 1*1.2\ntimes 1.2 1 = 1*1.2.1\ntimes 1.2 2 = 0\ntimes 1.2 3 = 1*1.2.3\ntimes 1.2 1.2 = 0\ntimes 1.2 1.3 = 1*1.2.1.3\ntimes 1.2 2.1 = 0\ntimes 1.2 2.3 = 0\ntimes 1.2 1.2.1 = 0\ntimes 1.2 1.2.3 = 0\ntimes 1.2 2.1.3 = 0\ntimes 1.2 1.2.1.3 = 0\ntimes 1.3 e = 1*1.3\ntimes 1.3 1 = 100*1.2.3\ntimes 1.3 2 = 100*1.2.1\ntimes 1.3 3 = 0\ntimes 1.3 1.2 = 1*1.2.1.3\ntimes 1.3 1.3 = 0\ntimes 1.3 2.1 = 0\ntimes 1.3 2.3 = 100*1.2.1.3\ntimes 1.3 1.2.1 = 0\ntimes 1.3 1.2.3 = 0\ntimes 1.3 2.1.3 = 0\ntimes 1.3 1.2.1.3 = 0\ntimes 2.1 e = 1*2.1\ntimes 2.1 1 = 0\ntimes 2.1 2 = 1*1.2.1\ntimes 2.1 3 = 1*2.1.3\ntimes 2.1 1.2 = 0\ntimes 2.1 1.3 = 0\ntimes 2.1 2.1 = 0\ntimes 2.1 2.3 = 1*1.2.1.3\ntimes 2.1 1.2.1 = 0\ntimes 2.1 1.2.3 = 0\ntimes 2.1 2.1.3 = 0\ntimes 2.1 1.2.1.3 = 0\ntimes 2.3 e = 1*2.3\ntimes 2.3 1 = 100*1.2.1\ntimes 2.3 2 = 100*2.1.3\ntimes 2.3 3 = 0\ntimes 2.3 1.2 = 0\ntimes 2.3 1.3 = 100*1.2.1.3\ntimes 2.3 2.1 = 1*1.2.1.3\ntimes 2.3 2.3 = 0\ntimes 2.3 1.2.1 = 0\ntimes 2.3 1.2.3 = 0\ntimes 2.3 2.1.3 = 0\ntimes 2.3 1.2.1.3 = 0\ntimes 1.2.1 e = 1*1.2.1\ntimes 1.2.1 1 = 0\ntimes 1.2.1 2 = 0\ntimes 1.2.1 3 = 1*1.2.1.3\ntimes 1.2.1 1.2 = 0\ntimes 1.2.1 1.3 = 0\ntimes 1.2.1 2.1 = 0\ntimes 1.2.1 2.3 = 0\ntimes 1.2.1 1.2.1 = 0\ntimes 1.2.1 1.2.3 = 0\ntimes 1.2.1 2.1.3 = 0\ntimes 1.2.1 1.2.1.3 = 0\ntimes 1.2.3 e = 1*1.2.3\ntimes 1.2.3 1 = 0\ntimes 1.2.3 2 = 100*1.2.1.3\ntimes 1.2.3 3 = 0\ntimes 1.2.3 1.2 = 0\ntimes 1.2.3 1.3 = 0\ntimes 1.2.3 2.1 = 0\ntimes 1.2.3 2.3 = 0\ntimes 1.2.3 1.2.1 = 0\ntimes 1.2.3 1.2.3 = 0\ntimes 1.2.3 2.1.3 = 0\ntimes 1.2.3 1.2.1.3 = 0\ntimes 2.1.3 e = 1*2.1.3\ntimes 2.1.3 1 = 100*1.2.1.3\ntimes 2.1.3 2 = 0\ntimes 2.1.3 3 = 0\ntimes 2.1.3 1.2 = 0\ntimes 2.1.3 1.3 = 0\ntimes 2.1.3 2.1 = 0\ntimes 2.1.3 2.3 = 0\ntimes 2.1.3 1.2.1 = 0\ntimes 2.1.3 1.2.3 = 0\ntimes 2.1.3 2.1.3 = 0\ntimes 2.1.3 1.2.1.3 = 0\ntimes 1.2.1.3 e = 1*1.2.1.3\ntimes 1.2.1.3 1 = 0\ntimes 1.2.1.3 2 = 0\ntimes 1.2.1.3 3 = 0\ntimes 1.2.1.3 1.2 = 0\ntimes 1.2.1.3 1.3 = 0\ntimes 1.2.1.3 2.1 = 0\ntimes 1.2.1.3 2.3 = 0\ntimes 1.2.1.3 1.2.1 = 0\ntimes 1.2.1.3 1.2.3 = 0\ntimes 1.2.1.3 2.1.3 = 0\ntimes 1.2.1.3 1.2.1.3 = 0\n";

/// Three letters that stand still over 7 elements and commute, each with an element of order 6: the least words are those that rise, with
/// at most five of each letter.
const SPACE: &str =
    "modulus = 7\nrack = [[1, 2, 3], [1, 2, 3], [1, 2, 3]]\ncocycle = [[3, 1, 1], [1, 3, 1], [1, 1, 3]]\n";

/// The degrees of these in brief, the end, and the dimension, which is above the limit.
const TOO_LARGE: &str =
    "nichols p 7 letters 3 degree 60 rows 1024\ndegree 0 dimension 1\ndegree 1 dimension 3\ndegree 2 dimension 6\ndegree 3 dimension 10\ndegree 4 dimension 15\ndegree 5 dimension 21\ndegree 6 dimension 25\ndegree 7 dimension 27\ndegree 8 dimension 27\ndegree 9 dimension 25\ndegree 10 dimension 21\ndegree 11 dimension 15\ndegree 12 dimension 10\ndegree 13 dimension 6\ndegree 14 dimension 3\ndegree 15 dimension 1\ndegree 16 dimension 0\nclosed top 15 dimension 216\nhilbert 1 3 6 10 15 21 25 27 27 25 21 15 10 6 3 1 0\nfactors 6 6 6\ntable too large 216\n";

/// Reports of tables, found by hand or by another program: of closed algebras, one of them with an order of its letters, of one that is too
/// large, and of one that is stopped.
const REPORTS: [Row; 5] = [
    (
        &["table"],
        THREE,
        &[
            "nichols p 101 letters 3 degree 12 rows 1024\n",
            BRIEF,
            PRODUCTS_OF_THREE,
        ],
        0,
    ),
    (
        &["table"],
        "modulus = 7\nrack = [[1]]\ncocycle = 2\n",
        &[
            "nichols p 7 letters 1 degree 12 rows 1024\ndegree 0 dimension 1\ndegree 1 dimension 1\ndegree 2 dimension 1\ndegree 3 dimension 0\nclosed top 2 dimension 3\nhilbert 1 1 1 0\nfactors 3\n",
            "times e e = 1*e\ntimes e 1 = 1*1\ntimes e 1.1 = 1*1.1\ntimes 1 e = 1*1\ntimes 1 1 = 1*1.1\ntimes 1 1.1 = 0\ntimes 1.1 e = 1*1.1\ntimes 1.1 1 = 0\ntimes 1.1 1.1 = 0\n",
        ],
        0,
    ),
    (
        &["table"],
        "modulus = 101\nrack = [[1, 2], [1, 2]]\ncocycle = [[-1, 2], [51, -1]]\norder = [2, 1]\n",
        &[
            "nichols p 101 letters 2 degree 12 rows 1024 order 2 1\ndegree 0 dimension 1\ndegree 1 dimension 2\ndegree 2 dimension 1\ndegree 3 dimension 0\nclosed top 2 dimension 4\nhilbert 1 2 1 0\nfactors 2 2\ntimes e e = 1*e\ntimes e 2 = 1*2\ntimes e 1 = 1*1\ntimes e 2.1 = 1*2.1\ntimes 2 e = 1*2\ntimes 2 2 = 0\ntimes 2 1 = 1*2.1\ntimes 2 2.1 = 0\ntimes 1 e = 1*1\ntimes 1 2 = 2*2.1\ntimes 1 1 = 0\ntimes 1 2.1 = 0\ntimes 2.1 e = 1*2.1\ntimes 2.1 2 = 0\ntimes 2.1 1 = 0\ntimes 2.1 2.1 = 0\n",
        ],
        0,
    ),
    (&["table", "--degree", "60"], SPACE, &[TOO_LARGE], 0),
    (
        &["table", "--degree=3"],
        THREE,
        &[
            "nichols p 101 letters 3 degree 3 rows 1024\ndegree 0 dimension 1\ndegree 1 dimension 3\ndegree 2 dimension 4\ndegree 3 dimension 3\nstopped degree limit last 3\nhilbert 1 3 4 3\n",
        ],
        3,
    ),
];

#[test]
fn tables_are_written(rt: HostRuntime) -> Result<(), Fail> {
    let alloc = rt.alloc();
    for row in REPORTS {
        assert!(rt; are_written(&rt, alloc, row)?, "{:?} of {}", row.0, row.1);
    }
    Ok(())
}
