//! Reports of expressions.

use super::{CLOSED, DEGREES, Row, are_written};
use std::test::Fail;

/// The three transpositions with expressions.
pub(crate) const FOUR: &str =
    "modulus = 101\nrack = [[1, 3, 2], [3, 2, 1], [2, 1, 3]]\ncocycle = -1\nexpressions = [\"1.2.1 - 2.1.2\", \"3.1\", \"e\", \"1.2.1.3.1.2.1.3.1\"]\n";

const UP_TO_TWO: &str =
    "nichols p 101 letters 3 degree 2 rows 1024\ndegree 0 dimension 1\ndegree 1 dimension 3\ndegree 2 dimension 4\nstopped degree limit last 2\nhilbert 1 3 4\n";

/// Reports of normal forms and of images, computed by hand or by another program.
const REPORTS: [Row; 7] = [
    (
        &["reduce"],
        FOUR,
        &[
            "nichols p 101 letters 3 degree 12 rows 1024\n",
            DEGREES,
            CLOSED,
            "form 1 = 0\nform 2 = 100*1.2 + 100*2.3\nform 3 = 1*e\nform 4 = 0\n",
        ],
        0,
    ),
    (
        &["reduce", "--degree", "2", "--brief"],
        FOUR,
        &[
            UP_TO_TWO,
            "form 1 beyond 2\nform 2 = 100*1.2 + 100*2.3\nform 3 = 1*e\nform 4 beyond 2\n",
        ],
        3,
    ),
    (
        &["reduce", "--degree", "4"],
        "modulus = 101\nrack = [[1, 3, 2], [3, 2, 1], [2, 1, 3]]\ncocycle = -1\nexpressions = [\"2.1.3.1\", \"1.2.1.3.1 + 1\"]\n",
        &[
            "nichols p 101 letters 3 degree 4 rows 1024\n",
            DEGREES,
            "stopped degree limit last 4\nhilbert 1 3 4 3 1\nform 1 = 100*1.2.1.3\nform 2 beyond 4\n",
        ],
        3,
    ),
    (
        &["reduce", "--degree=2", "--brief"],
        "modulus = 101\nrack = [[1, 3, 2], [3, 2, 1], [2, 1, 3]]\ncocycle = -1\nexpressions = [\"0\", \"1.2.1 + 3.1 - 1.2.1\"]\n",
        &[UP_TO_TWO, "form 1 = 0\nform 2 = 100*1.2 + 100*2.3\n"],
        3,
    ),
    (
        &["reduce", "--degree", "2", "--brief"],
        "modulus = 101\nrack = [[1, 3, 2], [3, 2, 1], [2, 1, 3]]\ncocycle = -1\nexpressions = []\n",
        &[UP_TO_TWO],
        3,
    ),
    (
        &["symmetrize"],
        "modulus = 101\nrack = [[1, 3, 2], [3, 2, 1], [2, 1, 3]]\ncocycle = -1\nexpressions = [\"1.2 + 2.3 + 3.1\", \"1.2\"]\n",
        &[
            "nichols symmetrize p 101 letters 3\n",
            "image 1 = 0\nimage 2 = 1*1.2 + 100*3.1\n",
        ],
        0,
    ),
    (
        &["symmetrize", "--degree", "1"],
        "modulus = 101\nrack = [[1, 3, 2], [3, 2, 1], [2, 1, 3]]\ncocycle = -1\nexpressions = [\" - 1.2 +3.1\"]\n",
        &[
            "nichols symmetrize p 101 letters 3\n",
            "image 1 = 100*1.2 + 100*2.3 + 2*3.1\n",
        ],
        0,
    ),
];

#[test]
fn expressions_are_answered(rt: HostRuntime) -> Result<(), Fail> {
    let alloc = rt.alloc();
    for row in REPORTS {
        assert!(rt; are_written(&rt, alloc, row)?, "{:?} of {}", row.0, row.1);
    }
    Ok(())
}
