//! Reports of quadratic covers.

use super::{BRIEF, Row, THREE, are_written};
use std::test::Fail;

/// Three letters that stand still over 7 elements, with a cube root of unity at each letter, the Cartan matrix of type A3 and so one relation
/// of degree 2. The dimensions of the algebra are those of six roots, of heights 1, 1, 1, 2, 2 and 3, each with the powers 0 to 2.
const OF_TYPE_A3: &str =
    "modulus = 7\nrack = [[1, 2, 3], [1, 2, 3], [1, 2, 3]]\ncocycle = [[2, 4, 1], [1, 2, 4], [1, 1, 2]]\n";

const DEGREES_OF_TYPE_A3: &str =
    "degree 0 dimension 1\ndegree 1 dimension 3\ndegree 2 dimension 8\ndegree 3 dimension 14\ndegree 4 dimension 24\ndegree 5 dimension 34\ndegree 6 dimension 47\ndegree 7 dimension 57\ndegree 8 dimension 67\ndegree 9 dimension 72\ndegree 10 dimension 75\ndegree 11 dimension 72\ndegree 12 dimension 67\ndegree 13 dimension 57\ndegree 14 dimension 47\ndegree 15 dimension 34\ndegree 16 dimension 24\ndegree 17 dimension 14\ndegree 18 dimension 8\ndegree 19 dimension 3\ndegree 20 dimension 1\ndegree 21 dimension 0\nclosed top 20 dimension 729\nhilbert 1 3 8 14 24 34 47 57 67 72 75 72 67 57 47 34 24 14 8 3 1 0\nfactors none\n";

const WHOLE_COVER: &str = "cover 1 3 4 3 1 0\ncover equal through 5\n";

/// Reports of covers, computed by hand or by another program: of closed algebras, of one whose cover stops, with 3 d(m - 1) - d(m - 2) for
/// its dimension in degree m, and of algebras that are stopped below degree 2, in it and above it.
const REPORTS: [Row; 8] = [
    (
        &["cover"],
        THREE,
        &[
            "nichols p 101 letters 3 degree 12 rows 1024\n",
            BRIEF,
            WHOLE_COVER,
        ],
        0,
    ),
    // the cover has twelve candidates in degree 3, and each product of the algebra at most four
    (
        &["cover", "--rows", "4", "--brief"],
        THREE,
        &[
            "nichols p 101 letters 3 degree 12 rows 4\n",
            BRIEF,
            WHOLE_COVER,
        ],
        0,
    ),
    (
        &["cover"],
        "modulus = 7\nrack = [[1]]\ncocycle = 2\n",
        &[
            "nichols p 7 letters 1 degree 12 rows 1024\ndegree 0 dimension 1\ndegree 1 dimension 1\ndegree 2 dimension 1\ndegree 3 dimension 0\nclosed top 2 dimension 3\nhilbert 1 1 1 0\nfactors 3\ncover 1 1 1 1\ncover differs first at 3\n",
        ],
        0,
    ),
    (
        &["cover"],
        "modulus = 101\nrack = [[1, 2], [1, 2]]\ncocycle = [[-1, 1], [-1, -1]]\n",
        &[
            "nichols p 101 letters 2 degree 12 rows 1024\ndegree 0 dimension 1\ndegree 1 dimension 2\ndegree 2 dimension 2\ndegree 3 dimension 2\ndegree 4 dimension 1\ndegree 5 dimension 0\nclosed top 4 dimension 8\nhilbert 1 2 2 2 1 0\nfactors 4 2\ncover 1 2 2 2 2 2\ncover differs first at 4\n",
        ],
        0,
    ),
    (
        &["cover", "--degree", "60"],
        OF_TYPE_A3,
        &[
            "nichols p 7 letters 3 degree 60 rows 1024\n",
            DEGREES_OF_TYPE_A3,
            "cover 1 3 8 21 55 144 377\ncover differs first at 3\ncover stopped degree 7 count 1131\n",
        ],
        3,
    ),
    (
        &["cover", "--degree", "0"],
        THREE,
        &[
            "nichols p 101 letters 3 degree 0 rows 1024\ndegree 0 dimension 1\nstopped degree limit last 0\nhilbert 1\ncover 1\ncover equal through 0\n",
        ],
        3,
    ),
    (
        &["cover", "--degree", "1"],
        THREE,
        &[
            "nichols p 101 letters 3 degree 1 rows 1024\ndegree 0 dimension 1\ndegree 1 dimension 3\nstopped degree limit last 1\nhilbert 1 3\ncover 1 3\ncover equal through 1\n",
        ],
        3,
    ),
    (
        &["cover", "--degree=2"],
        THREE,
        &[
            "nichols p 101 letters 3 degree 2 rows 1024\ndegree 0 dimension 1\ndegree 1 dimension 3\ndegree 2 dimension 4\nstopped degree limit last 2\nhilbert 1 3 4\ncover 1 3 4\ncover equal through 2\n",
        ],
        3,
    ),
];

#[test]
fn covers_are_written(rt: HostRuntime) -> Result<(), Fail> {
    let alloc = rt.alloc();
    for row in REPORTS {
        assert!(rt; are_written(&rt, alloc, row)?, "{:?} of {}", row.0, row.1);
    }
    Ok(())
}
