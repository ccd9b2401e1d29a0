//! Documents with the keys `extension` and `order`.

use super::{CLOSED, DEGREES, Row, are_written};
use std::test::Fail;

/// The degrees 0 to 4 of the three transpositions with the order 3, 2, 1: the letters 1 and 3 exchanged in every word.
const EXCHANGED: &str =
    "degree 0 dimension 1\nbasis e\ndegree 1 dimension 3\nbasis 3 2 1\ndegree 2 dimension 4\nbasis 3.2 3.1 2.3 2.1\nrelation 3.3 = 0\nrelation 2.2 = 0\nrelation 1.3 = 100*3.2 + 100*2.1\nrelation 1.2 = 100*3.1 + 100*2.3\nrelation 1.1 = 0\ndegree 3 dimension 3\nbasis 3.2.3 3.2.1 2.3.1\nrelation 3.2.2 = 0\nrelation 3.1.3 = 100*3.2.1\nrelation 3.1.2 = 100*3.2.3\nrelation 3.1.1 = 0\nrelation 2.3.3 = 0\nrelation 2.3.2 = 1*3.2.3\nrelation 2.1.3 = 100*3.2.3\nrelation 2.1.2 = 100*2.3.1\nrelation 2.1.1 = 0\ndegree 4 dimension 1\nbasis 3.2.3.1\nrelation 3.2.3.3 = 0\nrelation 3.2.3.2 = 0\nrelation 3.2.1.3 = 0\nrelation 3.2.1.2 = 100*3.2.3.1\nrelation 3.2.1.1 = 0\nrelation 2.3.1.3 = 100*3.2.3.1\nrelation 2.3.1.2 = 0\nrelation 2.3.1.1 = 0\n";

/// Degree 5, and the end.
const EXCHANGED_CLOSED: &str =
    "degree 5 dimension 0\nbasis\nrelation 3.2.3.1.3 = 0\nrelation 3.2.3.1.2 = 0\nrelation 3.2.3.1.1 = 0\nclosed top 4 dimension 12\nhilbert 1 3 4 3 1 0\nfactors 3 2 2\n";

/// Two letters over four elements, in whose scalars all elements but 0 occur.
const FOUR_ELEMENTS: &str =
    "modulus = 2\nextension = [1, 1]\nrack = [[1, 2], [1, 2]]\ncocycle = [[1, [0, 1]], [[1, 1], 1]]\n";

/// The same, with other numbers for the extension and for its elements.
const FOUR_ELEMENTS_BY_PAIRS: &str =
    "modulus = 2\nextension = [-1, 3]\nrack = [[1, 2], [1, 2]]\ncocycle = [[[1, 0], [2, -1]], [[1, 1], [-1, 2]]]\n";

const FOUR_ELEMENTS_TEXT: &str =
    "degree 0 dimension 1\nbasis e\ndegree 1 dimension 2\nbasis 1 2\ndegree 2 dimension 1\nbasis 1.2\nrelation 1.1 = 0\nrelation 2.1 = (1,1)*1.2\nrelation 2.2 = 0\ndegree 3 dimension 0\nbasis\nrelation 1.2.1 = 0\nrelation 1.2.2 = 0\nclosed top 2 dimension 4\nhilbert 1 2 1 0\nfactors 2 2\n";

/// The words, the document, the pieces of the text and the status, computed by hand.
const ROWS: [Row; 18] = [
    (
        &["algebra"],
        "modulus = 101\nrack = [[1, 3, 2], [3, 2, 1], [2, 1, 3]]\ncocycle = -1\norder = [3, 2, 1]\n",
        &[
            "nichols p 101 letters 3 degree 12 rows 1024 order 3 2 1\n",
            EXCHANGED,
            EXCHANGED_CLOSED,
        ],
        0,
    ),
    (
        &["algebra"],
        "modulus = 101\nrack = [[1, 3, 2], [3, 2, 1], [2, 1, 3]]\ncocycle = -1\norder = [1, 2, 3]\n",
        &[
            "nichols p 101 letters 3 degree 12 rows 1024\n",
            DEGREES,
            CLOSED,
        ],
        0,
    ),
    (
        &["algebra"],
        "modulus = 101\nrack = [[1, 2], [1, 2]]\ncocycle = [[-1, 1], [-1, -1]]\norder = [2, 1]\n",
        &[
            "nichols p 101 letters 2 degree 12 rows 1024 order 2 1\n",
            "degree 0 dimension 1\nbasis e\ndegree 1 dimension 2\nbasis 2 1\ndegree 2 dimension 2\nbasis 2.1 1.2\nrelation 2.2 = 0\nrelation 1.1 = 0\ndegree 3 dimension 2\nbasis 2.1.2 1.2.1\nrelation 2.1.1 = 0\nrelation 1.2.2 = 0\ndegree 4 dimension 1\nbasis 2.1.2.1\nrelation 2.1.2.2 = 0\nrelation 1.2.1.2 = 100*2.1.2.1\nrelation 1.2.1.1 = 0\ndegree 5 dimension 0\nbasis\nrelation 2.1.2.1.2 = 0\nrelation 2.1.2.1.1 = 0\nclosed top 4 dimension 8\nhilbert 1 2 2 2 1 0\nfactors 4 2\n",
        ],
        0,
    ),
    (
        &["algebra"],
        "modulus = 101\nrack = [[1, 3, 2], [3, 2, 1], [2, 1, 3]]\ncocycle = -1\norder = [1, 1, 2]\n",
        &["refused: order wrong at place 2\n"],
        2,
    ),
    (
        &["algebra"],
        "modulus = 101\nrack = [[1, 3, 2], [3, 2, 1], [2, 1, 3]]\ncocycle = -1\norder = [1, 2]\n",
        &["refused: order wrong at place 3\n"],
        2,
    ),
    (
        &["algebra"],
        "modulus = 101\nrack = [[1, 3, 2], [3, 2, 1], [2, 1, 3]]\ncocycle = -1\norder = [1, 2, 3, 1]\n",
        &["refused: order wrong at place 4\n"],
        2,
    ),
    (
        &["algebra"],
        "modulus = 2\nextension = [1, 1]\nrack = [[1]]\ncocycle = [0, 1]\n",
        &[
            "nichols p 2 extension 1 1 letters 1 degree 12 rows 1024\ndegree 0 dimension 1\nbasis e\ndegree 1 dimension 1\nbasis 1\ndegree 2 dimension 1\nbasis 1.1\ndegree 3 dimension 0\nbasis\nrelation 1.1.1 = 0\nclosed top 2 dimension 3\nhilbert 1 1 1 0\nfactors 3\n",
        ],
        0,
    ),
    (
        &["algebra"],
        "modulus = 3\nextension = [0, 2]\nrack = [[1]]\ncocycle = [0, 1]\n",
        &[
            "nichols p 3 extension 0 2 letters 1 degree 12 rows 1024\ndegree 0 dimension 1\nbasis e\ndegree 1 dimension 1\nbasis 1\ndegree 2 dimension 1\nbasis 1.1\ndegree 3 dimension 1\nbasis 1.1.1\ndegree 4 dimension 0\nbasis\nrelation 1.1.1.1 = 0\nclosed top 3 dimension 4\nhilbert 1 1 1 1 0\nfactors 4\n",
        ],
        0,
    ),
    (
        &["algebra"],
        FOUR_ELEMENTS,
        &[
            "nichols p 2 extension 1 1 letters 2 degree 12 rows 1024\n",
            FOUR_ELEMENTS_TEXT,
        ],
        0,
    ),
    (
        &["algebra"],
        FOUR_ELEMENTS_BY_PAIRS,
        &[
            "nichols p 2 extension 1 1 letters 2 degree 12 rows 1024\n",
            FOUR_ELEMENTS_TEXT,
        ],
        0,
    ),
    (
        &["reduce"],
        "modulus = 2\nextension = [1, 1]\nrack = [[1, 2], [1, 2]]\ncocycle = [[1, [0, 1]], [[1, 1], 1]]\nexpressions = [\"(0,1)*2.1\"]\n",
        &[
            "nichols p 2 extension 1 1 letters 2 degree 12 rows 1024\n",
            FOUR_ELEMENTS_TEXT,
            "form 1 = 1*1.2\n",
        ],
        0,
    ),
    (
        &["reduce"],
        "modulus = 2\nextension = [1, 1]\nrack = [[1, 2], [1, 2]]\ncocycle = [[1, [0, 1]], [[1, 1], 1]]\nexpressions = [\"(0,1)*2.1\", \"(1,1*1\"]\n",
        &["refused: expression 2 at byte 5: unexpected byte\n"],
        2,
    ),
    (
        &["symmetrize"],
        "modulus = 2\nextension = [1, 1]\nrack = [[1, 2], [1, 2]]\ncocycle = [[1, [0, 1]], [[1, 1], 1]]\nexpressions = [\"( 2 , 3 ) * 2.1 - 1.2\"]\n",
        &[
            "nichols symmetrize p 2 extension 1 1 letters 2\n",
            "image 1 = 0\n",
        ],
        0,
    ),
    (
        &["symmetrize"],
        "modulus = 2\nextension = [1, 1]\nrack = [[1, 2], [1, 2]]\ncocycle = [[1, [0, 1]], [[1, 1], 1]]\norder = [2, 1]\nexpressions = [\"2.1\", \"(0,1)*1\"]\n",
        &[
            "nichols symmetrize p 2 extension 1 1 letters 2 order 2 1\n",
            "image 1 = 1*2.1 + (1,1)*1.2\n",
            "image 2 = (0,1)*1\n",
        ],
        0,
    ),
    (
        &["algebra"],
        "modulus = 7\nextension = [0, 2]\nrack = [[1]]\ncocycle = 1\n",
        &["refused: extension has root 3\n"],
        2,
    ),
    (
        &["algebra"],
        "modulus = 4\nextension = [0, 0]\nrack = [[1]]\ncocycle = 1\n",
        &["refused: modulus 4 not in the list\n"],
        2,
    ),
    (
        &["algebra"],
        "modulus = 7\nextension = [0, 2, 1]\nrack = [[1]]\ncocycle = [0, 1]\n",
        &["refused: wrong kind at key extension\n"],
        2,
    ),
    (
        &["algebra"],
        "modulus = 2\nextension = [1, 1]\nrack = [[1, 3, 2], [3, 2, 1], [2, 1, 3]]\ncocycle = [[1, [0, 1], 1], [1, 1, 1], [1, 1, 1]]\n",
        &["refused: not a cocycle at 1 3 1: (0,1) and 1\n"],
        2,
    ),
];

#[test]
fn documents_over_extensions_and_in_orders(rt: HostRuntime) -> Result<(), Fail> {
    let alloc = rt.alloc();
    for row in ROWS {
        assert!(rt; are_written(&rt, alloc, row)?, "{:?} of {}", row.0, row.1);
    }
    Ok(())
}
