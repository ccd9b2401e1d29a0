//! Documents that are refused.

use super::{Run, THREE, UP_TO_TWO, ran};
use std::alloc::{AllocError, Global};
use std::test::Fail;
use std::thread::Threads;

/// One letter with the scalar 1 over seven elements.
const ONE: &str = "modulus = 7\nrack = [[1]]\ncocycle = 1\n";

const SYMMETRIZE: &[&str] = &["symmetrize"];

/// The words, the document as pieces with how often each stands, and the line of a refusal.
pub(super) type Refused = (
    &'static [&'static str],
    &'static [(usize, &'static str)],
    &'static str,
);

/// Each refusal and each cause stands at a place that isn't the first possible one, where it can have others. Many of the documents
/// have a later fault too, which isn't told.
const REFUSALS: [Refused; 58] = [
    // the text
    (
        UP_TO_TWO,
        &[(1_048_577, " ")],
        "refused: document longer than 1048576 bytes\n",
    ),
    (
        UP_TO_TWO,
        &[(1, THREE), (1_048_576, "\n")],
        "refused: document longer than 1048576 bytes\n",
    ),
    (
        UP_TO_TWO,
        &[(1, "modulus = ["), (1_048_576, "[")],
        "refused: document longer than 1048576 bytes\n",
    ),
    (
        UP_TO_TWO,
        &[(1, "modulus = 101\nrack = [[1,")],
        "refused: not TOML\n",
    ),
    (UP_TO_TWO, &[(2, "modulus = 7\n")], "refused: not TOML\n"),
    (
        UP_TO_TWO,
        &[(1, ONE), (1, "colour = 9223372036854775808\n")],
        "refused: not TOML\n",
    ),
    (
        UP_TO_TWO,
        &[(1, ONE), (1, "colour = 1\nrack = 1\n")],
        "refused: not TOML\n",
    ),
    // the keys
    (UP_TO_TWO, &[], "refused: missing key modulus\n"),
    (
        UP_TO_TWO,
        &[(1_048_576, " ")],
        "refused: missing key modulus\n",
    ),
    (
        UP_TO_TWO,
        &[(1, "cocycle = -1\ncolour = 1\n")],
        "refused: missing key modulus\n",
    ),
    (
        UP_TO_TWO,
        &[(1, "modulus = 101\ncocycle = -1\ncolour = 1\n")],
        "refused: missing key rack\n",
    ),
    (
        UP_TO_TWO,
        &[(1, "modulus = '7'\nrack = 1\n")],
        "refused: missing key cocycle\n",
    ),
    (
        UP_TO_TWO,
        &[(1, ONE), (1, "colour = 1\n")],
        "refused: unknown key colour\n",
    ),
    (
        UP_TO_TWO,
        &[(
            1,
            "modulus = '7'\nrack = 1\ncocycle = 2\nzeta = 1\n[colour]\nrack = 1\n",
        )],
        "refused: unknown key colour\n",
    ),
    (
        UP_TO_TWO,
        &[(1, ONE), (1, "expression = []\nZeta = 1\nalpha = 1\n")],
        "refused: unknown key Zeta\n",
    ),
    (
        UP_TO_TWO,
        &[(1, ONE), (1, "\"\" = 1\ndegree = []\n")],
        "refused: unknown key \n",
    ),
    (
        UP_TO_TWO,
        &[(1, ONE), (1, "\"ä b\" = 1\n")],
        "refused: unknown key ???b\n",
    ),
    (
        UP_TO_TWO,
        &[(1, ONE), (61, "k"), (1, " = 1\n")],
        "refused: unknown key kkkkkkkkkkkkkkkkkkkkkkkkkkkkkkkkkkkkkkkkkkkkkkkkkkkkkkkkkkkk\n",
    ),
    // the kinds
    (
        UP_TO_TWO,
        &[(1, "modulus = '7'\nrack = 1\ncocycle = 2\n")],
        "refused: wrong kind at key modulus\n",
    ),
    (
        UP_TO_TWO,
        &[(1, "modulus = 7.0\nrack = [[1]]\ncocycle = 2\n")],
        "refused: wrong kind at key modulus\n",
    ),
    (
        UP_TO_TWO,
        &[(1, "modulus = 15\nrack = [1]\ncocycle = []\n")],
        "refused: wrong kind at key rack\n",
    ),
    (
        UP_TO_TWO,
        &[(1, "modulus = 7\nrack = [[1], ['1']]\ncocycle = '2'\n")],
        "refused: wrong kind at key rack\n",
    ),
    (
        UP_TO_TWO,
        &[(1, "modulus = 15\nrack = []\ncocycle = [2]\n")],
        "refused: wrong kind at key cocycle\n",
    ),
    (
        UP_TO_TWO,
        &[(1, "modulus = 7\nrack = [[]]\ncocycle = [[1], [2.5]]\n")],
        "refused: wrong kind at key cocycle\n",
    ),
    (
        UP_TO_TWO,
        &[(
            1,
            "modulus = 15\nrack = []\ncocycle = 0\nexpressions = '1'\n",
        )],
        "refused: wrong kind at key expressions\n",
    ),
    (
        UP_TO_TWO,
        &[(1, ONE), (1, "expressions = ['2', 1]\n")],
        "refused: wrong kind at key expressions\n",
    ),
    // the modulus
    (
        UP_TO_TWO,
        &[(1, "modulus = 15\nrack = [[2]]\ncocycle = -1\n")],
        "refused: modulus 15 not in the list\n",
    ),
    (
        UP_TO_TWO,
        &[(1, "modulus = 11\nrack = []\ncocycle = 2\n")],
        "refused: modulus 11 not in the list\n",
    ),
    (
        UP_TO_TWO,
        &[(1, "modulus = 65522\nrack = [[1]]\ncocycle = -1\n")],
        "refused: modulus 65522 not in the list\n",
    ),
    (
        UP_TO_TWO,
        &[(1, "modulus = -7\nrack = [[1]]\ncocycle = 2\n")],
        "refused: modulus -7 not in the list\n",
    ),
    // the rack
    (
        UP_TO_TWO,
        &[(1, "modulus = 101\nrack = []\ncocycle = 0\n")],
        "refused: 0 letters outside 1 to 24\n",
    ),
    (
        UP_TO_TWO,
        &[
            (1, "modulus = 101\nrack = ["),
            (25, "[1], "),
            (1, "]\ncocycle = 0\n"),
        ],
        "refused: 25 letters outside 1 to 24\n",
    ),
    (
        UP_TO_TWO,
        &[(1, "modulus = 101\nrack = [[1, 3], [1]]\ncocycle = 1\n")],
        "refused: rack row 2 has a wrong length\n",
    ),
    (
        UP_TO_TWO,
        &[(1, "modulus = 101\nrack = [[1, 1], [1, 3]]\ncocycle = 1\n")],
        "refused: rack entry 2 2 is 3\n",
    ),
    (
        UP_TO_TWO,
        &[(
            1,
            "modulus = 7\nrack = [[2]]\ncocycle = []\nexpressions = ['2']\n",
        )],
        "refused: rack entry 1 1 is 2\n",
    ),
    (
        UP_TO_TWO,
        &[(1, "modulus = 101\nrack = [[1, 1], [1, 2]]\ncocycle = 1\n")],
        "refused: rack row 1 has 1 at places 1 and 2\n",
    ),
    (
        UP_TO_TWO,
        &[(
            1,
            "modulus = 101\nrack = [[1, 2, 3], [1, 2, 3], [3, 2, 2]]\ncocycle = 0\n",
        )],
        "refused: rack row 3 has 2 at places 2 and 3\n",
    ),
    (
        UP_TO_TWO,
        &[(1, "modulus = 101\nrack = [[1, 2], [2, 1]]\ncocycle = []\n")],
        "refused: not distributive at 2 1 1: 2 and 1\n",
    ),
    // the scalars
    (
        UP_TO_TWO,
        &[(1, "modulus = 7\nrack = [[1]]\ncocycle = []\n")],
        "refused: cocycle row 1 is missing, surplus or of a wrong length\n",
    ),
    (
        UP_TO_TWO,
        &[(
            1,
            "modulus = 101\nrack = [[1, 2], [1, 2]]\ncocycle = [[0, 1], [1]]\n",
        )],
        "refused: cocycle row 2 is missing, surplus or of a wrong length\n",
    ),
    (
        UP_TO_TWO,
        &[(
            1,
            "modulus = 101\nrack = [[1, 2], [1, 2]]\ncocycle = [[1, 1], [1, 1], [1, 1]]\n",
        )],
        "refused: cocycle row 3 is missing, surplus or of a wrong length\n",
    ),
    (
        UP_TO_TWO,
        &[(
            1,
            "modulus = 101\nrack = [[1, 2], [1, 2]]\ncocycle = [[1, 1], [101, 1]]\n",
        )],
        "refused: cocycle entry 2 1 is zero\n",
    ),
    (
        UP_TO_TWO,
        &[(
            1,
            "modulus = 7\nrack = [[1]]\ncocycle = 7\nexpressions = ['2']\n",
        )],
        "refused: cocycle entry 1 1 is zero\n",
    ),
    (
        UP_TO_TWO,
        &[(
            1,
            "modulus = 7\nrack = [[1, 3, 2], [3, 2, 1], [2, 1, 3]]\ncocycle = [[1, 2, 1], [1, 1, 1], [1, 1, 1]]\nexpressions = ['4']\n",
        )],
        "refused: not a cocycle at 1 3 1: 2 and 1\n",
    ),
    // the expressions
    (
        UP_TO_TWO,
        &[(1, ONE), (1, "expressions = ['1', '']\n")],
        "refused: expression 2 at byte 1: text ends too early\n",
    ),
    (
        UP_TO_TWO,
        &[(1, ONE), (1, "expressions = ['1', '1 +', '2']\n")],
        "refused: expression 2 at byte 4: text ends too early\n",
    ),
    (
        UP_TO_TWO,
        &[(1, ONE), (1, "expressions = ['1', '1,1', '']\n")],
        "refused: expression 2 at byte 2: unexpected byte\n",
    ),
    (
        &["algebra", "--degree", "0"],
        &[(1, ONE), (1, "expressions = ['1', '1 + 2']\n")],
        "refused: expression 2 at byte 5: letter outside the rack\n",
    ),
    (
        &["reduce"],
        &[(1, ONE), (1, "expressions = ['1', '1', '1.1 - 1.2']\n")],
        "refused: expression 3 at byte 9: letter outside the rack\n",
    ),
    (
        UP_TO_TWO,
        &[(1, ONE), (1, "expressions = ['1', '1 - 1234567890*1']\n")],
        "refused: expression 2 at byte 5: number longer than 9 digits\n",
    ),
    (
        UP_TO_TWO,
        &[
            (1, ONE),
            (1, "expressions = ['1', '1 + "),
            (60, "1."),
            (1, "1']\n"),
        ],
        "refused: expression 2 at byte 125: word longer than 60 letters\n",
    ),
    (
        SYMMETRIZE,
        &[(1, ONE), (1, "expressions = ['"), (60, "1."), (1, "1']\n")],
        "refused: expression 1 at byte 121: word longer than 60 letters\n",
    ),
    (
        UP_TO_TWO,
        &[
            (1, ONE),
            (1, "expressions = ['1', '1', '2*1"),
            (1_000, " + 1"),
            (1, "']\n"),
        ],
        "refused: expression 3 at byte 4003: more than 1000 terms\n",
    ),
    (
        UP_TO_TWO,
        &[
            (1, ONE),
            (1, "expressions = ["),
            (999, "'1', "),
            (2, "'2', "),
            (1, "]\n"),
        ],
        "refused: expression 1000 at byte 1: letter outside the rack\n",
    ),
    (
        UP_TO_TWO,
        &[
            (1, ONE),
            (1, "expressions = ["),
            (1_001, "'1', "),
            (1, "]\n"),
        ],
        "refused: expression 1001 at byte 1: more than 1000 expressions\n",
    ),
    (
        SYMMETRIZE,
        &[
            (1, ONE),
            (1, "expressions = ['1.1.1.1.1.1.1.1', "),
            (999, "'1', "),
            (2, "'', "),
            (1, "]\n"),
        ],
        "refused: expression 1001 at byte 1: more than 1000 expressions\n",
    ),
    // what is too long to be symmetrized
    (
        SYMMETRIZE,
        &[
            (1, THREE),
            (
                1,
                "expressions = ['1.2 + 2.3 + 3.1', '1.2', '1.1.1.1.1.1.1.1']\n",
            ),
        ],
        "refused: expression 3 longer than 7 letters\n",
    ),
    (
        SYMMETRIZE,
        &[
            (1, ONE),
            (1, "expressions = ['1.1.1.1.1.1.1', '1 + "),
            (59, "1."),
            (1, "1', '1.1.1.1.1.1.1.1']\n"),
        ],
        "refused: expression 2 longer than 7 letters\n",
    ),
];

/// The document of these pieces, each as often as it stands.
fn whole(alloc: Global, pieces: &[(usize, &str)]) -> Result<Vec<u8>, AllocError> {
    let mut document = Vec::new(alloc);
    for &(times, piece) in pieces {
        for _ in 0..times {
            document.extend_from_slice(piece.as_bytes())?;
        }
    }
    Ok(document)
}

/// Whether the document of a row is refused with its line.
pub(super) fn is_refused<R: Threads + Sync>(
    rt: &R,
    alloc: Global,
    row: Refused,
) -> Result<bool, AllocError> {
    let (words, pieces, line) = row;
    let document = whole(alloc, pieces)?;
    let given = Run::steady(words, document.as_slice());
    let (written, ended) = ran(rt, alloc, given)?;
    Ok(written.as_slice() == line.as_bytes() && ended == 2)
}

#[test]
fn documents_are_refused(rt: HostRuntime) -> Result<(), Fail> {
    let alloc = rt.alloc();
    for row in REFUSALS {
        assert!(rt; is_refused(&rt, alloc, row)?, "{:?} of {:?}", row.0, row.1);
    }
    Ok(())
}

#[test]
fn bytes_that_are_no_text_are_refused(rt: HostRuntime) -> Result<(), Fail> {
    let alloc = rt.alloc();
    let given = Run::steady(
        UP_TO_TWO,
        b"modulus = 7\nrack = [[1]]\ncocycle = 2 # \xFF\n",
    );
    let (written, ended) = ran(&rt, alloc, given)?;
    assert_eq!(rt; written.as_slice(), b"refused: not TOML\n".as_slice());
    assert_eq!(rt; ended, 2);
    Ok(())
}
