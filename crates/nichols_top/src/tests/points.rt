//! Reports of the transpositions of some points.

use super::{BRIEF, FOUR_POINTS_TO_THREE, Row, Run, SIX_TRANSPOSITIONS, are_written, ran};
use std::test::Fail;

/// Reports of dimensions. In degree 2 each letter, each unordered pair of disjoint transpositions and each cycle of three
/// words of the braiding gives one relation.
const REPORTS: [Row; 5] = [
    (
        &["points", "3"],
        "",
        &["nichols p 101 letters 3 degree 12 rows 1024\n", BRIEF],
        0,
    ),
    (
        &["points", "4", "--degree", "3", "--brief"],
        "",
        &[FOUR_POINTS_TO_THREE],
        3,
    ),
    (
        &["points", "5", "--degree", "2"],
        "",
        &[
            "nichols p 101 letters 10 degree 2 rows 1024\ndegree 0 dimension 1\ndegree 1 dimension 10\ndegree 2 dimension 55\nstopped degree limit last 2\nhilbert 1 10 55\n",
        ],
        3,
    ),
    (
        &["points", "6", "--degree", "2", "--brief"],
        "",
        &[
            "nichols p 101 letters 15 degree 2 rows 1024\ndegree 0 dimension 1\ndegree 1 dimension 15\ndegree 2 dimension 125\nstopped degree limit last 2\nhilbert 1 15 125\n",
        ],
        3,
    ),
    (
        &["points", "07", "--degree=2"],
        "",
        &[
            "nichols p 101 letters 21 degree 2 rows 1024\ndegree 0 dimension 1\ndegree 1 dimension 21\ndegree 2 dimension 245\nstopped degree limit last 2\nhilbert 1 21 245\n",
        ],
        3,
    ),
];

#[test]
fn points_are_written_in_brief(rt: HostRuntime) -> Result<(), Fail> {
    let alloc = rt.alloc();
    for row in REPORTS {
        assert!(rt; are_written(&rt, alloc, row)?, "{:?} of {}", row.0, row.1);
    }
    Ok(())
}

#[test]
fn four_points_are_their_document(rt: HostRuntime) -> Result<(), Fail> {
    let alloc = rt.alloc();
    let runs: [(&[&str], &str); 2] = [
        (&["points", "4", "--degree", "13"], ""),
        (
            &["algebra", "--brief", "--degree", "13"],
            SIX_TRANSPOSITIONS,
        ),
    ];
    let mut texts = Vec::new(alloc);
    for (words, document) in runs {
        let given = Run::steady(words, document.as_bytes());
        let (written, ended) = ran(&rt, alloc, given)?;
        assert_eq!(rt; ended, 0, "{words:?}");
        texts.push(written)?;
    }
    assert!(rt; texts.len() == 2 && texts[0].as_slice() == texts[1].as_slice());
    assert!(rt;
        texts[0].ends_with(b"hilbert 1 6 19 42 71 96 106 96 71 42 19 6 1 0\nfactors 4 4 3 3 2 2\n")
    );
    Ok(())
}
