//! Runs in which something fails, or whose words are no command.

use super::{Run, THREE, UP_TO_TWO, ran};
use std::test::Fail;

const USAGE: &str =
    "usage: nichols algebra or reduce or symmetrize or points K or product or table or cover [--degree N] [--rows N] [--workers N] [--window N] [--brief]\n";

/// The words, the document, the reads and the writes that fail, the text and the status, of runs that end without a
/// report or within it.
const FAULTS: [(&[&str], &str, &[u64], &[u64], &str, u8); 14] = [
    (&[], THREE, &[], &[], USAGE, 1),
    (&["algebra", "3"], THREE, &[], &[], USAGE, 1),
    (&["algebra", "--degree", "61"], THREE, &[], &[], USAGE, 1),
    (&["algebra", "--degree", "+4"], THREE, &[], &[], USAGE, 1),
    (&["algebra", "--rows", "0"], THREE, &[], &[], USAGE, 1),
    (&["points"], THREE, &[], &[], USAGE, 1),
    (&["points", "8"], THREE, &[], &[], USAGE, 1),
    (&["reduce", "--help"], THREE, &[], &[], USAGE, 1),
    (&["reduced"], THREE, &[], &[1], "", 5),
    (UP_TO_TWO, "", &[], &[1], "", 5),
    (UP_TO_TWO, THREE, &[1], &[], "read fault\n", 4),
    (UP_TO_TWO, THREE, &[2], &[], "read fault\n", 4),
    (UP_TO_TWO, THREE, &[2], &[1], "", 5),
    (
        &["points", "3", "--degree", "0"],
        "",
        &[1],
        &[],
        "nichols p 101 letters 3 degree 0 rows 1024\ndegree 0 dimension 1\nstopped degree limit last 0\nhilbert 1\n",
        3,
    ),
];

#[test]
fn faults_are_told(rt: HostRuntime) -> Result<(), Fail> {
    let alloc = rt.alloc();
    for (words, document, reads, writes, text, status) in FAULTS {
        let given = Run {
            reads,
            writes,
            ..Run::steady(words, document.as_bytes())
        };
        let (written, ended) = ran(&rt, alloc, given)?;
        assert_eq!(rt;
            written.as_slice(),
            text.as_bytes(),
            "{reads:?} {writes:?} of {document}"
        );
        assert_eq!(rt; ended, status, "{reads:?} {writes:?} of {document}");
    }
    Ok(())
}

#[test]
fn the_longest_document_is_read(rt: HostRuntime) -> Result<(), Fail> {
    let alloc = rt.alloc();
    let mut document = THREE.as_bytes().to_vec(alloc)?;
    document.resize(1_048_576, b'\n')?;
    let given = Run::steady(&["algebra", "--degree", "0"], document.as_slice());
    let (written, ended) = ran(&rt, alloc, given)?;
    let report =
        "nichols p 101 letters 3 degree 0 rows 1024\ndegree 0 dimension 1\nbasis e\nstopped degree limit last 0\nhilbert 1\n";
    assert_eq!(rt; written.as_slice(), report.as_bytes());
    assert_eq!(rt; ended, 3);
    Ok(())
}
