//! Reports of several workers and windows, which are one; and two workers who share a wave.

use super::expressions::FOUR;
use super::{
    AFFINE_FIVE, CLOSED, DEGREES, FOUR_POINTS_TO_THREE, Run, SIX_TRANSPOSITIONS, TETRAHEDRON,
    TETRAHEDRON_TWO, THREE, THREE_OVER_FOUR, ran, ran_past,
};
use nichols_crew::{Closed, Gate};
use std::sync::atomic::{AtomicU64, Ordering};
use std::test::Fail;
use std::thread;

/// The documents of the examples, but for their comments.
const EXAMPLES: [&str; 6] = [
    THREE,
    TETRAHEDRON,
    TETRAHEDRON_TWO,
    SIX_TRANSPOSITIONS,
    AFFINE_FIVE,
    THREE_OVER_FOUR,
];

/// The numbers of workers and the windows that the examples are run with, one worker first.
const CREWS: [(&str, &str); 12] = [
    ("1", "1"),
    ("1", "2"),
    ("1", "8"),
    ("2", "1"),
    ("2", "2"),
    ("2", "8"),
    ("3", "1"),
    ("3", "2"),
    ("3", "8"),
    ("16", "1"),
    ("16", "2"),
    ("16", "8"),
];

/// Words of brief reports with their first crew, and the crews that have the same text.
type Waves = (
    &'static [&'static str],
    &'static [(&'static str, &'static str)],
    &'static str,
);

/// The brief report of five points up to degree 3. In degree 2 each letter, each pair of disjoint transpositions and each cycle of
/// three gives a relation; the dimension of degree 3 is the rank of a symmetrizer that another program made.
const FIVE_POINTS_TO_THREE: &str =
    "nichols p 101 letters 10 degree 3 rows 1024\ndegree 0 dimension 1\ndegree 1 dimension 10\ndegree 2 dimension 55\ndegree 3 dimension 220\nstopped degree limit last 3\nhilbert 1 10 55 220\n";

const WAVES: [Waves; 2] = [
    (
        &["points", "4", "--degree", "3", "--brief"],
        &[
            ("1", "1"),
            ("4", "1"),
            ("16", "1"),
            ("1", "8"),
            ("4", "8"),
            ("16", "8"),
        ],
        FOUR_POINTS_TO_THREE,
    ),
    (
        &["points", "5", "--degree", "3", "--brief"],
        &[("4", "1"), ("4", "2"), ("4", "8")],
        FIVE_POINTS_TO_THREE,
    ),
];

/// Up to degree 5, in which the first example closes.
#[test]
fn examples_have_one_text(rt: HostRuntime) -> Result<(), Fail> {
    let alloc = rt.alloc();
    for document in EXAMPLES {
        let mut first = None;
        for (workers, window) in CREWS {
            let words = [
                "algebra",
                "--degree",
                "5",
                "--workers",
                workers,
                "--window",
                window,
            ];
            let given = Run::steady(words.as_slice(), document.as_bytes());
            let (text, status) = ran(&rt, alloc, given)?;
            match &first {
                None => first = Some((text, status)),
                Some((wanted, ended)) => {
                    assert_eq!(rt; status, *ended, "{workers} workers, window {window}");
                    assert!(rt;
                        wanted.as_slice() == text.as_slice(),
                        "{workers} workers, window {window}"
                    );
                }
            }
        }
        assert!(rt; first.is_some());
    }
    Ok(())
}

#[test]
fn points_have_one_text(rt: HostRuntime) -> Result<(), Fail> {
    let alloc = rt.alloc();
    for (line, crews, wanted) in WAVES {
        for (workers, window) in crews {
            let mut words = line.to_vec(alloc)?;
            for word in ["--workers", *workers, "--window", *window] {
                words.push(word)?;
            }
            let given = Run::steady(words.as_slice(), &[]);
            let (text, status) = ran(&rt, alloc, given)?;
            assert_eq!(rt; status, 3, "{workers} workers, window {window}");
            assert!(rt;
                text.as_slice() == wanted.as_bytes(),
                "{workers} workers, window {window}"
            );
        }
    }
    Ok(())
}

/// Four expressions: one worker, several, and more than there are expressions.
#[test]
fn normal_forms_have_one_text(rt: HostRuntime) -> Result<(), Fail> {
    let alloc = rt.alloc();
    let mut wanted = Vec::new(alloc);
    for piece in [
        "nichols p 101 letters 3 degree 12 rows 1024\n",
        DEGREES,
        CLOSED,
        "form 1 = 0\nform 2 = 100*1.2 + 100*2.3\nform 3 = 1*e\nform 4 = 0\n",
    ] {
        wanted.extend_from_slice(piece.as_bytes())?;
    }
    for workers in ["1", "3", "16"] {
        let words = ["reduce", "--workers", workers];
        let given = Run::steady(words.as_slice(), FOUR.as_bytes());
        let (text, status) = ran(&rt, alloc, given)?;
        assert_eq!(rt; status, 0, "{workers} workers");
        assert!(rt; text.as_slice() == wanted.as_slice(), "{workers} workers");
    }
    Ok(())
}

/// The most turns for which the gate holds a worker.
const MOST_TURNS: u64 = 1_000_000_000;

/// A gate that holds the first worker who takes a block until another one has published a block.
#[derive(Drop)]
struct Holding {
    /// One more than the number of the worker that is held; 0 before.
    held: AtomicU64,
    /// One more than the number of another worker that published a block; 0 before.
    other: AtomicU64,
    blocks: u64,
}

impl Gate for Holding {
    ghost count = { λ g. g.blocks };

    fn taken(&self, worker: u32, _block: u32) {
        let number = u64::from(worker) + 1;
        let first = self
            .held
            .compare_exchange(0, number, Ordering::SeqCst, Ordering::SeqCst);
        if first.is_err() {
            return;
        }
        for _ in 0..MOST_TURNS {
            if self.other.load(Ordering::SeqCst) != 0 {
                return;
            }
            thread::yield_now();
        }
    }

    fn published(&self, worker: u32, _block: u32) {
        let number = u64::from(worker) + 1;
        let held = self.held.load(Ordering::SeqCst);
        if held != 0 && held != number {
            self.other.store(number, Ordering::SeqCst);
        }
    }

    fn closed(&mut self, closed: Closed) {
        self.blocks = self.blocks.saturating_add(u64::from(closed.blocks()));
    }
}

/// The first block that is taken is published only once another worker has published one: a crew in which one worker does all meets
/// the limit of turns, and sees one worker number. Degrees 1 to 5 have three products each.
#[test]
fn two_workers_share_a_wave(rt: HostRuntime) -> Result<(), Fail> {
    let alloc = rt.alloc();
    let mut gate = Holding {
        held: AtomicU64::new(0),
        other: AtomicU64::new(0),
        blocks: 0,
    };
    let words = ["algebra", "--workers", "2", "--window", "3"];
    let given = Run::steady(words.as_slice(), THREE.as_bytes());
    let (text, status) = ran_past(&rt, alloc, given, &mut gate)?;
    let mut wanted = Vec::new(alloc);
    for piece in [
        "nichols p 101 letters 3 degree 12 rows 1024\n",
        DEGREES,
        CLOSED,
    ] {
        wanted.extend_from_slice(piece.as_bytes())?;
    }
    assert_eq!(rt; status, 0);
    assert!(rt; text.as_slice() == wanted.as_slice());
    let held = gate.held.load(Ordering::SeqCst);
    let other = gate.other.load(Ordering::SeqCst);
    assert!(rt; held != 0 && other != 0 && held != other);
    assert!(rt; gate.blocks >= 15);
    Ok(())
}
