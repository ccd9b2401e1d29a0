//! Runs whose source or sink fails at each place in turn, and documents that are damaged at each place.

use super::{CLOSED, DEGREES, Run, THREE, ran, ran_past};
use nichols_crew::{Closed, Gate};
use std::alloc::{AllocError, Global};
use std::test::Fail;
use std::thread;

const ALGEBRA: &[&str] = &["algebra"];

/// The header of the whole report of the three transpositions.
const HEADER: &str = "nichols p 101 letters 3 degree 12 rows 1024\n";

/// How the pieces of that report begin.
const BEGINNINGS: [&str; 8] = [
    "nichols",
    "degree 0 dimension",
    "degree 1 dimension",
    "degree 2 dimension",
    "degree 3 dimension",
    "degree 4 dimension",
    "degree 5 dimension",
    "closed",
];

/// Up to how many of its first bytes the three transpositions are refused with which line.
const FRONTS: [(usize, &str); 6] = [
    (0, "refused: missing key modulus\n"),
    (10, "refused: not TOML\n"),
    (14, "refused: missing key rack\n"),
    (53, "refused: not TOML\n"),
    (55, "refused: missing key cocycle\n"),
    (106, "refused: not TOML\n"),
];

/// The words, the document and the reads that fail, of runs whose sink has room for three bytes, and these.
const SHORT: [(&[&str], &str, &[u64], &str); 4] = [
    (
        ALGEBRA,
        "modulus = 101\nrack = [[1, 2], [2, 1]]\ncocycle = [[1, 1], [1, 1]]\n",
        &[],
        "ref",
    ),
    (ALGEBRA, "", &[], "ref"),
    (&["points", "8"], THREE, &[], "usa"),
    (ALGEBRA, THREE, &[2], "rea"),
];

/// The whole report of the three transpositions.
fn report(alloc: Global) -> Result<Vec<u8>, AllocError> {
    let mut text = HEADER.as_bytes().to_vec(alloc)?;
    text.extend_from_slice(DEGREES.as_bytes())?;
    text.extend_from_slice(CLOSED.as_bytes())?;
    Ok(text)
}

/// Each read fails in turn, up to the first run that needs no such read.
#[test]
fn each_read_fails(rt: HostRuntime) -> Result<(), Fail> {
    let alloc = rt.alloc();
    let whole = report(alloc)?;
    let mut failed = 0;
    for read in 1..20u64 {
        let given = Run {
            reads: &[read],
            ..Run::steady(ALGEBRA, THREE.as_bytes())
        };
        let (written, status) = ran(&rt, alloc, given)?;
        if status == 0 {
            assert!(rt; written.as_slice() == whole.as_slice(), "read {read}");
            break;
        }
        failed = read;
        assert_eq!(rt; status, 4, "read {read}");
        assert_eq!(rt;
            written.as_slice(),
            "read fault\n".as_bytes(),
            "read {read}"
        );
    }
    // 108 bytes, 16 at a time, and the end.
    assert_eq!(rt; failed, 8);
    Ok(())
}

/// Each write fails in turn, and the pieces before it are written.
#[test]
fn each_write_fails(rt: HostRuntime) -> Result<(), Fail> {
    let alloc = rt.alloc();
    let whole = report(alloc)?;
    let text = str::from_utf8(whole.as_slice())?;
    for (write, beginning) in (1..9u64).zip(BEGINNINGS) {
        let given = Run {
            writes: &[write],
            ..Run::steady(ALGEBRA, THREE.as_bytes())
        };
        let (written, status) = ran(&rt, alloc, given)?;
        assert_eq!(rt; status, 5, "write {write}");
        assert_eq!(rt; Some(written.len()), text.find(beginning), "write {write}");
        assert!(rt; whole.starts_with(written.as_slice()), "write {write}");
    }
    Ok(())
}

/// A sink that has room for fewer bytes than the report has those that fit.
#[test]
fn each_room_is_filled(rt: HostRuntime) -> Result<(), Fail> {
    let alloc = rt.alloc();
    let whole = report(alloc)?;
    for room in 0..whole.len() {
        let given = Run {
            room,
            ..Run::steady(ALGEBRA, THREE.as_bytes())
        };
        let (written, status) = ran(&rt, alloc, given)?;
        assert_eq!(rt; status, 5, "room {room}");
        assert!(rt; written.as_slice() == &whole[..room], "room {room}");
    }
    for (words, document, reads, line) in SHORT {
        let given = Run {
            reads,
            room: 3,
            ..Run::steady(words, document.as_bytes())
        };
        let (written, status) = ran(&rt, alloc, given)?;
        assert_eq!(rt; status, 5, "{line}");
        assert_eq!(rt; written.as_slice(), line.as_bytes());
    }
    Ok(())
}

/// The document ends after each number of bytes.
#[test]
fn each_front_is_read(rt: HostRuntime) -> Result<(), Fail> {
    let alloc = rt.alloc();
    let whole = report(alloc)?;
    let mut first = 0;
    for (last, line) in FRONTS {
        for bytes in first..last + 1 {
            let front = THREE.as_bytes().get(..bytes).ok_or("no such front")?;
            let given = Run::steady(ALGEBRA, front);
            let (written, status) = ran(&rt, alloc, given)?;
            assert_eq!(rt; status, 2, "{bytes} bytes");
            assert_eq!(rt; written.as_slice(), line.as_bytes(), "{bytes} bytes");
        }
        first = last + 1;
    }
    for bytes in first..THREE.len() + 1 {
        let given = Run::steady(ALGEBRA, &THREE.as_bytes()[..bytes]);
        let (written, status) = ran(&rt, alloc, given)?;
        assert_eq!(rt; status, 0, "{bytes} bytes");
        assert!(rt; written.as_slice() == whole.as_slice(), "{bytes} bytes");
    }
    Ok(())
}

/// No byte of the document may be 255.
#[test]
fn each_byte_is_damaged(rt: HostRuntime) -> Result<(), Fail> {
    let alloc = rt.alloc();
    for place in 0..THREE.len() {
        let mut document = THREE.as_bytes().to_vec(alloc)?;
        document[place] = 255;
        let (written, status) = ran(&rt, alloc, Run::steady(ALGEBRA, document.as_slice()))?;
        assert_eq!(rt; status, 2, "byte {place}");
        assert_eq!(rt;
            written.as_slice(),
            "refused: not TOML\n".as_bytes(),
            "byte {place}"
        );
    }
    Ok(())
}

/// The trivial rack of 24 letters with one letter more in the last place.
#[test]
fn the_last_entry_is_no_letter(rt: HostRuntime) -> Result<(), Fail> {
    let alloc = rt.alloc();
    let row = "1, 2, 3, 4, 5, 6, 7, 8, 9, 10, 11, 12, 13, 14, 15, 16, 17, 18, 19, 20, 21, 22, 23, ";
    let mut document = String::from_str(alloc, "modulus = 101\ncocycle = 1\nrack = [")?;
    for _ in 0..23 {
        document.push_str("[")?;
        document.push_str(row)?;
        document.push_str("24], ")?;
    }
    document.push_str("[")?;
    document.push_str(row)?;
    document.push_str("25]]\n")?;
    let (written, status) = ran(&rt, alloc, Run::steady(ALGEBRA, document.as_bytes()))?;
    assert_eq!(rt; status, 2);
    assert_eq!(rt;
        written.as_slice(),
        "refused: rack entry 24 24 is 25\n".as_bytes()
    );
    Ok(())
}

/// The turns for which the gate holds a worker at each call.
const TURNS: u32 = 1_000;

/// A gate that holds each worker for some turns.
#[derive(Drop)]
struct Spinning {
    blocks: u64,
}

impl Spinning {
    fn spin(&self) {
        for _ in 0..TURNS {
            thread::yield_now();
        }
    }
}

impl Gate for Spinning {
    ghost count = { λ g. g.blocks };

    fn taken(&self, _worker: u32, _block: u32) {
        self.spin();
    }

    fn published(&self, _worker: u32, _block: u32) {
        self.spin();
    }

    fn closed(&mut self, closed: Closed) {
        self.spin();
        self.blocks = self.blocks.saturating_add(u64::from(closed.blocks()));
    }
}

/// Degrees 1 to 5 have three products each.
#[test]
fn the_gate_spins(rt: HostRuntime) -> Result<(), Fail> {
    let alloc = rt.alloc();
    let mut gate = Spinning { blocks: 0 };
    let words = ["algebra", "--workers", "16", "--window", "8"];
    let given = Run::steady(words.as_slice(), THREE.as_bytes());
    let (text, status) = ran_past(&rt, alloc, given, &mut gate)?;
    assert_eq!(rt; status, 0);
    assert!(rt; text.as_slice() == report(alloc)?.as_slice());
    assert!(rt; gate.blocks >= 15);
    Ok(())
}
