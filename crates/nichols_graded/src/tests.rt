mod waves;

use super::*;
use crate::factors::factors_of;
use nichols_braid::{Braid, Entry, MOST_DEGREES, MOST_ROWS, Scalars};
use nichols_crew::{Closed, Gate, OpenGate};
use nichols_field::Field;
use nichols_layout::MOST_WINDOW;
use nichols_testing::{braid_with_constant, one_letter};
use std::alloc::Global;
use std::test::Fail;
use std::thread::Threads;

/// The workers of these tests.
const WORKERS: u32 = 2;

/// Two letters that act alike, with the scalar 1 over 101 elements.
fn two_commuting_letters(alloc: Global) -> Result<Braid, Fail> {
    braid_with_constant(alloc, 101, &[&[1, 2], &[1, 2]], 1)
}

/// Three transpositions in each of eight groups; letters of different groups don't act on each other.
fn eight_groups(alloc: Global) -> Result<Braid, Fail> {
    let group = [[1, 3, 2], [3, 2, 1], [2, 1, 3]];
    let mut rack = Vec::new(alloc);
    for i in 0..24usize {
        let mut row = Vec::new(alloc);
        for j in 0..24usize {
            let image = if i / 3 == j / 3 {
                group[i % 3][j % 3] + i as i64 / 3 * 3
            } else {
                j as i64 + 1
            };
            row.push(image)?;
        }
        rack.push(row)?;
    }
    let field = Field::new(101).map_err(|_| "no field")?;
    let scalar = Scalars::Constant(Entry::Whole(-1));
    let braid = Braid::new(alloc, field, rack.as_slice(), &scalar).map_err(|_| "no braid")?;
    Ok(braid)
}

/// A gate that counts the blocks of the shelves that it is given.
#[derive(Drop)]
struct Tally {
    blocks: u64,
}

impl Gate for Tally {
    ghost count = { λ g. g.blocks };

    fn taken(&self, _worker: u32, _block: u32) {}

    fn published(&self, _worker: u32, _block: u32) {}

    fn closed(&mut self, closed: Closed) {
        self.blocks = self.blocks.saturating_add(u64::from(closed.blocks()));
    }
}

/// The calls for one letter whose third power is zero, for a window: the finished degrees and the end of each.
type Calls = (u32, &'static [(u32, Option<End>)]);

const CALLS: [Calls; 3] = [
    (1, &[(1, None), (1, None), (1, Some(End::Closed))]),
    (2, &[(2, None), (1, Some(End::Closed))]),
    (3, &[(3, Some(End::Closed))]),
];

/// Degrees 1 to 3 have one block each, and are finished in calls of so many as the window has; the gate counts them.
#[test]
fn degrees_of_one_letter(rt: HostRuntime) -> Result<(), Fail> {
    let alloc = rt.alloc();
    for (window, calls) in CALLS {
        if window < 1 || window > MOST_WINDOW as u32 {
            return Err("window out of range".into());
        }
        let mut gate = Tally { blocks: 0 };
        let mut graded = Graded::start(alloc, one_letter(alloc)?, 12, 1_024, window)?;
        for (finished, end) in calls {
            if graded.ended() {
                return Err("ended early".into());
            }
            let advance = graded.advance(&rt, alloc, WORKERS, &mut gate)?;
            assert_eq!(rt; advance.finished, *finished);
            assert_eq!(rt; advance.end, *end);
        }
        assert!(rt; graded.ended());
        if !graded.closed() {
            return Err("not closed".into());
        }
        if graded.dimensions(alloc)?.as_slice() != [1, 1, 1, 0].as_slice() {
            return Err("other dimensions".into());
        }
        if gate.blocks < 3 {
            return Err("blocks that went through no shelf".into());
        }
        let Some(factors) = graded.factors(alloc)? else {
            return Err("no factors".into());
        };
        assert!(rt; factors.as_slice() == [3].as_slice());
    }
    Ok(())
}

/// The least words and relations of degree 3 of one letter whose third power is zero.
#[test]
fn words_of_one_letter(rt: HostRuntime) -> Result<(), Fail> {
    let alloc = rt.alloc();
    let mut gate = OpenGate::new();
    let mut graded = Graded::start(alloc, one_letter(alloc)?, 12, 1_024, 3)?;
    for (m, words, relations) in [(0, 1, 0), (1, 1, 0), (2, 1, 0), (3, 0, 1)] {
        if !graded.ended() {
            let _advance = graded.advance(&rt, alloc, WORKERS, &mut gate)?;
        }
        if m > graded.levels().last() {
            return Err("too few degrees".into());
        }
        assert_eq!(rt; graded.dimension(m), words);
        assert_eq!(rt; graded.basis(alloc, m)?.len() as u64, words);
        assert_eq!(rt; graded.relations(alloc, m)?.len(), relations);
    }
    Ok(())
}

/// What threads may share.
fn is_shared<T: Send + Sync>(_shared: &T) {}

/// A check of the types alone: no thread is started.
#[test]
fn an_algebra_may_be_shared(rt: HostRuntime) -> Result<(), Fail> {
    let alloc = rt.alloc();
    let graded = Graded::start(alloc, one_letter(alloc)?, 12, 1_024, 2)?;
    is_shared(&OpenGate::new());
    is_shared(&graded);
    is_shared(graded.levels());
    Ok(())
}

/// Makes degrees until the end, in a window of so many, and compares the end and the dimensions.
fn ends_so<R: Threads + Sync>(
    rt: &R,
    alloc: Global,
    braid: Braid,
    limits: (u32, u32),
    window: u32,
    dimensions: &[u64],
    end: End,
) -> Result<(), Fail> {
    if limits.0 > MOST_DEGREES || limits.1 < 1 || limits.1 > MOST_ROWS {
        return Err("limits out of range".into());
    }
    if window < 1 || window > MOST_WINDOW as u32 {
        return Err("window out of range".into());
    }
    let mut gate = OpenGate::new();
    let mut graded = Graded::start(alloc, braid, limits.0, limits.1, window)?;
    for _ in 0..MOST_DEGREES + 1 {
        if graded.ended() {
            break;
        }
        let advance = graded.advance(rt, alloc, WORKERS, &mut gate)?;
        if advance.end.is_some() && advance.end != Some(end) {
            return Err("another end".into());
        }
    }
    if !graded.ended() {
        return Err("no end".into());
    }
    if graded.dimensions(alloc)?.as_slice() != dimensions {
        return Err("other dimensions".into());
    }
    Ok(())
}

/// The same with windows of 1, 2 and 8.
fn ends<R: Threads + Sync>(
    rt: &R,
    alloc: Global,
    braid: Braid,
    limits: (u32, u32),
    dimensions: &[u64],
    end: End,
) -> Result<(), Fail> {
    for window in [1, 2, 8] {
        let copy = braid.copy(alloc)?;
        ends_so(rt, alloc, copy, limits, window, dimensions, end)?;
    }
    Ok(())
}

/// The degree limit, which may stop degree 1, and the rows limit, which is passed by a degree with exactly so many rows.
#[test]
fn limits(rt: HostRuntime) -> Result<(), Fail> {
    let alloc = rt.alloc();
    let degrees = End::Stopped(Stop::DegreeLimit);
    let rows = |degree, count| End::Stopped(Stop::Rows {
        degree,
        product: 1,
        count,
    });
    ends(&rt, alloc, one_letter(alloc)?, (0, 1_024), &[1], degrees)?;
    ends(&rt, alloc, one_letter(alloc)?, (1, 1_024), &[1, 1], degrees)?;
    ends(
        &rt,
        alloc,
        two_commuting_letters(alloc)?,
        (12, 1),
        &[1],
        rows(1, 2),
    )?;
    ends(
        &rt,
        alloc,
        two_commuting_letters(alloc)?,
        (12, 5),
        &[1, 2, 3],
        rows(3, 6),
    )?;
    ends(
        &rt,
        alloc,
        two_commuting_letters(alloc)?,
        (12, 6),
        &[1, 2, 3, 4],
        rows(4, 8),
    )
}

/// Degree 4 has more than `MOST_PRODUCTS` products.
#[test]
fn wide(rt: HostRuntime) -> Result<(), Fail> {
    let alloc = rt.alloc();
    let braid = eight_groups(alloc)?;
    ends_so(
        &rt,
        alloc,
        braid,
        (12, 1_024),
        2,
        &[1, 24, 284, 2_208],
        End::Stopped(Stop::Wide(4)),
    )
}

/// The dimensions of closed algebras with their factors, none of which means that there are none.
const FACTORS: [(&[u64], Option<&[u32]>); 12] = [
    (&[1, 3, 4, 3, 1, 0], Some(&[3, 2, 2])),
    (&[1, 1, 1, 0], Some(&[3])),
    (&[1, 1, 1, 1, 1, 0], Some(&[5])),
    (&[1, 2, 2, 2, 1, 0], Some(&[4, 2])),
    (&[1, 2, 1, 0], Some(&[2, 2])),
    (&[1, 0], Some(&[])),
    (&[1, 3, 1, 0], None),
    (&[1, 0, 0, 1, 0], None),
    (&[1, 4, 8, 11, 12, 12, 11, 8, 4, 1, 0], Some(&[6, 3, 2, 2])),
    (&[1, 4, 8, 10, 8, 4, 1, 0], Some(&[3, 3, 2, 2])),
    (
        &[1, 6, 19, 42, 71, 96, 106, 96, 71, 42, 19, 6, 1, 0],
        Some(&[4, 4, 3, 3, 2, 2]),
    ),
    (
        &[
            1, 5, 15, 35, 66, 105, 145, 175, 186, 175, 145, 105, 66, 35, 15, 5, 1, 0,
        ],
        Some(&[5, 4, 4, 4, 4]),
    ),
];

#[test]
fn factors(rt: HostRuntime) -> Result<(), Fail> {
    let alloc = rt.alloc();
    for (dimensions, factors) in FACTORS {
        if dimensions.len() > MOST_DEGREES as usize + 1 {
            return Err("too long".into());
        }
        match (factors_of(alloc, dimensions)?, factors) {
            (None, None) => {}
            (Some(found), Some(wanted)) => assert!(rt; found.as_slice() == wanted),
            _ => return Err("factors where there are none, or none where there are".into()),
        }
    }
    Ok(())
}
