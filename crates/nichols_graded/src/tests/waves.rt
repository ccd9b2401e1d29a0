//! Waves over degree 0 by two workers.

ghost use Rattle.std.specs.Prelude.{◌^◌, ◌-◌};

use crate::Graded;
use crate::ahead::{Ahead, list_on};
use crate::next::first_ahead;
use nichols_block::BlockValue;
use nichols_braid::Braid;
use nichols_crew::{Closed, Gate, OpenGate, Wave, wave};
use nichols_testing::{one_letter, three_transpositions};
use std::alloc::Global;
use std::sync::atomic::{AtomicU64, Ordering};
use std::test::Fail;
use std::thread::{self, Threads};

/// The wave of degrees 1 to 3, by two workers.
fn first_wave<R: Threads + Sync, G: Gate + Sync>(
    rt: &R,
    alloc: Global,
    braid: Braid,
    gate: &G,
) -> Result<Wave, Fail> {
    let graded = Graded::start(alloc, braid, 12, 1_024, 3)?;
    let levels = graded.levels();
    if levels.last() != 0 {
        return Err("more than degree 0".into());
    }
    let Ahead::Open(mut lists) = first_ahead(alloc, levels, 12, 1_024)? else {
        return Err("no degree 1".into());
    };
    let _stop = list_on(alloc, levels.braid(), 1, &mut lists, 12, 3)?;
    if lists.len() != 3 {
        return Err("other degrees".into());
    }
    let made = wave(rt, alloc, levels, lists.as_slice(), 1_024, 2, gate)?;
    Ok(made)
}

/// The numbers of least words of the values, where they are rules and there is a published block for each.
fn sizes(alloc: Global, wave: &Wave) -> Result<Vec<usize>, Fail> {
    let mut sizes = Vec::new(alloc);
    for value in wave.values.as_slice() {
        let Some(BlockValue::Rule(rule)) = value.get() else {
            return Err("no rule".into());
        };
        sizes.push(rule.basis().len())?;
    }
    if wave.closed.blocks() as usize != sizes.len() {
        return Err("other blocks".into());
    }
    for block in 0..wave.closed.blocks() {
        if !wave.closed.published(block) {
            return Err("a block that isn't published".into());
        }
    }
    Ok(sizes)
}

/// One letter whose third power is zero: degrees 1 to 3 have one block each.
#[test]
fn wave_of_one_letter(rt: HostRuntime) -> Result<(), Fail> {
    let alloc = rt.alloc();
    let wave = first_wave(&rt, alloc, one_letter(alloc)?, &OpenGate::new())?;
    let sizes = sizes(alloc, &wave)?;
    assert!(rt; sizes.as_slice() == [1, 1, 0].as_slice());
    Ok(())
}

/// The most turns for which the gate holds a worker.
const MOST_TURNS: u64 = 1_000_000_000;

/// A gate that holds the first worker who takes a block until another one has published a block.
#[derive(Drop)]
struct Holding {
    /// One more than the number of the worker that is held; 0 before.
    held: AtomicU64,
    /// One more than the number of another worker that published a block; 0 before.
    other: AtomicU64,
}

impl Gate for Holding {
    ghost count = { λ g. 2 ^ 64 - 1 };

    fn taken(&self, worker: u32, _block: u32) {
        let number = u64::from(worker) + 1;
        let first = self
            .held
            .compare_exchange(0, number, Ordering::SeqCst, Ordering::SeqCst);
        if first.is_err() {
            return;
        }
        for _ in 0..MOST_TURNS {
            if self.other.load(Ordering::SeqCst) != 0 {
                return;
            }
            thread::yield_now();
        }
    }

    fn published(&self, worker: u32, _block: u32) {
        let number = u64::from(worker) + 1;
        let held = self.held.load(Ordering::SeqCst);
        if held != 0 && held != number {
            self.other.store(number, Ordering::SeqCst);
        }
    }

    fn closed(&mut self, _closed: Closed) {}
}

/// Three transpositions: three blocks each in degrees 1 to 3. In degree 2 the squares are zero, and each cycle has three words and one
/// relation. The first block that is taken is published only once another worker has published one, so one worker who does all
/// meets the limit of turns.
#[test]
fn two_workers_share_a_wave(rt: HostRuntime) -> Result<(), Fail> {
    let alloc = rt.alloc();
    let gate = Holding {
        held: AtomicU64::new(0),
        other: AtomicU64::new(0),
    };
    let wave = first_wave(&rt, alloc, three_transpositions(alloc)?, &gate)?;
    let held = gate.held.load(Ordering::SeqCst);
    let other = gate.other.load(Ordering::SeqCst);
    assert!(rt; held != 0 && other != 0 && held != other);
    let sizes = sizes(alloc, &wave)?;
    assert!(rt; sizes.as_slice() == [1, 1, 1, 0, 2, 2, 1, 1, 1].as_slice());
    Ok(())
}
