//! One worker.

ghost use Rattle.std.specs.Prelude.{◌≡◌, ◌+◌, ◌-◌, ◌<◌, ◌≤◌, true, vec_capacity};
ghost use Rattle.std.specs.Bool.{MatchBool};
ghost use Rattle.nichols_shelf.specs.Lists.{is_in};
ghost use Rattle.nichols_shelf.specs.Passes.{IsOf, plan_of, view_of};
ghost use Rattle.nichols_shelf.specs.Places.{blocks};
ghost use Rattle.nichols_shelf.specs.Played.{KeepsNumbers};
ghost use Rattle.nichols_shelf.specs.Settled.{HoldsNothing, OwesNothing, ResumesNothing};
ghost use Rattle.nichols_crew.specs.Kept.{IsKept, most_takes, remaining};
ghost use Rattle.nichols_crew.specs.Owing.{IsSimple};
ghost use Rattle.nichols_crew.specs.Wave.{IsWave};

use crate::gate::Gate;
use crate::made::Made;
use crate::seeking::scan;
use crate::tending::tend;
use crate::waiting::{Outlook, block_count, wait};
use nichols_block::Levels;
use nichols_shelf::{Pass, Shelf};
use std::alloc::Global;

/// The most scans without a take.
const MOST_SCANS: u32 = 256;

/// What a worker counts.
#[derive(Clone, Copy)]
struct Counts {
    /// How many blocks it took that it didn't owe.
    strangers: u32,
    /// How many scans found nothing.
    scans: u32,
    /// Where it looks while it waits.
    outlook: Outlook,
}

/// One worker. It returns, and waits for nobody but while it looks for a block.
///
/// Where its pass owes a block it takes that, else the first that is ready. It asks for the lower blocks of what it took, and drops
/// it where one isn't published: it is parked there. Else it picks their values, makes the block, lays its value at all edges out of
/// it, publishes it and releases those that were parked on it. It leaves once it owes nothing and one of these holds: it took as many
/// blocks that it didn't owe as there are blocks; 256 scans found nothing; all blocks seem published.
///
/// `made` is the list that is kept for the pass, with room for every block.
pub fn work<G: Gate>(
    alloc: Global,
    levels: &Levels,
    shelf: &Shelf,
    pass: &mut Pass,
    made: &mut Vec<Made>,
    gate: &G,
)
    requires wave { IsWave levels.now.braid levels.now.last (plan_of shelf.now) }
    requires pass { IsOf shelf.now pass.old }
    requires holds { HoldsNothing (view_of pass.old) }
    requires resumes { ResumesNothing (view_of pass.old) }
    requires kept { IsKept (plan_of shelf.now) (view_of pass.old) made.old.items }
    requires room { blocks (plan_of shelf.now) ≤ vec_capacity made.old }
    ensures pass { IsOf shelf.now pass.new }
    ensures numbers { KeepsNumbers (view_of pass.old) (view_of pass.new) }
    ensures holds { HoldsNothing (view_of pass.new) }
    ensures resumes { ResumesNothing (view_of pass.new) }
    ensures owes { OwesNothing (view_of pass.new) }
    ensures kept { IsKept (plan_of shelf.now) (view_of pass.new) made.new.items }
{
    let _field = levels.braid().field();
    shelf.layout().meets_its_rules();
    let mut counts = Counts {
        strangers: 0,
        scans: 0,
        outlook: Outlook::new(),
    };
    loop {
        let goes_on = turn(alloc, levels, shelf, pass, made, gate, &mut counts);
        if !goes_on {
            return;
        }
    }
}

/// One turn of a worker: whether it goes on.
fn turn<G: Gate>(
    alloc: Global,
    levels: &Levels,
    shelf: &Shelf,
    pass: &mut Pass,
    made: &mut Vec<Made>,
    gate: &G,
    counts: &mut Counts,
) -> bool
    requires wave { IsWave levels.now.braid levels.now.last (plan_of shelf.now) }
    requires simple { IsSimple (plan_of shelf.now) }
    requires pass { IsOf shelf.now pass.old }
    requires holds { HoldsNothing (view_of pass.old) }
    requires resumes { ResumesNothing (view_of pass.old) }
    requires kept { IsKept (plan_of shelf.now) (view_of pass.old) made.old.items }
    requires room { blocks (plan_of shelf.now) ≤ vec_capacity made.old }
    requires counts { (counts.old.strangers ≤ most_takes (plan_of shelf.now)) × (counts.old.scans ≤ 256) }
    ensures pass { IsOf shelf.now pass.new }
    ensures numbers { KeepsNumbers (view_of pass.old) (view_of pass.new) }
    ensures holds { HoldsNothing (view_of pass.new) }
    ensures resumes { ResumesNothing (view_of pass.new) }
    ensures kept { IsKept (plan_of shelf.now) (view_of pass.new) made.new.items }
    ensures room { blocks (plan_of shelf.now) ≤ vec_capacity made.new }
    ensures counts { (counts.new.strangers ≤ most_takes (plan_of shelf.now)) × (counts.new.scans ≤ 256) }
    ensures progress { MatchBool result
        (remaining (plan_of shelf.now) made.new.items (view_of pass.new) + (most_takes (plan_of shelf.now) - counts.new.strangers) + (256 - counts.new.scans)
        < remaining (plan_of shelf.now) made.old.items (view_of pass.old) + (most_takes (plan_of shelf.now) - counts.old.strangers) + (256 - counts.old.scans))
        (OwesNothing (view_of pass.new)) }
{
    match pass.owed() {
        Some(block) => {
            serve(alloc, levels, shelf, pass, made, gate, block);
            true
        }
        None => seek(alloc, levels, shelf, pass, made, gate, counts),
    }
}

/// Takes a block that the pass owes, and makes it where it was ready.
fn serve<G: Gate>(
    alloc: Global,
    levels: &Levels,
    shelf: &Shelf,
    pass: &mut Pass,
    made: &mut Vec<Made>,
    gate: &G,
    block: u32,
)
    requires wave { IsWave levels.now.braid levels.now.last (plan_of shelf.now) }
    requires simple { IsSimple (plan_of shelf.now) }
    requires pass { IsOf shelf.now pass.old }
    requires block { block < blocks (plan_of shelf.now) }
    requires holds { HoldsNothing (view_of pass.old) }
    requires resumes { ResumesNothing (view_of pass.old) }
    requires owed { is_in block (view_of pass.old).owed ≡ true }
    requires kept { IsKept (plan_of shelf.now) (view_of pass.old) made.old.items }
    requires room { blocks (plan_of shelf.now) ≤ vec_capacity made.old }
    ensures pass { IsOf shelf.now pass.new }
    ensures numbers { KeepsNumbers (view_of pass.old) (view_of pass.new) }
    ensures holds { HoldsNothing (view_of pass.new) }
    ensures resumes { ResumesNothing (view_of pass.new) }
    ensures kept { IsKept (plan_of shelf.now) (view_of pass.new) made.new.items }
    ensures room { blocks (plan_of shelf.now) ≤ vec_capacity made.new }
    ensures progress { remaining (plan_of shelf.now) made.new.items (view_of pass.new) < remaining (plan_of shelf.now) made.old.items (view_of pass.old) }
{
    if shelf.take(pass, block) {
        gate.taken(pass.worker(), block);
        let _published = tend(alloc, levels, shelf, pass, made, gate, block);
    }
}

/// Looks for a block that is ready, and makes it: whether the worker goes on. Each take counts, also of a block that is parked, and so
/// does each scan that finds nothing.
fn seek<G: Gate>(
    alloc: Global,
    levels: &Levels,
    shelf: &Shelf,
    pass: &mut Pass,
    made: &mut Vec<Made>,
    gate: &G,
    counts: &mut Counts,
) -> bool
    requires wave { IsWave levels.now.braid levels.now.last (plan_of shelf.now) }
    requires simple { IsSimple (plan_of shelf.now) }
    requires pass { IsOf shelf.now pass.old }
    requires holds { HoldsNothing (view_of pass.old) }
    requires resumes { ResumesNothing (view_of pass.old) }
    requires owes { OwesNothing (view_of pass.old) }
    requires kept { IsKept (plan_of shelf.now) (view_of pass.old) made.old.items }
    requires room { blocks (plan_of shelf.now) ≤ vec_capacity made.old }
    requires counts { (counts.old.strangers ≤ most_takes (plan_of shelf.now)) × (counts.old.scans ≤ 256) }
    ensures pass { IsOf shelf.now pass.new }
    ensures numbers { KeepsNumbers (view_of pass.old) (view_of pass.new) }
    ensures holds { HoldsNothing (view_of pass.new) }
    ensures resumes { ResumesNothing (view_of pass.new) }
    ensures kept { IsKept (plan_of shelf.now) (view_of pass.new) made.new.items }
    ensures room { blocks (plan_of shelf.now) ≤ vec_capacity made.new }
    ensures counts { (counts.new.strangers ≤ most_takes (plan_of shelf.now)) × (counts.new.scans ≤ 256) }
    ensures counted { result ≡ true → counts.new.strangers + counts.new.scans ≡ counts.old.strangers + counts.old.scans + 1 }
    ensures progress { MatchBool result
        (remaining (plan_of shelf.now) made.new.items (view_of pass.new) + (most_takes (plan_of shelf.now) - counts.new.strangers) + (256 - counts.new.scans)
        < remaining (plan_of shelf.now) made.old.items (view_of pass.old) + (most_takes (plan_of shelf.now) - counts.old.strangers) + (256 - counts.old.scans))
        (OwesNothing (view_of pass.new)) }
{
    if counts.strangers == block_count(shelf) || counts.scans == MOST_SCANS {
        return false;
    }
    if !wait(shelf, &mut counts.outlook, counts.scans) {
        return false;
    }
    let Some(block) = scan(shelf, pass, counts.outlook.open) else {
        counts.scans += 1;
        return true;
    };
    counts.strangers += 1;
    gate.taken(pass.worker(), block);
    let _published = tend(alloc, levels, shelf, pass, made, gate, block);
    true
}
