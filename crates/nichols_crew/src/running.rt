//! Workers on threads.

ghost use Rattle.std.specs.Prelude.{◌<◌, ℕ, All, length, slice_index_or};
ghost use Rattle.nichols_shelf.specs.Passes.{plan_of};
ghost use Rattle.nichols_crew.specs.Hands.{HasWorked, IsReadyHand};
ghost use Rattle.nichols_crew.specs.Wave.{IsWave};

use crate::gate::Gate;
use crate::hand::Hand;
use crate::working::work;
use nichols_block::Levels;
use nichols_shelf::Shelf;
use std::alloc::Global;
use std::thread::{self, Threads};

/// One worker.
fn work_with<G: Gate>(alloc: Global, levels: &Levels, shelf: &Shelf, hand: &mut Hand, gate: &G)
    requires wave { IsWave levels.now.braid levels.now.last (plan_of shelf.now) }
    requires hand { IsReadyHand shelf.now hand.old }
    ensures { HasWorked shelf.now hand.old hand.new }
{
    work(alloc, levels, shelf, &mut hand.pass, &mut hand.made, gate);
}

/// All workers, each on a thread of its own.
pub(crate) fn work_all<R: Threads + Sync, G: Gate + Sync>(
    rt: &R,
    alloc: Global,
    levels: &Levels,
    shelf: &Shelf,
    hands: &mut [Hand],
    gate: &G,
)
    requires some { 0 < length hands.old }
    requires wave { IsWave levels.now.braid levels.now.last (plan_of shelf.now) }
    requires hands { All (λ h. IsReadyHand shelf.now h) hands.old }
    ensures { (i : ℕ) (d : _) → i < length hands.old → HasWorked shelf.now (slice_index_or hands.old i d) (slice_index_or hands.new i d) }
{
    let threads = hands.len();
    thread::for_each_mut(
        rt,
        hands,
        threads,
        &|_, hand| work_with(alloc, levels, shelf, hand, gate),
    );
}
