//! A wave, from its degrees to its values.

ghost use Rattle.std.specs.Prelude.{◌≡◌, ◌+◌, ◌≤◌, suc, IfOk, length, replicate};
ghost use Rattle.nichols_braid.specs.declared.TheConstants.{MOST_DEGREES, MOST_ROWS};
ghost use Rattle.nichols_layout.specs.declared.TheConstants.{MOST_WINDOW};
ghost use Rattle.nichols_layout.specs.Keys.{AreLists, keys_up_to};
ghost use Rattle.nichols_layout.specs.Laid.{IsWaveLayout};
ghost use Rattle.nichols_layout.specs.Values.{AreRight};
ghost use Rattle.nichols_value.specs.declared.shared.Shared.TheVariants as variant;
ghost use Rattle.nichols_shelf.specs.Places.{blocks};
ghost use Rattle.nichols_shelf.specs.Closed.{IsAllPublished, last_view, plan_in};
ghost use Rattle.nichols_shelf.specs.Passes.{IsOf, plan_of, view_of};
ghost use Rattle.nichols_shelf.specs.Views.{first_view};
ghost use Rattle.nichols_crew.specs.Hands.{AreAnswered, AreFresh, AreHands, HasWorked};
ghost use Rattle.nichols_crew.specs.Values.{AreLaid};
ghost use Rattle.nichols_crew.specs.Wave.{AreWithin, IsWave};

use crate::ended::Wave;
use crate::gate::Gate;
use crate::gathering::{by_block, gather, starved};
use crate::hand::Hand;
use crate::opening::open_hands;
use crate::running::work_all;
use nichols_block::Levels;
use nichols_braid::Products;
use nichols_layout::lay_out;
use nichols_shelf::{Pass, Shelf};
use nichols_value::Shared;
use std::alloc::{AllocError, Global};
use std::thread::Threads;

/// Makes the blocks of the 1 to `MOST_WINDOW` degrees after the last one, of which `above` has the products, by so many workers.
///
/// There is a value for each block, by degree and then by product number: the block's own, or `Starved` where there was no memory for
/// it. Each went through the shelf, which is closed with every block published. The shelf, the passes and all lists are made before
/// the first take, so want of memory inside a worker is always a value. `AllocError` says that there was no memory before it, or to
/// close the shelf.
pub fn wave<R: Threads + Sync, G: Gate + Sync>(
    rt: &R,
    alloc: Global,
    levels: &Levels,
    above: &[Products],
    rows_limit: u32,
    workers: u32,
    gate: &G,
) -> Result<Wave, AllocError>
    requires some { 1 ≤ length above.now }
    requires few { length above.now ≤ MOST_WINDOW }
    requires room { levels.now.last + length above.now ≤ MOST_DEGREES }
    requires above { AreLists levels.now.braid (suc levels.now.last) above.now }
    requires some_rows { 1 ≤ rows_limit }
    requires few_rows { rows_limit ≤ MOST_ROWS }
    requires within { AreWithin levels.now.braid rows_limit levels.now.last }
    requires some_workers { 1 ≤ workers }
    ensures braid { IfOk result (λ w. (plan_in w.closed).braid ≡ levels.now.braid) }
    ensures keys { IfOk result (λ w. (plan_in w.closed).keys ≡ keys_up_to levels.now.braid (suc levels.now.last) (length above.now)) }
    ensures layout { IfOk result (λ w. IsWaveLayout levels.now.braid levels.now.last (plan_in w.closed).keys (plan_in w.closed).layout) }
    ensures limit { IfOk result (λ w. (plan_in w.closed).rows_limit ≡ rows_limit) }
    ensures all { IfOk result (λ w. IsAllPublished w.closed) }
    ensures values { IfOk result (λ w. AreRight levels.now.braid rows_limit (plan_in w.closed).keys w.values.items) }
    ensures laid { IfOk result (λ w. AreLaid (plan_in w.closed) (last_view w.closed) w.values.items) }
{
    let (layout, keys) = lay_out(alloc, levels, above)?;
    let values = starved(alloc, keys.len())?;
    let (shelf, pass) = Shelf::start(alloc, layout, keys, rows_limit, levels)?;
    through_shelf(rt, alloc, levels, shelf, pass, workers, values, gate)
}

/// Runs so many workers over a shelf that was just started, and puts what they made into a list with a place for each block.
fn through_shelf<R: Threads + Sync, G: Gate + Sync>(
    rt: &R,
    alloc: Global,
    levels: &Levels,
    shelf: Shelf,
    pass: Pass,
    workers: u32,
    values: Vec<Shared>,
    gate: &G,
) -> Result<Wave, AllocError>
    requires wave { IsWave levels.now.braid levels.now.last (plan_of shelf) }
    requires pass { IsOf shelf pass }
    requires first { view_of pass ≡ first_view (plan_of shelf) }
    requires some { 1 ≤ workers }
    requires values { values.items ≡ replicate (blocks (plan_of shelf)) variant.Starved }
    ensures plan { IfOk result (λ w. plan_in w.closed ≡ plan_of shelf) }
    ensures all { IfOk result (λ w. IsAllPublished w.closed) }
    ensures answered { IfOk result (λ w. AreAnswered (plan_of shelf) (last_view w.closed) w.values.items) }
{
    let lists = Vec::with_capacity(alloc, workers as usize)?;
    let hands = open_hands(alloc, &shelf, pass, workers)?;
    let (zero, others) = worked(rt, alloc, levels, &shelf, hands, gate);
    shelf.layout().meets_its_rules();
    let (closed, lists) = gather(alloc, shelf, zero, others, lists)?;
    let values = by_block(values, lists);
    Ok(Wave { values, closed })
}

/// The hands after their work: that of worker 0, and the others in the order of their numbers.
fn worked<R: Threads + Sync, G: Gate + Sync>(
    rt: &R,
    alloc: Global,
    levels: &Levels,
    shelf: &Shelf,
    mut hands: Vec<Hand>,
    gate: &G,
) -> (Hand, Vec<Hand>)
    requires wave { IsWave levels.now.braid levels.now.last (plan_of shelf.now) }
    requires some { 1 ≤ length hands.items }
    requires hands { AreFresh shelf.now (length hands.items) hands.items }
    ensures zero { HasWorked shelf.now result.0 result.0 }
    ensures zeroth { (view_of result.0.pass).worker ≡ 0 }
    ensures joined { (view_of result.0.pass).joined ≡ 1 }
    ensures passes { (view_of result.0.pass).passes ≡ 1 + length result.1.items }
    ensures others { AreHands shelf.now 1 result.1.items }
    ensures count { 1 + length result.1.items ≡ length hands.items }
{
    work_all(rt, alloc, levels, shelf, hands.as_mut_slice(), gate);
    let Some(zero) = hands.pop() else {
        unreachable!()
    };
    (zero, hands)
}
