//! The values of the blocks of the next degrees.

ghost use Rattle.std.specs.Prelude.{◌≡◌, ◌+◌, ◌≤◌, IfOk, OnErr, length, suc};
ghost use Rattle.std.specs.List.{list_all};
ghost use Rattle.nichols_braid.specs.declared.TheConstants.{MOST_DEGREES, MOST_ROWS};
ghost use Rattle.nichols_value.specs.Worth.{worth};
ghost use Rattle.nichols_layout.specs.declared.TheConstants.{MOST_WINDOW};
ghost use Rattle.nichols_layout.specs.Keys.{AreLists};
ghost use Rattle.nichols_layout.specs.Values.{AreRightLists};
ghost use Rattle.nichols_crew.specs.Counting.{HasCounted, block_count};
ghost use Rattle.nichols_crew.specs.Wave.{AreWithin};
ghost use Rattle.nichols_graded.specs.Sizes.{is_rule};

use nichols_block::{BlockValue, Levels, Shared};
use nichols_braid::Products;
use nichols_crew::{Gate, Wave, wave};
use nichols_layout::{by_degree, rooms};
use std::alloc::{AllocError, Global};
use std::thread::Threads;

/// Whether a value is a rule.
fn is_rule(value: &Shared) -> bool
    ensures { result ≡ is_rule (worth value.now) }
{
    match value.get() {
        Some(BlockValue::Rule(_)) => true,
        _ => false,
    }
}

/// Whether each value is a rule.
pub(crate) fn are_rules(values: &[Shared]) -> bool
    ensures { result ≡ list_all (λ v. is_rule (worth v)) values.now }
{
    values.iter().all(|value| is_rule(value))
}

/// The values of the blocks of the degrees after the last one, of which `above` has the products: a list for each degree, by product.
/// The gate is given the closed shelf through which they went.
pub(crate) fn degree_values<R: Threads + Sync, G: Gate + Sync>(
    rt: &R,
    alloc: Global,
    levels: &Levels,
    above: &[Products],
    rows_limit: u32,
    workers: u32,
    gate: &mut G,
) -> Result<Vec<Vec<Shared>>, AllocError>
    requires some { 1 ≤ length above.now }
    requires few { length above.now ≤ MOST_WINDOW }
    requires room { levels.now.last + length above.now ≤ MOST_DEGREES }
    requires above { AreLists levels.now.braid (suc levels.now.last) above.now }
    requires some_rows { 1 ≤ rows_limit }
    requires few_rows { rows_limit ≤ MOST_ROWS }
    requires within { AreWithin levels.now.braid rows_limit levels.now.last }
    requires some_workers { 1 ≤ workers }
    ensures values { IfOk result (λ r. AreRightLists levels.now.braid rows_limit (suc levels.now.last) (length above.now) r.items) }
    ensures counted { IfOk result (λ _. HasCounted (block_count levels.now.braid (suc levels.now.last) (length above.now)) (G.count gate.old) (G.count gate.new)) }
    ensures uncounted { OnErr result (G.count gate.new ≡ G.count gate.old) }
{
    let lists = rooms(alloc, above)?;
    let Wave { values, closed } = wave(rt, alloc, levels, above, rows_limit, workers, gate)?;
    gate.closed(closed);
    Ok(by_degree(lists, levels, above, values))
}
