//! How a task makes its value.

ghost use Rattle.std.specs.Prelude.{◌<◌, IfSome};
ghost use Rattle.nichols_block.specs.Lower.{AreLowerValues};
ghost use Rattle.nichols_shelf.specs.Passes.{plan_of};
ghost use Rattle.nichols_shelf.specs.Places.{blocks};
ghost use Rattle.nichols_shelf.specs.Plan.{IsRightFor, key_at};
ghost use Rattle.nichols_value.specs.Worth.{worth};
ghost use Rattle.nichols_crew.specs.Lower.{AreLowerOf};
ghost use Rattle.nichols_crew.specs.Wave.{IsWave};

use nichols_block::{Levels, lower_values, make};
use nichols_shelf::Shelf;
use nichols_value::{LowerValue, Shared};
use std::alloc::Global;

/// The value of a task, from the values that it picked, or, in the first degree of a wave, from those of the last degree.
#[tactic(auto, unfolding(nichols_shelf::specs::Plan::IsRightFor))]
pub(crate) fn value_of(
    alloc: Global,
    levels: &Levels,
    shelf: &Shelf,
    task: u32,
    picked: Option<Vec<LowerValue>>,
) -> Shared
    requires wave { IsWave levels.now.braid levels.now.last (plan_of shelf.now) }
    requires task { task < blocks (plan_of shelf.now) }
    requires picked { IfSome picked (λ l. AreLowerOf levels.now.braid levels.now.last (plan_of shelf.now) task l.items) }
    ensures { IsRightFor (plan_of shelf.now) task (worth result) }
{
    match lower_of(alloc, levels, shelf, task, picked) {
        Some(lower) => value_over(alloc, levels, shelf, task, lower.as_slice()),
        None => Shared::Starved,
    }
}

/// The values of the lower blocks of a task, unless there was no memory for them.
fn lower_of(
    alloc: Global,
    levels: &Levels,
    shelf: &Shelf,
    task: u32,
    picked: Option<Vec<LowerValue>>,
) -> Option<Vec<LowerValue>>
    requires wave { IsWave levels.now.braid levels.now.last (plan_of shelf.now) }
    requires task { task < blocks (plan_of shelf.now) }
    requires picked { IfSome picked (λ l. AreLowerOf levels.now.braid levels.now.last (plan_of shelf.now) task l.items) }
    ensures { IfSome result (λ l. AreLowerValues levels.now.braid (plan_of shelf.now).rows_limit (key_at (plan_of shelf.now) task) l.items) }
{
    let key = shelf.key(task);
    if key.degree - 1 > levels.last() {
        return picked;
    }
    match lower_values(alloc, levels, key) {
        Ok(lower) => Some(lower),
        Err(_) => None,
    }
}

/// The value of a task from those of its lower blocks.
#[tactic(auto, unfolding(nichols_shelf::specs::Plan::IsRightFor))]
fn value_over(
    alloc: Global,
    levels: &Levels,
    shelf: &Shelf,
    task: u32,
    lower: &[LowerValue],
) -> Shared
    requires wave { IsWave levels.now.braid levels.now.last (plan_of shelf.now) }
    requires task { task < blocks (plan_of shelf.now) }
    requires lower { AreLowerValues levels.now.braid (plan_of shelf.now).rows_limit (key_at (plan_of shelf.now) task) lower.now }
    ensures { IsRightFor (plan_of shelf.now) task (worth result) }
{
    let key = shelf.key(task);
    let value = make(alloc, levels.braid(), key, lower, shelf.rows_limit());
    Shared::of(alloc, value)
}
