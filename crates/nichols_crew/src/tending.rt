//! One task: a block that a pass took.

ghost use Rattle.std.specs.Prelude.{◌≡◌, ◌+◌, ◌<◌, ◌≤◌, ◌++◌, ◌∷◌, [], length, vec_capacity};
ghost use Rattle.std.specs.Bool.{MatchBool};
ghost use Rattle.nichols_shelf.specs.Passes.{IsOf, plan_of, view_of};
ghost use Rattle.nichols_shelf.specs.Places.{blocks};
ghost use Rattle.nichols_shelf.specs.Played.{KeepsNumbers};
ghost use Rattle.nichols_shelf.specs.Settled.{HoldsNothing, ResumesNothing};
ghost use Rattle.nichols_shelf.specs.Untouched.{IsUntouched};
ghost use Rattle.nichols_crew.specs.Kept.{IsKept};
ghost use Rattle.nichols_crew.specs.Owing.{count_below, IsSimple};
ghost use Rattle.nichols_crew.specs.Tasks.{HoldsOnly};
ghost use Rattle.nichols_crew.specs.Wave.{IsWave};

use crate::asking::ask_all;
use crate::gate::Gate;
use crate::laying::lay_all;
use crate::made::Made;
use crate::making::value_of;
use crate::picking::pick_all;
use crate::publishing::publish_task;
use nichols_block::Levels;
use nichols_shelf::{Pass, Shelf};
use std::alloc::Global;

/// Makes the task and publishes it, or parks it where a lower block isn't published: whether it was published.
pub(crate) fn tend<G: Gate>(
    alloc: Global,
    levels: &Levels,
    shelf: &Shelf,
    pass: &mut Pass,
    made: &mut Vec<Made>,
    gate: &G,
    task: u32,
) -> bool
    requires wave { IsWave levels.now.braid levels.now.last (plan_of shelf.now) }
    requires simple { IsSimple (plan_of shelf.now) }
    requires pass { IsOf shelf.now pass.old }
    requires task { task < blocks (plan_of shelf.now) }
    requires holds { HoldsOnly task (view_of pass.old) }
    requires resumes { ResumesNothing (view_of pass.old) }
    requires untouched { IsUntouched (plan_of shelf.now) task (view_of pass.old) }
    requires kept { IsKept (plan_of shelf.now) (view_of pass.old) made.old.items }
    requires room { blocks (plan_of shelf.now) ≤ vec_capacity made.old }
    ensures pass { IsOf shelf.now pass.new }
    ensures numbers { KeepsNumbers (view_of pass.old) (view_of pass.new) }
    ensures holds { HoldsNothing (view_of pass.new) }
    ensures resumes { ResumesNothing (view_of pass.new) }
    ensures kept { IsKept (plan_of shelf.now) (view_of pass.new) made.new.items }
    ensures room { blocks (plan_of shelf.now) ≤ vec_capacity made.new }
    ensures done { MatchBool result
        ((length made.new.items ≡ length made.old.items + 1) × (length made.new.items ≤ blocks (plan_of shelf.now)) × (count_below (blocks (plan_of shelf.now)) (view_of pass.new).owed ≤ count_below (blocks (plan_of shelf.now)) (view_of pass.old).owed + 24))
        ((made.new.items ≡ made.old.items) × ((view_of pass.new).owed ≡ (view_of pass.old).owed)) }
{
    shelf.layout().meets_its_rules();
    if !ask_all(shelf, pass, task) {
        return false;
    }
    let picked = pick_all(alloc, levels, shelf, pass, task);
    let value = value_of(alloc, levels, shelf, task, picked);
    let value = lay_all(shelf, pass, task, value);
    publish_task(shelf, pass, gate, task);
    keep(made, Made { block: task, value });
    true
}

/// Puts an entry behind a list that has room for it.
fn keep(made: &mut Vec<Made>, entry: Made)
    requires room { length made.old.items < vec_capacity made.old }
    ensures entry { made.new.items ≡ made.old.items ++ entry ∷ [] }
    ensures room { vec_capacity made.old ≤ vec_capacity made.new }
{
    made.push_reserved(entry);
}
