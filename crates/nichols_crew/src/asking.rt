//! How a task asks for its lower blocks.

ghost use Rattle.std.specs.Prelude.{◌<◌};
ghost use Rattle.std.specs.Bool.{MatchBool};
ghost use Rattle.nichols_shelf.specs.Passes.{HasPickedNone, IsOf, plan_of, view_of};
ghost use Rattle.nichols_shelf.specs.Places.{blocks};
ghost use Rattle.nichols_shelf.specs.Settled.{HoldsNothing};
ghost use Rattle.nichols_crew.specs.Tasks.{HoldsOnly, KeepsNotes, KnowsBelow, Stays};

use nichols_shelf::{Pass, Shelf};
use nichols_tensor::LETTER_LIMIT;

/// Asks the edges into the task by rising letter: whether all lower blocks are published. Where one isn't, the task is parked.
pub(crate) fn ask_all(shelf: &Shelf, pass: &mut Pass, task: u32) -> bool
    requires pass { IsOf shelf.now pass.old }
    requires task { task < blocks (plan_of shelf.now) }
    requires holds { HoldsOnly task (view_of pass.old) }
    requires unpicked { HasPickedNone (plan_of shelf.now) (view_of pass.old) task }
    ensures pass { IsOf shelf.now pass.new }
    ensures stays { Stays (view_of pass.old) (view_of pass.new) }
    ensures notes { KeepsNotes (view_of pass.old) (view_of pass.new) }
    ensures asked { MatchBool result (HoldsOnly task (view_of pass.new) × KnowsBelow (plan_of shelf.now) task (view_of pass.new)) (HoldsNothing (view_of pass.new)) }
{
    shelf.layout().meets_its_rules();
    for a in 0..LETTER_LIMIT {
        if shelf.edge_into(task, a + 1).is_some() {
            let asked = shelf.ask(pass, task, a + 1);
            if !asked.is_published() {
                return false;
            }
        }
    }
    true
}
