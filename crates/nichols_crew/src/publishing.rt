//! How a task is published.

ghost use Rattle.std.specs.Prelude.{◌<◌};
ghost use Rattle.nichols_shelf.specs.Passes.{HasLaidAll, HasPickedAll, IsOf, plan_of, view_of};
ghost use Rattle.nichols_shelf.specs.Places.{blocks};
ghost use Rattle.nichols_shelf.specs.Settled.{HoldsNothing, ResumesNothing};
ghost use Rattle.nichols_crew.specs.Owing.{IsSimple};
ghost use Rattle.nichols_crew.specs.Tasks.{HoldsOnly, Publishes};

use crate::gate::Gate;
use crate::releasing::release_all;
use nichols_shelf::{Pass, Shelf};

/// Publishes the task, tells the gate, and releases what waited for it.
pub(crate) fn publish_task<G: Gate>(shelf: &Shelf, pass: &mut Pass, gate: &G, task: u32)
    requires pass { IsOf shelf.now pass.old }
    requires task { task < blocks (plan_of shelf.now) }
    requires simple { IsSimple (plan_of shelf.now) }
    requires holds { HoldsOnly task (view_of pass.old) }
    requires resumes { ResumesNothing (view_of pass.old) }
    requires picked { HasPickedAll (plan_of shelf.now) (view_of pass.old) task }
    requires laid { HasLaidAll (plan_of shelf.now) (view_of pass.old) task }
    ensures pass { IsOf shelf.now pass.new }
    ensures holds { HoldsNothing (view_of pass.new) }
    ensures resumes { ResumesNothing (view_of pass.new) }
    ensures publishes { Publishes (plan_of shelf.now) task (view_of pass.old) (view_of pass.new) }
{
    shelf.layout().meets_its_rules();
    let bits = shelf.publish(pass, task);
    gate.published(pass.worker(), task);
    release_all(shelf, pass, task, bits);
}
