//! How all passes but one are joined into that one, and the shelf is closed.

ghost use Rattle.std.specs.Prelude.{◌≡◌, ◌+◌, length, IfOk};
ghost use Rattle.nichols_shelf.specs.Closed.{plan_in, last_view, IsAllPublished};
ghost use Rattle.nichols_shelf.specs.Joining.{AreNumbered, OweNothing, joined_views};
ghost use Rattle.nichols_shelf.specs.Passes.{IsOf, plan_of, view_of};
ghost use Rattle.nichols_shelf.specs.Settled.{HoldsNothing, ResumesNothing, OwesNothing, IsSettled};

use crate::closed::Closed;
use crate::pass::Pass;
use crate::shelf::Shelf;
use std::alloc::{AllocError, Global};

impl Shelf {
    /// Joins passes in the order of their worker numbers, from the least one that worker 0 doesn't stand for yet.
    pub fn join_all(&self, pass: &mut Pass, others: Vec<Pass>)
        requires pass { IsOf self.now pass.old }
        requires zeroth { (view_of pass.old).worker ≡ 0 }
        requires numbered { AreNumbered self.now (view_of pass.old).joined others.items }
        ensures pass { IsOf self.now pass.new }
        ensures view { view_of pass.new ≡ joined_views (view_of pass.old) others.items }
        ensures zeroth { (view_of pass.new).worker ≡ 0 }
        ensures joined { (view_of pass.new).joined ≡ (view_of pass.old).joined + length others.items }
        ensures passes { (view_of pass.new).passes ≡ (view_of pass.old).passes }
        ensures holds { HoldsNothing (view_of pass.old) → HoldsNothing (view_of pass.new) }
        ensures resumes { ResumesNothing (view_of pass.old) → ResumesNothing (view_of pass.new) }
        ensures owes { OwesNothing (view_of pass.old) → OweNothing others.items → OwesNothing (view_of pass.new) }
    {
        for other in others {
            self.join(pass, other);
        }
    }

    /// Joins all other passes, and closes the shelf. Where none of them owed anything, every block is published. For want of memory
    /// shelf and passes are gone.
    pub fn settle(
        self,
        alloc: Global,
        mut pass: Pass,
        others: Vec<Pass>,
    ) -> Result<Closed, AllocError>
        requires pass { IsOf self pass }
        requires zeroth { (view_of pass).worker ≡ 0 }
        requires numbered { AreNumbered self (view_of pass).joined others.items }
        requires all { (view_of pass).joined + length others.items ≡ (view_of pass).passes }
        requires holds { HoldsNothing (view_of pass) }
        requires resumes { ResumesNothing (view_of pass) }
        ensures plan { IfOk result (λ c. plan_in c ≡ plan_of self) }
        ensures view { IfOk result (λ c. last_view c ≡ joined_views (view_of pass) others.items) }
        ensures settled { IfOk result (λ c. IsSettled (plan_of self) (joined_views (view_of pass) others.items)) }
        ensures all { IfOk result (λ c. OwesNothing (view_of pass) → OweNothing others.items → IsAllPublished c) }
    {
        self.join_all(&mut pass, others);
        let closed = self.close(alloc, pass)?;
        Ok(closed)
    }
}
