//! How passes are split off and joined.

ghost use Rattle.std.specs.Prelude.{◌≡◌, ◌+◌, ◌^◌, ◌<◌, IfOk, IfErr};
ghost use Rattle.nichols_shelf.specs.Passes.{IsOf, view_of};
ghost use Rattle.nichols_shelf.specs.Settled.{HoldsNothing, ResumesNothing};
ghost use Rattle.nichols_shelf.specs.Views.{one_more, newcomer, joined_view};

use crate::board::{Newcomer, Return};
use crate::owed::Owed;
use crate::pass::Pass;
use crate::shelf::Shelf;
use std::alloc::{AllocError, Global};

impl Shelf {
    /// A pass of the next worker number, which owes, holds, resumes and made nothing. Worker 0's pass then shows one pass more.
    pub fn split(&self, alloc: Global, pass: &mut Pass) -> Result<Pass, AllocError>
        requires pass { IsOf self.now pass.old }
        requires zeroth { (view_of pass.old).worker ≡ 0 }
        requires few { (view_of pass.old).passes + 1 < 2 ^ 32 }
        ensures pass { IsOf self.now pass.new }
        ensures refused { IfErr result (λ _. view_of pass.new ≡ view_of pass.old) }
        ensures kept { IfOk result (λ _. view_of pass.new ≡ one_more (view_of pass.old)) }
        ensures given { IfOk result (λ p. IsOf self.now p × (view_of p ≡ newcomer (view_of pass.old))) }
    {
        let owed = Owed::of(alloc, self.block_count(), false)?;
        let place = self.board.shared.split_seat::<Newcomer>(&mut pass.place);
        let worker = pass.passes;
        pass.passes += 1;
        Ok(Pass {
            place,
            worker,
            passes: 1,
            owed,
        })
    }

    /// Joins the pass of the least worker number that worker 0 doesn't stand for yet. Worker 0 then owes and made what either did,
    /// and stands for that number too.
    pub fn join(&self, pass: &mut Pass, other: Pass)
        requires pass { IsOf self.now pass.old }
        requires other { IsOf self.now other }
        requires zeroth { (view_of pass.old).worker ≡ 0 }
        requires next { (view_of other).worker ≡ (view_of pass.old).joined }
        requires holds { HoldsNothing (view_of other) }
        requires resumes { ResumesNothing (view_of other) }
        ensures pass { IsOf self.now pass.new }
        ensures view { view_of pass.new ≡ joined_view (view_of pass.old) (view_of other) }
    {
        let Pass {
            place,
            worker: _,
            passes: _,
            owed,
        } = other;
        self.board
            .shared
            .join_seat::<Return>(&mut pass.place, place);
        pass.owed.add_all(&owed);
    }
}
