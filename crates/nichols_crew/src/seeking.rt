//! How a worker that owes nothing takes a block.

ghost use Rattle.std.specs.Prelude.{◌<◌, MatchOption};
ghost use Rattle.nichols_shelf.specs.Passes.{IsOf, plan_of, view_of};
ghost use Rattle.nichols_shelf.specs.Places.{blocks};
ghost use Rattle.nichols_shelf.specs.Settled.{HoldsNothing, OwesNothing};
ghost use Rattle.nichols_crew.specs.Tasks.{Claims, IsIdleSince};

use crate::waiting::{block_count, seems_open};
use nichols_shelf::{Pass, Shelf};

/// Takes the first block, in block order, that is ready and whose lower blocks seem published, of those from `first` on.
pub(crate) fn scan(shelf: &Shelf, pass: &mut Pass, first: u32) -> Option<u32>
    requires pass { IsOf shelf.now pass.old }
    requires holds { HoldsNothing (view_of pass.old) }
    requires owes { OwesNothing (view_of pass.old) }
    ensures pass { IsOf shelf.now pass.new }
    ensures found { MatchOption result (IsIdleSince (view_of pass.old) (view_of pass.new)) (λ b. (b < blocks (plan_of shelf.now)) × Claims (plan_of shelf.now) b (view_of pass.old) (view_of pass.new)) }
{
    let count = block_count(shelf);
    for block in first..count {
        if seems_open(shelf, block) && shelf.take(pass, block) {
            return Some(block);
        }
    }
    None
}
