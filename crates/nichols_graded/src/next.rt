//! What is known of degree 1 at the start.

ghost use Rattle.std.specs.Prelude.{◌≡◌, ◌<◌, IfOk};
ghost use Rattle.nichols_braid.specs.Products.{products};
ghost use Rattle.nichols_graded.specs.Ahead.{IsAhead};

use crate::ahead::{Ahead, look_ahead};
use nichols_block::Levels;
use std::alloc::{AllocError, Global};

/// What is known of degree 1 where degree 0 is the last one.
pub(crate) fn first_ahead(
    alloc: Global,
    levels: &Levels,
    degree_limit: u32,
    rows_limit: u32,
) -> Result<Ahead, AllocError>
    requires { levels.now.last ≡ 0 }
    ensures { IfOk result (IsAhead levels.now.braid degree_limit rows_limit 1) }
{
    let sizes = [levels.rule(0, 0).basis().len() as u64];
    look_ahead(
        alloc,
        levels.braid(),
        0,
        levels.products(0),
        &sizes,
        degree_limit,
        rows_limit,
    )
}
