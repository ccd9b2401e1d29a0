//! How a shelf is started.

ghost use Rattle.std.specs.Prelude.{◌≡◌, ◌+◌, ◌*◌, ◌^◌, ◌<◌, length, vec_len, IfOk};
ghost use Rattle.nichols_core.specs.Layout.{IsLayout};
ghost use Rattle.nichols_shelf.specs.Passes.{IsOf, plan_of, view_of};
ghost use Rattle.nichols_shelf.specs.Views.{first_view};

use crate::board::{Board, Place};
use crate::owed::Owed;
use crate::pass::Pass;
use crate::plan::Plan;
use crate::shelf::Shelf;
use crate::tables::{entries, exits};
use atomic_table::Table;
use nichols_block::Levels;
use nichols_core::Layout;
use nichols_value::BlockKey;
use std::alloc::{AllocError, Global};

impl Shelf {
    /// A shelf of these blocks, with the pass of worker 0, who owes all of them.
    ///
    /// `keys` has the key of each block, in block order. The braid is that of `base`, and says which values are right for a key.
    pub fn start(
        alloc: Global,
        layout: Layout,
        keys: Vec<BlockKey>,
        rows_limit: u32,
        base: &Levels,
    ) -> Result<(Shelf, Pass), AllocError>
        requires { vec_len keys ≡ length layout.degrees }
        ensures pass { IfOk result (λ r. IsOf r.0 r.1) }
        ensures plan { IfOk result (λ r. plan_of r.0 ≡ record { braid = base.now.braid; layout = layout; keys = keys.items; rows_limit = rows_limit }) }
        ensures view { IfOk result (λ r. view_of r.1 ≡ first_view (plan_of r.0)) }
    {
        let kept = base.braid().copy(alloc)?;
        let (blocks, edges) = counts(&layout);
        let entries = entries(alloc, &layout)?;
        let exits = exits(alloc, &layout)?;
        let owed = Owed::of(alloc, blocks, true)?;
        let words = Vec::from_elem(alloc, 0u64, 1 + 2 * blocks + edges)?;
        let plan = Plan {
            braid: kept,
            layout,
            keys,
            rows_limit,
        };
        let (board, place): (Board, Place) = Table::vacant(alloc, words.as_slice(), edges, &plan)?;
        let shelf = Shelf {
            board,
            plan,
            entries,
            exits,
        };
        let pass = Pass {
            place,
            worker: 0,
            passes: 1,
            owed,
        };
        Ok((shelf, pass))
    }
}

/// How many blocks and edges there are, in a layout that meets its rules.
fn counts(layout: &Layout) -> (usize, usize)
    ensures blocks { result.0 ≡ length layout.now.degrees }
    ensures edges { result.1 ≡ length layout.now.edges }
    ensures rules { IsLayout layout.now }
    ensures few { length layout.now.degrees < 2 ^ 32 }
    ensures fits { length layout.now.edges < 2 ^ 63 }
{
    layout.meets_its_rules();
    (layout.degrees.len(), layout.edges.len())
}
