//! The layout of a wave, with the keys of its blocks.

ghost use Rattle.std.specs.Prelude.{◌≡◌, ◌≤◌, suc, IfOk, length};
ghost use Rattle.nichols_layout.specs.declared.TheConstants.{MOST_WINDOW};
ghost use Rattle.nichols_layout.specs.Keys.{AreLists, keys_up_to};
ghost use Rattle.nichols_layout.specs.Laid.{IsWaveLayout};

use crate::keys::{degrees_of, wave_keys};
use crate::linking::wave_edges;
use nichols_block::Levels;
use nichols_braid::Products;
use nichols_core::Layout;
use nichols_value::BlockKey;
use std::alloc::{AllocError, Global};

/// The layout of the wave of the degrees after the last one, of which `above` has the products, with the key of each block.
///
/// There is one block for each product of each degree, by degree and then by product number. An edge with a letter leads to a block
/// from its lower block by that letter, a leading one, where that is a block of the wave too.
pub fn lay_out(
    alloc: Global,
    levels: &Levels,
    above: &[Products],
) -> Result<(Layout, Vec<BlockKey>), AllocError>
    requires some { 1 ≤ length above.now }
    requires few { length above.now ≤ MOST_WINDOW }
    requires above { AreLists levels.now.braid (suc levels.now.last) above.now }
    ensures keys { IfOk result (λ r. r.1.items ≡ keys_up_to levels.now.braid (suc levels.now.last) (length above.now)) }
    ensures layout { IfOk result (λ r. IsWaveLayout levels.now.braid levels.now.last r.1.items r.0) }
{
    let _field = levels.braid().field();
    let keys = wave_keys(alloc, levels, above)?;
    let degrees = degrees_of(alloc, keys.as_slice())?;
    let edges = wave_edges(alloc, levels, above, keys.as_slice())?;
    let Some(layout) = Layout::new(degrees, edges) else {
        unreachable!()
    };
    Ok((layout, keys))
}
