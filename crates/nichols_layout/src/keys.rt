//! The keys of the blocks of a wave, by degree and then by product number.

ghost use Rattle.std.specs.Prelude.{◌≡◌, ◌+◌, ◌*◌, ◌≤◌, ◌++◌, suc, IfOk, OnOk, length, map};
ghost use Rattle.nichols_braid.specs.declared.TheConstants.{MOST_PRODUCTS};
ghost use Rattle.nichols_layout.specs.declared.TheConstants.{MOST_WINDOW};
ghost use Rattle.nichols_layout.specs.Keys.{AreLists, degree_of, keys_of, keys_up_to};

use nichols_block::Levels;
use nichols_braid::Products;
use nichols_value::BlockKey;
use std::alloc::{AllocError, Global};

/// The keys of a wave.
pub(crate) fn wave_keys(
    alloc: Global,
    levels: &Levels,
    above: &[Products],
) -> Result<Vec<BlockKey>, AllocError>
    requires few { length above.now ≤ MOST_WINDOW }
    requires above { AreLists levels.now.braid (suc levels.now.last) above.now }
    ensures keys { IfOk result (λ r. r.items ≡ keys_up_to levels.now.braid (suc levels.now.last) (length above.now)) }
    ensures few { IfOk result (λ r. length r.items ≤ MOST_WINDOW * MOST_PRODUCTS) }
{
    let last = levels.last();
    let mut keys = Vec::new(alloc);
    for i in 0..above.len() {
        push_keys(&mut keys, last + 1 + i as u32, &above[i])?;
    }
    Ok(keys)
}

/// Puts the keys of the blocks of a degree behind.
fn push_keys(keys: &mut Vec<BlockKey>, degree: u32, products: &Products) -> Result<(), AllocError>
    ensures keys { OnOk result (keys.new.items ≡ keys.old.items ++ keys_of degree products.now) }
    ensures few { length products.now ≤ MOST_PRODUCTS }
{
    for k in 0..products.len() {
        let product = *products.at(k);
        keys.push(BlockKey { degree, product })?;
    }
    Ok(())
}

/// The degree of each block.
pub(crate) fn degrees_of(alloc: Global, keys: &[BlockKey]) -> Result<Vec<u32>, AllocError>
    ensures { IfOk result (λ r. r.items ≡ map degree_of keys.now) }
{
    let mut degrees = Vec::with_capacity(alloc, keys.len())?;
    for key in keys {
        degrees.push(key.degree)?;
    }
    Ok(degrees)
}
