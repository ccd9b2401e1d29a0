//! The number of candidates of each product.

ghost use Rattle.std.specs.Prelude.{◌≡◌, ◌<◌, ◌≤◌, ℕ, length, map, slice_index, suc, vec_capacity};
ghost use Rattle.nichols_braid.specs.Kernel.{is_killed};
ghost use Rattle.nichols_braid.specs.Product.{product_before};
ghost use Rattle.nichols_braid.specs.Products.{products, rows};
ghost use Rattle.nichols_value.specs.Block.{block_basis};
ghost use Rattle.nichols_value.specs.Worth.{worth};
ghost use Rattle.nichols_graded.specs.declared.TheConstants.{DIMENSION_BOUND};
ghost use Rattle.nichols_graded.specs.Sizes.{AreSizes, size_of};

use nichols_block::{BlockValue, Shared};
use nichols_braid::{Braid, Product, Products};

/// The number of least words of a block, where the value is its rule.
fn size_of(value: &Shared) -> u64
    ensures value { result ≡ size_of (worth value.now) }
    ensures small { result < DIMENSION_BOUND }
{
    match value.get() {
        Some(BlockValue::Rule(rule)) => rule.basis().len() as u64,
        _ => 0,
    }
}

/// Puts the numbers of least words of blocks into a list that has room for them, in place of what was there.
pub(crate) fn put_sizes(sizes: &mut Vec<u64>, values: &[Shared])
    requires room { length values.now ≤ vec_capacity sizes.old }
    ensures sizes { sizes.new.items ≡ map (λ v. size_of (worth v)) values.now }
    ensures small { (k : ℕ) → slice_index sizes.new.items k < DIMENSION_BOUND }
    ensures room { vec_capacity sizes.new ≡ vec_capacity sizes.old }
{
    sizes.clear();
    for value in values {
        sizes.push_reserved(size_of(value));
    }
}

/// The number of least words of the block of a degree and the product before a letter, by the numbers of all blocks of the degree.
fn size_before(
    braid: &Braid,
    degree: u32,
    below: &Products,
    sizes: &[u64],
    product: &Product,
    letter: u8,
) -> u64
    requires products { below.now ≡ products braid.now degree }
    requires sizes { AreSizes braid.now degree sizes.now }
    requires product { length product.now ≡ braid.now.letters }
    requires some { 1 ≤ letter }
    requires most { letter ≤ braid.now.letters }
    ensures value { result ≡ length (block_basis braid.now degree (product_before braid.now letter product.now)) }
    ensures small { result < DIMENSION_BOUND }
{
    match below.find(&product.back(braid, letter)) {
        Some(k) => sizes[k],
        None => 0,
    }
}

/// The number of candidates of a product in the degree after one, by the numbers of least words of that degree's blocks: each least
/// word of the block before a letter makes one with that letter behind.
pub(crate) fn row_count(
    braid: &Braid,
    degree: u32,
    below: &Products,
    sizes: &[u64],
    product: &Product,
) -> u64
    requires products { below.now ≡ products braid.now degree }
    requires sizes { AreSizes braid.now degree sizes.now }
    requires product { length product.now ≡ braid.now.letters }
    ensures { result ≡ rows is_killed braid.now (suc degree) product.now }
{
    let _braid = braid.field();
    let mut count = 0;
    for a in 0..braid.letters() {
        count += size_before(braid, degree, below, sizes, product, a + 1);
    }
    count
}
