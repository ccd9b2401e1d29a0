//! Which block a value is of.

use nichols_braid::Product;

/// A block: its degree, and the product of its words.
#[derive(Clone, Copy)]
pub struct BlockKey {
    pub degree: u32,
    pub product: Product,
}
