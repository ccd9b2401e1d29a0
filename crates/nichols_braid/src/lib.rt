//! Braids of rack type, with the definitions of the Nichols algebra.
#![tactic(auto)]

mod braid;
mod cocycle_law;
mod entry;
mod faults;
pub mod laws;
mod order;
mod product;
mod products;
mod rack_laws;
mod tables;
mod transposition;

pub use braid::Braid;
pub use entry::Entry;
pub use faults::{BraidFault, Shown};
use nichols_tensor::WORD_LIMIT;
pub use order::Order;
pub use product::Product;
pub use products::{Products, ProductsFault};
pub use tables::Scalars;

/// The least number of points whose transpositions are made a braid.
pub const POINTS_LEAST: u32 = 3;

/// The greatest number of points whose transpositions are made a braid.
pub const POINTS_MOST: u32 = 7;

/// The greatest degree of an algebra that is made: that of the longest words.
pub const MOST_DEGREES: u32 = WORD_LIMIT as u32;

/// The greatest number of products that a degree is made with.
pub const MOST_PRODUCTS: usize = 5_040;

/// The greatest number of candidates of one product that a degree is made with; a lower limit may be asked for.
pub const MOST_ROWS: u32 = 65_536;

#[cfg(test)]
mod tests;
