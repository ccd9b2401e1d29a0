//! Blocks of a Nichols algebra, each made from the blocks below it by skew derivations: the least words of one degree and one
//! product, the normal forms of their derivatives, and the relations between words of that product.
//!
//! `AllocError` says that there was no memory.
#![tactic(auto)]

mod collect;
mod derivatives;
mod empty;
mod forms;
mod levels;
mod lower;
mod lowest;
mod making;
mod rule;
mod split;
mod words;

pub use collect::lower_values;
pub use levels::Levels;
pub use making::make;
pub use nichols_value::{BlockKey, BlockRule, BlockValue, Form, Looked, LowerValue, Shared};

/// The greatest number of words, rows or columns of a block: their places are kept in 32 bits.
const MOST_PLACES: usize = u32::MAX as usize;

#[cfg(test)]
mod tests;
