//! Values of blocks. A block has the words of one degree and one product; its value is its rule, or why it has none.
//!
//! The values are shared: a block's value is read by each block above it.
//!
//! `AllocError` says that there was no memory.
#![tactic(auto)]

mod ends;
mod form;
mod key;
pub mod laws;
mod looking;
mod rule;
mod shared;
mod spot;
mod value;
mod words;

pub use ends::Ends;
pub use form::{Form, LentRelation, Looked};
pub use key::BlockKey;
pub use rule::{BlockRule, Upper};
pub use shared::{LowerValue, Shared};
pub use spot::Spot;
pub use value::BlockValue;
pub use words::{Words, place_of};

#[cfg(test)]
mod tests;
