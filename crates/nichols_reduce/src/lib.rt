//! Normal forms of elements of a Nichols algebra, as far as its degrees are made.
//!
//! `AllocError` says that there was no memory.
#![tactic(auto)]

mod answer;
pub mod laws;
mod letters;
mod many;
mod pace;
mod parts;
mod reduced;
mod sums;
mod words;

pub use answer::Normal;
pub use letters::{block_rule, follow};
pub use many::normal_all;
pub use parts::longest;
pub use reduced::normal;
pub use sums::put_terms;

#[cfg(test)]
mod tests;
