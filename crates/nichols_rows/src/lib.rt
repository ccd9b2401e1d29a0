//! Rows of words: what an elimination of the rows says of the words that have them.
//!
//! `AllocError` says that there was no memory.
#![tactic(auto)]

mod combination;
mod places;

pub use combination::combination_of;
pub use places::{independent_words, relations};

#[cfg(test)]
mod tests;
