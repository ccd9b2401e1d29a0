//! Lifts of permutations to words, and the quantum symmetrizer with its laws.
//!
//! `AllocError` says that there was no memory.
#![tactic(auto)]

mod crossing;
mod image;
pub mod laws;
mod lifting;
mod perm;

/// The most places of a permutation that is kept, and the most letters of a word whose image under the quantum symmetrizer is asked for.
pub const PLACE_LIMIT: usize = 7;

pub use crossing::cross_at;
pub use image::symmetrize;
pub use lifting::{lift, lift_by};
pub use perm::Perm;

#[cfg(test)]
mod tests;
