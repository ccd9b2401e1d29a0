//! The degrees of an algebra one after the other, until it ends. What is said of them is defined by the quantum symmetrizers.
//!
//! `AllocError` says that there was no memory.
#![tactic(auto)]

mod ahead;
mod blocks;
mod counts;
mod ends;
mod factors;
mod graded;
pub mod laws;
mod merged;
mod next;
mod survey;

/// No dimension is as great: so many words have no room in memory.
pub const DIMENSION_BOUND: u64 = 1 << 57;

pub use ends::{Advance, End, Stop};
pub use graded::Graded;

#[cfg(test)]
mod tests;
