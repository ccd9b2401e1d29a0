//! Skew derivations of combinations.
//!
//! `AllocError` says that there was no memory.
#![tactic(auto)]

mod derivation;
mod passing;

pub use derivation::derive;

#[cfg(test)]
mod tests;
