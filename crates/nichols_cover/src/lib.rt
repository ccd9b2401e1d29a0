//! Quadratic covers: how far the relations of degree 2 determine an algebra.
//!
//! `AllocError` says that there was no memory.
#![tactic(auto)]

mod covering;
mod degree;
pub mod laws;
mod level;
mod products;
mod value;

pub use covering::cover;
pub use value::{Cover, CoverStop};

#[cfg(test)]
mod tests;
