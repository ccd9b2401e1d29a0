//! Degrees of a Nichols algebra straight from the quantum symmetrizer: the plain program that faster ones are held against.
//!
//! `AllocError` says that there was no memory.
#![tactic(auto)]

mod columns;
mod degree;
mod images;

pub use degree::{PlainDegree, plain_degree};

#[cfg(test)]
mod tests;
