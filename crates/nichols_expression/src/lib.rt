//! Expressions: combinations of words, written as texts.
#![tactic(auto)]

mod digits;
mod expression;
mod faults;
pub mod laws;
mod pairs;
mod placed_fault;
mod ranks;
mod scan;
mod signs;
mod terms;
mod whole_word;
mod words;

pub use expression::read_expression;
pub use faults::{Cause, ExpressionFault};
pub use whole_word::read_whole_word;

/// The most digits of a number before `*`.
pub const NUMBER_LIMIT: usize = 9;

/// The most terms of an expression.
pub const TERM_LIMIT: usize = 1000;

/// The most expressions of a document.
pub const EXPRESSION_LIMIT: usize = 1000;

#[cfg(test)]
mod tests;
