//! Words and combinations of words: the elements of the tensor algebra that the program works with.
//!
//! `AllocError` says that there was no memory.
#![tactic(auto)]

mod comb;
mod longer;
mod merge;
mod multiples;
mod order;
mod relation;
mod sum;
mod term;
mod word;

pub use comb::Comb;
pub use longer::with_letters;
pub use relation::Relation;
pub use term::Term;
pub use word::Word;

#[cfg(test)]
mod tests;
