//! What the tests of several crates share: words as texts, and braids from tables of numbers.
//!
//! Tests alone call it.
#![tactic(auto)]

mod braids;
mod words;

pub use braids::{
    braid_with_constant, braid_with_table, one_letter, tetrahedron, three_transpositions,
    twisted_transpositions, two_letters,
};
pub use words::{has_terms, has_words, word, word_over};
