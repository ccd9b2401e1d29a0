//! Elements of the tensor algebra over plain lists: words, combinations and the word order, as contracts see them.
#![tactic(auto)]

pub mod laws;

/// The greatest letter of a braid, and the most letters that it has.
pub const LETTER_LIMIT: u8 = 24;

/// The most letters of a word.
pub const WORD_LIMIT: usize = 60;
