//! What a slot keeps, and what a look finds.

use nichols_words::{Comb, Word};

/// A word with its normal form.
#[derive(Drop)]
pub struct Entry {
    pub word: Word,
    pub form: Comb,
}

/// What a look finds.
#[derive(Drop)]
pub enum Memoized {
    /// The normal form of the word, in a copy.
    Hit(Comb),
    /// The memo doesn't tell it.
    Miss,
}
