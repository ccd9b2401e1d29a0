//! Answers to the question for a normal form.

use nichols_words::Comb;

/// What is known of an element where some degrees of its algebra are made.
#[derive(Drop)]
pub enum Normal {
    /// Its normal form: the combination of least words that is equal to it in the algebra.
    Form(Comb),
    /// A word is longer than the last degree that is made, which is this, and the algebra isn't closed.
    Beyond(u32),
}
