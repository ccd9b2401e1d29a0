//! The terms of combinations.

use crate::Word;
use std::marker::Model;

/// A word with its coefficient, a number that stands for an element of a field.
#[derive(Clone, Copy, PartialEq, Eq)]
pub struct Term {
    pub word: Word,
    pub coefficient: u32,
}

impl Model for Term {
    ghost use Rattle.nichols_tensor.specs.Combination.{Term as PlainTerm};

    ghost Value = { PlainTerm };

    ghost view = { λ t. record { word = t.word; coefficient = t.coefficient } };

    ghost inverse = { λ t. record { word = t.word; coefficient = t.coefficient } };
}
