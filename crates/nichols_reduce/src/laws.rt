//! Laws of normal forms of elements, for every braid and every combination of words over its letters.

ghost use Rattle.nichols_reduce.specs.Laws.{AnswersAreKnown, LongWordsAreZero, FormsHaveOneReading, FormsTellElements, FormsAreLinear, FormsAreTheirOwn};

/// A word is beyond the last degree exactly where that degree has least words and the word is longer; else the answer is the
/// normal form.
#[tactic(auto, using(crate::proofs::ReduceLaws::answers_are_known))]
pub fn answers_are_known()
    ensures { AnswersAreKnown }
{}

/// Words that are as long as an empty degree, or longer, are zero.
#[tactic(auto, using(crate::proofs::ReduceLaws::long_words_are_zero))]
pub fn long_words_are_zero()
    ensures { LongWordsAreZero }
{}

/// The skew derivations and the quantum symmetrizer give one normal form.
#[tactic(auto, using(crate::proofs::ReduceLaws::forms_have_one_reading))]
pub fn forms_have_one_reading()
    ensures { FormsHaveOneReading }
{}

/// Two combinations have one normal form exactly where their difference is zero in the algebra.
#[tactic(auto, using(crate::proofs::ReduceLaws::forms_tell_elements))]
pub fn forms_tell_elements()
    ensures { FormsTellElements }
{}

/// The normal form is linear.
#[tactic(auto, using(crate::proofs::ReduceLaws::forms_are_linear))]
pub fn forms_are_linear()
    ensures { FormsAreLinear }
{}

/// A normal form is its own normal form.
#[tactic(auto, using(crate::proofs::ReduceLaws::forms_are_their_own))]
pub fn forms_are_their_own()
    ensures { FormsAreTheirOwn }
{}
