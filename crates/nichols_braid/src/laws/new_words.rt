//! Laws of new words and of the forms that are read from the left and from the right, for every braid and every length.

ghost use Rattle.nichols_braid.specs.NewWordLaws.{FirstNewWords, NewWordsAreCandidates, LeastWordsAreNew, LeftFormsAreNormal, RightFormsAreNormal, FormsReadEarlierWords, OtherWordsAreRead};

/// The new word of degree 0 is the empty word, and those of degree 1 are the letters, where the empty word is least.
pub fn first_new_words()
    ensures { FirstNewWords }
{}

/// The new words of a degree are the candidates that are least without their first letter.
#[tactic(auto, using(crate::proofs::NewWordLaws::new_words_are_candidates))]
pub fn new_words_are_candidates()
    ensures { NewWordsAreCandidates }
{}

/// Each least word is new, where what is zero in the algebra is a right and a left ideal.
#[tactic(auto, using(crate::proofs::NewWordLaws::least_words_are_new))]
pub fn least_words_are_new()
    ensures { LeastWordsAreNew }
{}

/// The normal form of `a w` is read off that of w, where what is zero in the algebra is a left ideal: the sum of c times the
/// normal form of `a u` over the terms `c u`.
#[tactic(auto, using(crate::proofs::NewWordLaws::left_forms_are_normal))]
pub fn left_forms_are_normal()
    ensures { LeftFormsAreNormal }
{}

/// The normal form of `w b` is read off that of w, where what is zero in the algebra is a right ideal: the sum of c times the
/// normal form of `u b` over the terms `c u`.
#[tactic(auto, using(crate::proofs::NewWordLaws::right_forms_are_normal))]
pub fn right_forms_are_normal()
    ensures { RightFormsAreNormal }
{}

/// Where w isn't least, the words `a u` and `u b` that are read for `a w` and `w b` stand before them.
pub fn forms_read_earlier_words()
    ensures { FormsReadEarlierWords }
{}

/// A word `a v b` that isn't new is read from the left, by `v b`, or from the right, by `a v`: its normal form is that side's
/// form, in order, which is read from words before it.
#[tactic(auto, using(crate::proofs::NewWordLaws::other_words_are_read))]
pub fn other_words_are_read()
    ensures { OtherWordsAreRead }
{}
