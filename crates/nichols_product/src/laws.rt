//! Laws of products of normal forms, for every braid and all combinations of words over its letters, whatever their lengths; read in
//! the quantum symmetrizer and in the skew derivations.

ghost use Rattle.nichols_product.specs.Laws.{AnswersAreKnown, AnswersAreOfFirstFactors, FormsMultiply, FormsMultiplyAssociatively};

/// The product of the normal forms of f and g has the normal form of `f g`.
#[tactic(auto, using(crate::proofs::ProductForms::forms_multiply))]
pub fn forms_multiply()
    ensures { FormsMultiply }
{}

/// Products that are brought to normal form are associative.
#[tactic(auto, using(crate::proofs::ProductForms::forms_multiply_associatively))]
pub fn forms_multiply_associatively()
    ensures { FormsMultiplyAssociatively }
{}

/// A product is beyond the last degree exactly where that degree has least words, no factor is zero, and the degrees of the factors have
/// a sum above it; else the answer is the normal form, which is zero where a factor is.
#[tactic(auto, using(crate::proofs::AnswerLaws::answers_are_known))]
pub fn answers_are_known()
    ensures { AnswersAreKnown }
{}

/// Of a list of factors there is an answer for each: that of the product of the factors up to it.
pub fn answers_are_of_first_factors()
    ensures { AnswersAreOfFirstFactors }
{}
