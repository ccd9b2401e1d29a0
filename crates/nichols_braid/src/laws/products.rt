//! Laws of the products of words, for every braid and every length.

ghost use Rattle.nichols_braid.specs.ProductLaws.{ProductsAreBijections, UnactIsBeforeAct, ProductBeforeALetter, CrossingKeepsProduct, CrossingsKeepProduct, LiftsKeepProduct, DerivativesKeepProduct, ProductsOfDerivatives, KernelSplitsByProduct, KilledSplitsByProduct};
ghost use Rattle.nichols_braid.specs.ProductListLaws.{FirstWordsRise, LeadingLetterIsFirst, NextProducts, ProductAfterALetter, ProductsAreDistinct, ProductsAreOfWords, RowsByLetters, RowsOfAProduct};

/// The product of a word over the letters is a bijection of the letters.
#[tactic(auto, using(crate::proofs::ProductLaws::products_are_bijections))]
pub fn products_are_bijections()
    ensures { ProductsAreBijections }
{}

/// The letter that the search for j under a's map finds is one whose image is j.
#[tactic(auto, using(crate::proofs::ProductLaws::unact_is_before_act))]
pub fn unact_is_before_act()
    ensures { UnactIsBeforeAct }
{}

/// The product of a word with a letter behind, taken before that letter, is the product of the word.
#[tactic(auto, using(crate::proofs::ProductLaws::product_before_a_letter))]
pub fn product_before_a_letter()
    ensures { ProductBeforeALetter }
{}

/// A crossing keeps the product of a word.
#[tactic(auto, using(crate::proofs::ProductLaws::crossing_keeps_product))]
pub fn crossing_keeps_product()
    ensures { CrossingKeepsProduct }
{}

/// The crossings at any list of places keep the product of a word.
#[tactic(auto, using(crate::proofs::ProductLaws::crossings_keep_product))]
pub fn crossings_keep_product()
    ensures { CrossingsKeepProduct }
{}

/// Each lift of a word, so each word of its image under the quantum symmetrizer, has the product of the word.
#[tactic(auto, using(crate::proofs::ProductLaws::lifts_keep_product))]
pub fn lifts_keep_product()
    ensures { LiftsKeepProduct }
{}

/// Each word of the skew derivative by a has, with a behind, the product of the word.
#[tactic(auto, using(crate::proofs::ProductLaws::derivatives_keep_product))]
pub fn derivatives_keep_product()
    ensures { DerivativesKeepProduct }
{}

/// Each word of the skew derivative by a has the product of the word, taken before a.
#[tactic(auto, using(crate::proofs::ProductLaws::products_of_derivatives))]
pub fn products_of_derivatives()
    ensures { ProductsOfDerivatives }
{}

/// A combination is in the kernel of the quantum symmetrizer exactly where its part of each product is.
pub fn kernel_splits_by_product()
    ensures { KernelSplitsByProduct }
{}

/// A combination is killed by the skew derivations exactly where its part of each product is.
#[tactic(auto, using(crate::proofs::ProductLaws::killed_splits_by_product))]
pub fn killed_splits_by_product()
    ensures { KilledSplitsByProduct }
{}

/// The product after a letter, of the product of a word, is that of the word with the letter behind.
#[tactic(auto, using(crate::proofs::ProductListLaws::product_after_a_letter))]
pub fn product_after_a_letter()
    ensures { ProductAfterALetter }
{}

/// The leading letter of a letter has the same map, and no letter with that map is before it.
pub fn leading_letter_is_first()
    ensures { LeadingLetterIsFirst }
{}

/// The list of a degree has the products of the words of that length, and no others, each once, in the order of the first
/// word that has it.
pub fn products_are_of_words()
    ensures words { ProductsAreOfWords }
    ensures once { ProductsAreDistinct }
    ensures order { FirstWordsRise }
{}

/// The products of the next degree are those after each letter, of each product in turn, each once.
#[tactic(auto, using(crate::proofs::ProductListLaws::next_products))]
pub fn next_products()
    ensures { NextProducts }
{}

/// The rows of a product are the least words of the degree before with a letter behind that have it, counted by the words,
/// and counted by the letters.
pub fn rows_of_a_product()
    ensures words { RowsOfAProduct }
    ensures letters { RowsByLetters }
{}
