//! Laws of quadratic ideals and of their covers: for every field, every number of letters and all combinations r of words of two letters
//! that generate the ideal, and for every braid.

ghost use Rattle.nichols_cover.specs.Laws.{CoverOfABraid, DimensionIsCodimension, IdealIsDecided, IdealIsRightIdeal, ProductsOfLeastWordsSuffice, RelationsGiveTheKernelIdeal};

/// The test of the ideal says yes exactly of what is in the span of all `u r v`.
#[tactic(auto, using(crate::proofs::InIdeal::ideal_is_decided))]
pub fn ideal_is_decided()
    ensures { IdealIsDecided }
{}

/// It is linear, and kept by a letter from the right: so what is known of least words and normal forms in an algebra holds in a cover.
#[tactic(auto, using(crate::proofs::InIdeal::ideal_is_right_ideal))]
pub fn ideal_is_right_ideal()
    ensures { IdealIsRightIdeal }
{}

/// The products `u r` of least words u two degrees below, with the first letters brought to normal form, span what combinations of
/// candidates have of the ideal.
#[tactic(auto, using(crate::proofs::ProductSpans::products_of_least_words_suffice))]
pub fn products_of_least_words_suffice()
    ensures { ProductsOfLeastWordsSuffice }
{}

/// The dimension in degree m is n ^ m less the greatest number of independent combinations in the span of all `u r v` of degree m.
#[tactic(auto, using(crate::proofs::Dimensions::dimension_is_codimension))]
pub fn dimension_is_codimension()
    ensures { DimensionIsCodimension }
{}

/// All r in the kernel of degree 2 give the same ideal as the relations of degree 2.
#[tactic(auto, using(crate::proofs::Dimensions::relations_give_the_kernel_ideal))]
pub fn relations_give_the_kernel_ideal()
    ensures { RelationsGiveTheKernelIdeal }
{}

/// So the dimension of a braid's cover in degree m is n ^ m less the greatest number of independent combinations in the span of all
/// `u r v` of degree m, with r in the kernel of degree 2.
#[tactic(auto, using(crate::proofs::Dimensions::cover_of_a_braid))]
pub fn cover_of_a_braid()
    ensures { CoverOfABraid }
{}
