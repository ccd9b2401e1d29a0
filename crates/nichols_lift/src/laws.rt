//! The laws that turn the quantum symmetrizer, a sum over all permutations, into something that can be computed.
//!
//! They hold for every braid and every length (Heckenberger and Schneider, "Hopf Algebras and Root Systems").

ghost use Rattle.nichols_lift.specs.Laws.{LeastPlacesDescend, ReducedListsAgree, SymmetrizerFactors, KernelByDerivations, KernelIsRightIdeal, KernelIsLeftIdeal, KernelIsTwoSided, ReadingsAgree, ReadingsAreIdeals, EmptyWordIsLeast, PrefixesAreLeast, SuffixesAreLeast, LeastWordsAreCandidates, EmptyDegreesStayEmpty};

/// The list of the lift is descending: exchanging the end places at the least place whose entry is greater than the next one,
/// again and again, sorts them.
#[tactic(auto, using(crate::proofs::Bubble::bubble_descends))]
pub fn least_places_descend()
    ensures { LeastPlacesDescend }
{}

/// Reduced lists agree: the crossings of every descending list of a permutation lead to the word and the scalar of its lift,
/// and these are the closed form, in which each letter is acted on by the earlier ones that end to its right, the nearest first.
pub fn reduced_lists_agree()
    ensures { ReducedListsAgree }
{}

/// Factorisation: the quantum symmetrizer of m + 1 places is the sum, over all letters a, of the symmetrizer of m places after
/// the skew derivation by a, with a put behind each word.
#[tactic(auto, using(crate::proofs::LiftLaws::symmetrizer_factors))]
pub fn symmetrizer_factors()
    ensures { SymmetrizerFactors }
{}

/// Kernel by derivations: a combination of degree m is in the kernel of the symmetrizer exactly where every chain of m skew
/// derivations sends it to zero.
#[tactic(auto, using(crate::proofs::LiftLaws::kernel_by_derivations))]
pub fn kernel_by_derivations()
    ensures { KernelByDerivations }
{}

/// Right ideal: where f of degree m over the letters is in the kernel, so is `f x_b`, for each letter b.
#[tactic(auto, using(crate::proofs::LiftLaws::kernel_is_right_ideal))]
pub fn kernel_is_right_ideal()
    ensures { KernelIsRightIdeal }
{}

/// Left ideal: where f of degree m over the letters is in the kernel, so is `x_b f`, for each letter b.
#[tactic(auto, using(crate::proofs::LiftLaws::kernel_is_left_ideal))]
pub fn kernel_is_left_ideal()
    ensures { KernelIsLeftIdeal }
{}

/// Two-sided ideal: where f is in the kernel, so are `f g` and `g f`, for all combinations f and g over the letters, whatever the
/// lengths of their words.
#[tactic(auto, using(crate::proofs::TwoSided::kernel_is_two_sided))]
pub fn kernel_is_two_sided()
    ensures { KernelIsTwoSided }
{}

/// The symmetrizer and the skew derivations give the same least words, bases, normal forms, candidates and relations.
pub fn readings_agree()
    ensures { ReadingsAgree }
{}

/// In both readings what is zero in the algebra is, degree by degree, a linear subspace, kept by a letter from either side.
pub fn readings_are_ideals()
    ensures { ReadingsAreIdeals }
{}

/// In both readings the empty word is least.
#[tactic(auto, using(crate::proofs::LiftLaws::empty_word_is_least))]
pub fn empty_word_is_least()
    ensures { EmptyWordIsLeast }
{}

/// Each prefix of a least word is least.
#[tactic(auto, using(crate::proofs::LiftLaws::prefixes_are_least))]
pub fn prefixes_are_least()
    ensures { PrefixesAreLeast }
{}

/// Each suffix of a least word is least.
#[tactic(auto, using(crate::proofs::LiftLaws::suffixes_are_least))]
pub fn suffixes_are_least()
    ensures { SuffixesAreLeast }
{}

/// Each least word is a candidate of its degree: a least word of the degree before with a letter behind.
#[tactic(auto, using(crate::proofs::LiftLaws::least_words_are_candidates))]
pub fn least_words_are_candidates()
    ensures { LeastWordsAreCandidates }
{}

/// After an empty degree every degree is empty.
#[tactic(auto, using(crate::proofs::LiftLaws::empty_degrees_stay_empty))]
pub fn empty_degrees_stay_empty()
    ensures { EmptyDegreesStayEmpty }
{}
