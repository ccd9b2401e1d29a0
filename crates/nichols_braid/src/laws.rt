//! Laws of braids and their tables, and of the symmetrizer and the skew derivations for every braid and every length.

pub mod left;
pub mod new_words;
pub mod order;
pub mod points;
pub mod products;

ghost use Rattle.nichols_braid.specs.TableLaws.{BraidsAreAccepted, AcceptedTablesAreBraids, FirstFaultsAreNamed};
ghost use Rattle.nichols_braid.specs.FaultLaws.{FirstAnswersAreLeast, FirstTriplesAreLeast};
ghost use Rattle.nichols_braid.specs.Laws.{PermutationsHoldEachOnce, SymmetrizerIsLinear, DerivationsAreLinear, DerivationRule, KilledIsRightIdeal, KilledIsDecided, KernelIsDecided, KilledIsLinear, KernelIsLinear, KilledIsIdealFromRight};
ghost use Rattle.nichols_braid.specs.LeastLaws.{LeastWordsAreTested, BasisHasLeastWords, LeastWordsAreIndependent, NormalFormsAreUnique, NormalFormsLookBack, NormalFormsTellClasses, ZeroHasNoTerms, NormalFormIsLinear, LeastWordsAreNormal, AgreeingTestsReadAlike, BasisIsAmongCandidates, RelationsRise};
ghost use Rattle.nichols_braid.specs.WholeLaws.{KernelByParts, NormalFormsByParts, FormsByPartsTellClasses};
ghost use Rattle.nichols_braid.specs.FormLaws.{CandidateFormsAreListed, DerivativesOfCandidates};
ghost use Rattle.nichols_braid.specs.EndLaws.{FinishedDegrees, ClosedWhereADegreeIsEmpty, AnEndIsReached};

/// A braid over the given field, with the given letters and scalars at their places, is what is accepted.
#[tactic(auto, using(crate::proofs::Complete::braids_are_accepted))]
pub fn braids_are_accepted()
    ensures { BraidsAreAccepted }
{}

/// What is accepted is a braid over the given field, with the given letters and scalars at their places.
pub fn accepted_tables_are_braids()
    ensures { AcceptedTablesAreBraids }
{}

/// Where rows and scalars are refused, what the named fault says is so, and no fault of an earlier kind or place is.
pub fn first_faults_are_named()
    ensures { FirstFaultsAreNamed }
{}

/// A search along a list finds the answer of its first entry that has one, a search along three letters that of the first
/// three in lexicographic order, and each finds nothing exactly where there is no answer.
pub fn first_answers_are_least<X>()
    ensures answers { FirstAnswersAreLeast X }
    ensures triples { FirstTriplesAreLeast X }
{}

/// The quantum symmetrizer is linear.
#[tactic(auto, using(crate::proofs::BraidLaws::symmetrizer_is_linear))]
pub fn symmetrizer_is_linear()
    ensures { SymmetrizerIsLinear }
{}

/// Each skew derivation is linear.
#[tactic(auto, using(crate::proofs::BraidLaws::derivations_are_linear))]
pub fn derivations_are_linear()
    ensures { DerivationsAreLinear }
{}

/// The skew derivation by the letter a of `f x_b` is f, where a is b, and `q(a, b) ∂_a(f) x_{a ▷ b}` added up.
#[tactic(auto, using(crate::proofs::BraidLaws::derivation_rule))]
pub fn derivation_rule()
    ensures { DerivationRule }
{}

/// Where the derivations kill f, they kill `f x_b`, for each letter b.
#[tactic(auto, using(crate::proofs::BraidLaws::killed_is_right_ideal))]
pub fn killed_is_right_ideal()
    ensures { KilledIsRightIdeal }
{}

/// The test of being killed decides it.
#[tactic(auto, using(crate::proofs::BraidLaws::killed_is_decided))]
pub fn killed_is_decided()
    ensures { KilledIsDecided }
{}

/// The test of the kernel decides it.
#[tactic(auto, using(crate::proofs::BraidLaws::kernel_is_decided))]
pub fn kernel_is_decided()
    ensures { KernelIsDecided }
{}

/// What is killed sees values alone, and is kept by sums and multiples.
pub fn killed_is_linear()
    ensures { KilledIsLinear }
{}

/// The kernel sees values alone, and is kept by sums and multiples.
pub fn kernel_is_linear()
    ensures { KernelIsLinear }
{}

/// The list of permutations of m places holds each rearrangement of 1 to m exactly once.
pub fn permutations_hold_each_once()
    ensures { PermutationsHoldEachOnce }
{}

/// What is killed is, degree by degree, a linear subspace, kept by a letter from the right.
pub fn killed_is_ideal_from_right()
    ensures { KilledIsIdealFromRight }
{}

/// The test of least words says yes exactly of the words that are congruent to no combination of earlier words of their length.
#[tactic(auto, using(crate::proofs::LeastLaws::least_words_are_tested))]
pub fn least_words_are_tested()
    ensures { LeastWordsAreTested }
{}

/// The basis of degree m has the least words of m letters, each once, rising.
pub fn basis_has_least_words()
    ensures { BasisHasLeastWords }
{}

/// A combination of least words that is zero in the algebra is zero.
#[tactic(auto, using(crate::proofs::LeastLaws::least_words_are_independent))]
pub fn least_words_are_independent()
    ensures { LeastWordsAreIndependent }
{}

/// Each combination of words of m letters is congruent to exactly one combination of least words in order.
pub fn normal_forms_are_unique()
    ensures { NormalFormsAreUnique }
{}

/// The normal form of a word has no word behind it, and that of a word that isn't least only words before it.
#[tactic(auto, using(crate::proofs::LookingBack::normal_forms_look_back))]
pub fn normal_forms_look_back()
    ensures { NormalFormsLookBack }
{}

/// Two combinations are one in the algebra exactly where their normal forms are one.
#[tactic(auto, using(crate::proofs::LeastLaws::normal_forms_tell_classes))]
pub fn normal_forms_tell_classes()
    ensures { NormalFormsTellClasses }
{}

/// A combination is zero in the algebra exactly where its normal form has no terms.
#[tactic(auto, using(crate::proofs::LeastLaws::zero_has_no_terms))]
pub fn zero_has_no_terms()
    ensures { ZeroHasNoTerms }
{}

/// The normal form keeps the values of sums and multiples.
#[tactic(auto, using(crate::proofs::LeastLaws::normal_form_is_linear))]
pub fn normal_form_is_linear()
    ensures { NormalFormIsLinear }
{}

/// A least word is its own normal form.
#[tactic(auto, using(crate::proofs::LeastLaws::least_words_are_normal))]
pub fn least_words_are_normal()
    ensures { LeastWordsAreNormal }
{}

/// Tests that agree on each degree have the same least words, bases, normal forms, candidates and relations.
#[tactic(auto, using(crate::proofs::LeastLaws::agreeing_tests_read_alike))]
pub fn agreeing_tests_read_alike()
    ensures { AgreeingTestsReadAlike }
{}

/// The basis has the least words among the candidates, where what is zero in the algebra is a right ideal.
#[tactic(auto, using(crate::proofs::LeastLaws::basis_is_among_candidates))]
pub fn basis_is_among_candidates()
    ensures { BasisIsAmongCandidates }
{}

/// The candidates of the relations of a degree rise.
#[tactic(auto, using(crate::proofs::LeastLaws::relations_rise))]
pub fn relations_rise()
    ensures { RelationsRise }
{}

/// A combination of words of several lengths is in the kernel exactly where each part of one length is; the test of the parts decides it.
pub fn kernel_by_parts()
    ensures { KernelByParts }
{}

/// The normal forms of the parts of one length, one after the other, are the one combination of least words in order that is one
/// with the whole in the algebra.
#[tactic(auto, using(crate::proofs::WholeForms::normal_forms_by_parts))]
pub fn normal_forms_by_parts()
    ensures { NormalFormsByParts }
{}

/// Two combinations of words of several lengths have one normal form exactly where their difference is zero in the algebra.
#[tactic(auto, using(crate::proofs::WholeForms::forms_by_parts_tell_classes))]
pub fn forms_by_parts_tell_classes()
    ensures { FormsByPartsTellClasses }
{}

/// The form of a candidate, read from the relations of its degree, is its normal form.
#[tactic(auto, using(crate::proofs::FormsOfCandidates::candidate_forms_are_listed))]
pub fn candidate_forms_are_listed()
    ensures { CandidateFormsAreListed }
{}

/// The normal form of the derivative of a candidate `u x_b` follows from the relations of u's degree and the normal form of
/// u's own derivative, where what is zero in the algebra is a right ideal.
#[tactic(auto, using(crate::proofs::FormsOfDerivatives::derivatives_of_candidates))]
pub fn derivatives_of_candidates()
    ensures { DerivativesOfCandidates }
{}

/// A degree is finished exactly where it is within the greatest, nothing stops it or a degree below it, and no degree below it is
/// empty; the finished degrees stand in order, from 0 on.
pub fn finished_degrees<X>()
    ensures { FinishedDegrees X }
{}

/// The algebra is closed exactly where some degree is empty that nothing stops, nor any degree below it.
#[tactic(auto, using(crate::proofs::EndLaws::closed_where_a_degree_is_empty))]
pub fn closed_where_a_degree_is_empty<X>()
    ensures { ClosedWhereADegreeIsEmpty X }
{}

/// Where each degree above the greatest is stopped, the algebra is closed, or what stops its first unfinished degree is its stop.
pub fn an_end_is_reached<X>()
    ensures { AnEndIsReached X }
{}
