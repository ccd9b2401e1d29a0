//! Laws of an order of the letters, and of the braid on ranks.

ghost use Rattle.nichols_braid.specs.OrderForms.{BasesAreRelabelled, NormalFormsAreRelabelled, PlainOrderChangesNothing, ProductsAreRelabelled, RelationsAreRelabelled, WordsAreRelabelled};
ghost use Rattle.nichols_braid.specs.OrderPlaces.{LeastWrongPlacesAreTold};
ghost use Rattle.nichols_braid.specs.OrderLaws.{RelabelledIsBraid, RanksActAsLetters, ImagesAreRelabelled, KernelIsRelabelled, LeastWordsAreRelabelled};

/// The braid on ranks is a braid.
#[tactic(auto, using(crate::proofs::OrderLaws::relabelled_is_braid))]
pub fn relabelled_is_braid()
    ensures { RelabelledIsBraid }
{}

/// With the order 1 to n, the braid on ranks is the braid itself.
pub fn plain_order_changes_nothing()
    ensures { PlainOrderChangesNothing }
{}

/// Ranks act as their letters do, with the same scalars.
#[tactic(auto, using(crate::proofs::OrderLaws::ranks_act_as_letters))]
pub fn ranks_act_as_letters()
    ensures { RanksActAsLetters }
{}

/// The image of a relabelled combination under the quantum symmetrizer of the braid on ranks is the relabelled image.
#[tactic(auto, using(crate::proofs::OrderLaws::images_are_relabelled))]
pub fn images_are_relabelled()
    ensures { ImagesAreRelabelled }
{}

/// A relabelled combination is in the kernel of the braid on ranks exactly where the combination is in that of the braid.
#[tactic(auto, using(crate::proofs::OrderLaws::kernel_is_relabelled))]
pub fn kernel_is_relabelled()
    ensures { KernelIsRelabelled }
{}

/// A word is least by the order exactly where its word of ranks is least in the braid on ranks.
#[tactic(auto, using(crate::proofs::OrderLaws::least_words_are_relabelled))]
pub fn least_words_are_relabelled()
    ensures { LeastWordsAreRelabelled }
{}

/// The basis of the braid on ranks has, in letters, the words that are least by the order, each once, rising by the order.
pub fn bases_are_relabelled()
    ensures { BasesAreRelabelled }
{}

/// The normal form in the braid on ranks is, in letters, the one combination of these, rising by the order, that is one with the
/// combination in the algebra.
pub fn normal_forms_are_relabelled()
    ensures { NormalFormsAreRelabelled }
{}

/// The relations of the braid on ranks are, in letters, the candidates by the order that aren't least by it, rising by the order,
/// each with its normal form by the order.
pub fn relations_are_relabelled()
    ensures { RelationsAreRelabelled }
{}

/// The products of the braid on ranks, each conjugated, are those of the braid's words in the order of the first word by the order.
pub fn products_are_relabelled()
    ensures products { ProductsAreRelabelled }
    ensures words { WordsAreRelabelled }
{}

/// A list of integers is an order exactly where it has no wrong place; the place that is told is wrong, and no place before it is.
pub fn least_wrong_places_are_told()
    ensures { LeastWrongPlacesAreTold }
{}
