//! Laws of combinations: that each can be brought into order in one way, that it is the sum of its parts, and what their products are.

ghost use Rattle.nichols_tensor.specs.Laws.{InOrderIsTheOne, PartsHaveTheirDegrees, PartsMakeTheWhole, ProductIsBySplittings, ProductIsAssociative};

/// Each combination has the values of one combination in order, which tells it from those with other values.
#[tactic(auto, using(crate::proofs::InOrder::in_order_is_the_one))]
pub fn in_order_is_the_one()
    ensures { InOrderIsTheOne }
{}

/// The part of one degree has this degree, and is the whole where the whole has it.
#[tactic(auto, using(crate::proofs::Parts::parts_have_their_degrees))]
pub fn parts_have_their_degrees()
    ensures { PartsHaveTheirDegrees }
{}

/// Each combination has the values of the sum of its parts of each degree.
#[tactic(auto, using(crate::proofs::Parts::parts_make_the_whole))]
pub fn parts_make_the_whole()
    ensures { PartsMakeTheWhole }
{}

/// The product of two combinations has at a word the sum over its splittings into a front and a back: the value of the first at the
/// front, times the value of the second at the back.
#[tactic(auto, using(crate::proofs::Splittings::product_is_by_splittings))]
pub fn product_is_by_splittings()
    ensures { ProductIsBySplittings }
{}

/// Products of combinations are associative.
#[tactic(auto, using(crate::proofs::Products::product_is_associative))]
pub fn product_is_associative()
    ensures { ProductIsAssociative }
{}
