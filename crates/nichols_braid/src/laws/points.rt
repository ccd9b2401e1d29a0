//! Laws of the transpositions of points, for every number of points.

ghost use Rattle.nichols_braid.specs.PointsLaws.{LettersAreTranspositions, ActIsConjugation, ScalarsAreMinusOne, PointsAreBraids};

/// The letters are those of the transpositions of two of the points, and rise in their lexicographic order.
#[tactic(auto, using(crate::proofs::PointsLaws::letters_are_transpositions))]
pub fn letters_are_transpositions()
    ensures { LettersAreTranspositions }
{}

/// The transposition `i ▷ j` exchanges the images under i of the two points of j, and as a map of the points it is i after
/// j after i.
#[tactic(auto, using(crate::proofs::PointsLaws::act_is_conjugation))]
pub fn act_is_conjugation()
    ensures { ActIsConjugation }
{}

/// There are 101 elements, and every scalar is 100, which is -1.
pub fn scalars_are_minus_one()
    ensures { ScalarsAreMinusOne }
{}

/// The transpositions of as many points as are taken are a braid.
pub fn points_are_braids()
    ensures { PointsAreBraids }
{}
