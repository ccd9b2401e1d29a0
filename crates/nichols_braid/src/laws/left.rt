//! Laws of products from the left, for every braid and every length.

ghost use Rattle.nichols_braid.specs.LeftLaws.{MapsAreOnto, LeftDerivationRule, CarriedDerivations, KilledIsLeftIdeal, KilledIsIdealFromLeft};

/// The map of each letter is onto: each letter is `a ▷ c` for some letter c.
#[tactic(auto, using(crate::proofs::LeftLaws::maps_are_onto))]
pub fn maps_are_onto()
    ensures { MapsAreOnto }
{}

/// The skew derivation by the letter a of `x_b f` is what a was carried past, where a is b, and `x_b ∂_a(f)` added up.
#[tactic(auto, using(crate::proofs::LeftLaws::left_derivation_rule))]
pub fn left_derivation_rule()
    ensures { LeftDerivationRule }
{}

/// The skew derivation by `a ▷ c` of what a was carried past is that of the derivative by c, times `q(a, c)`.
pub fn carried_derivations()
    ensures { CarriedDerivations }
{}

/// Where the derivations kill f over the letters, they kill `x_b f`, for each letter b.
#[tactic(auto, using(crate::proofs::LeftLaws::killed_is_left_ideal))]
pub fn killed_is_left_ideal()
    ensures { KilledIsLeftIdeal }
{}

/// What is killed is, degree by degree, a linear subspace, kept by a letter from the left.
pub fn killed_is_ideal_from_left()
    ensures { KilledIsIdealFromLeft }
{}
