//! Laws of the end that is reached, for every braid and all limits, of whole blocks, and of factors.

ghost use Rattle.nichols_graded.specs.FactorLaws.{QuotientIsExact, FactorsMultiply, FactorsAreGreatest};
ghost use Rattle.nichols_graded.specs.Laws.{EndIsReached};
ghost use Rattle.nichols_graded.specs.StopLaws.{EndIsAtTheFirst, StopsAreTheFirst};
ghost use Rattle.nichols_graded.specs.WholeLaws.{BlocksAreWhole};

/// After a finished degree the end is reached exactly where that degree is empty, and the algebra is closed, or where something
/// stops the next one.
#[tactic(auto, using(crate::proofs::EndLaws::end_is_reached))]
pub fn end_is_reached()
    ensures { EndIsReached }
{}

/// What stops a degree is the first of these that holds: it is beyond the degree limit, it has too many products, or a product of it
/// has more rows than the rows limit; then the first such product is named, with the number of its rows.
#[tactic(auto, using(crate::proofs::StopLaws::stops_are_the_first))]
pub fn stops_are_the_first()
    ensures { StopsAreTheFirst }
{}

/// The algebra is stopped exactly where no degree before the first that something stops is empty, and by what stops that degree; it
/// is closed exactly where some degree is empty that nothing stops, nor any degree before it.
pub fn end_is_at_the_first()
    ensures { EndIsAtTheFirst }
{}

/// A block is whole exactly where its rows don't exceed the limit and all its lower blocks are whole, which are the blocks of the
/// words of the block without their last letters.
#[tactic(auto, using(crate::proofs::WholeLaws::blocks_are_whole))]
pub fn blocks_are_whole()
    ensures { BlocksAreWhole }
{}

/// The quotient by `1 + t + .. + t^(k-1)` is the polynomial whose product with it is the one that is divided.
#[tactic(auto, using(crate::proofs::FactorLaws::quotient_is_exact))]
pub fn quotient_is_exact()
    ensures { QuotientIsExact }
{}

/// Factors fall, and multiply to the polynomial of the dimensions.
pub fn factors_multiply()
    ensures { FactorsMultiply }
{}

/// Each factor is the greatest that divides what the factors before it leave.
pub fn factors_are_greatest()
    ensures { FactorsAreGreatest }
{}
