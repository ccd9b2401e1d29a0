//! Skew derivations.

ghost use Rattle.std.specs.Prelude.{ℕ, IfOk, suc};
ghost use Rattle.nichols_tensor.specs.Combination.{AllElements, HasSameValues};
ghost use Rattle.nichols_tensor.specs.WordOrder.{IsOrdered};
ghost use Rattle.nichols_tensor.specs.Words.{HasDegree, IsOver};
ghost use Rattle.nichols_braid.specs.Braid.{IsLetter};
ghost use Rattle.nichols_braid.specs.Derivation.{skew_derivative};

use crate::passing::put_derivative;
use nichols_braid::Braid;
use nichols_words::Comb;
use std::alloc::{AllocError, Global};

/// The skew derivation by the letter `a` of a combination.
///
/// Each `a` in a word in turn passes all letters behind it, and is dropped: it acts on each of them, and their scalars are multiplied.
/// The source is Heckenberger and Schneider, "Hopf Algebras and Root Systems".
pub fn derive(alloc: Global, braid: &Braid, a: u8, comb: &Comb) -> Result<Comb, AllocError>
    requires letter { IsLetter braid.now a }
    requires letters { IsOver braid.now.letters comb.now }
    requires elements { AllElements braid.now.field comb.now }
    ensures value { IfOk result (λ r. HasSameValues braid.now.field r (skew_derivative braid.now a comb.now)) }
    ensures shape { IfOk result IsOrdered }
    ensures elements { IfOk result (AllElements braid.now.field) }
    ensures letters { IfOk result (IsOver braid.now.letters) }
    ensures degree { IfOk result (λ r. (m : ℕ) → HasDegree (suc m) comb.now → HasDegree m r) }
{
    let field = braid.field();
    let mut terms = Vec::new(alloc);
    for term in comb.terms() {
        put_derivative(braid, a, term, &mut terms)?;
    }
    let derivative = Comb::sum_of(alloc, field, terms.as_mut_slice())?;
    Ok(derivative)
}
