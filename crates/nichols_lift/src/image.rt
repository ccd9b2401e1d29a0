//! Images under the quantum symmetrizer.

ghost use Rattle.std.specs.Prelude.{◌≡◌, ◌≤◌, ◌<◌, ◌++◌, ℕ, IfOk, length};
ghost use Rattle.std.specs.Result.{OnOk};
ghost use Rattle.std.specs.List.{AllByRecursion};
ghost use Rattle.nichols_tensor.specs.declared.TheConstants.{LETTER_LIMIT, WORD_LIMIT};
ghost use Rattle.nichols_tensor.specs.Combination.{AllElements, HasSameValues};
ghost use Rattle.nichols_tensor.specs.WordOrder.{IsOrdered};
ghost use Rattle.nichols_tensor.specs.Words.{HasDegree, IsLetterOf, IsOver};
ghost use Rattle.nichols_braid.specs.RightProduct.{times_letter};
ghost use Rattle.nichols_braid.specs.Symmetrizer.{symmetrizer_image};
ghost use Rattle.nichols_lift.specs.declared.TheConstants.{PLACE_LIMIT};
ghost use Rattle.nichols_lift.specs.Lengths.{AllAtMost};

use crate::PLACE_LIMIT;
use nichols_braid::Braid;
use nichols_deriv::derive;
use nichols_words::{Comb, Term, Word};
use std::alloc::{AllocError, Global};

/// The image of a combination of words of at most [`PLACE_LIMIT`] letters under the quantum symmetrizer: of each word that of its own degree.
///
/// It is found by the factorisation of the symmetrizer through the skew derivations, and not by a lift for each permutation.
/// The source is Heckenberger and Schneider, "Hopf Algebras and Root Systems".
pub fn symmetrize(alloc: Global, braid: &Braid, comb: &Comb) -> Result<Comb, AllocError>
    requires lengths { AllAtMost PLACE_LIMIT comb.now }
    requires letters { IsOver braid.now.letters comb.now }
    requires elements { AllElements braid.now.field comb.now }
    ensures value { IfOk result (λ r. HasSameValues braid.now.field r (symmetrizer_image braid.now comb.now)) }
    ensures shape { IfOk result IsOrdered }
    ensures elements { IfOk result (AllElements braid.now.field) }
    ensures letters { IfOk result (IsOver braid.now.letters) }
    ensures degree { IfOk result (λ r. (m : ℕ) → HasDegree m comb.now → HasDegree m r) }
{
    image_below(alloc, braid, comb, PLACE_LIMIT)
}

/// The image of a combination of words of at most `limit` letters: its constant term, and for each letter the image of the
/// derivative with the letter put behind.
fn image_below(alloc: Global, braid: &Braid, comb: &Comb, limit: usize) -> Result<Comb, AllocError>
    requires limit { limit ≤ PLACE_LIMIT }
    requires lengths { AllAtMost limit comb.now }
    requires letters { IsOver braid.now.letters comb.now }
    requires elements { AllElements braid.now.field comb.now }
    ensures value { IfOk result (λ r. HasSameValues braid.now.field r (symmetrizer_image braid.now comb.now)) }
    ensures shape { IfOk result IsOrdered }
    ensures elements { IfOk result (AllElements braid.now.field) }
    ensures lengths { IfOk result (AllAtMost limit) }
    ensures letters { IfOk result (IsOver braid.now.letters) }
    ensures degree { IfOk result (λ r. (m : ℕ) → HasDegree m comb.now → HasDegree m r) }
{
    let field = braid.field();
    if limit == 0 {
        let image = comb.copy(alloc)?;
        return Ok(image);
    }
    let mut terms = Vec::new(alloc);
    let constant = Term {
        word: Word::empty(),
        coefficient: comb.coefficient(&Word::empty()),
    };
    terms.push(constant)?;
    for i in 0..braid.letters() {
        let letter = i + 1;
        let derivative = derive(alloc, braid, letter, comb)?;
        if !derivative.is_zero() {
            let part = image_below(alloc, braid, &derivative, limit - 1)?;
            put_behind(&part, letter, &mut terms)?;
        }
    }
    let image = Comb::sum_of(alloc, field, terms.as_mut_slice())?;
    Ok(image)
}

/// Puts the terms of a combination behind those that are there, each with the letter behind its word.
fn put_behind(part: &Comb, letter: u8, terms: &mut Vec<Term>) -> Result<(), AllocError>
    requires letter { IsLetterOf LETTER_LIMIT letter }
    requires room { AllByRecursion (λ t. length t.word < WORD_LIMIT) part.now }
    ensures { OnOk result (terms.new.items ≡ terms.old.items ++ times_letter part.now letter) }
{
    for term in part.terms() {
        terms.push(Term {
            word: term.word.followed_by(letter),
            coefficient: term.coefficient,
        })?;
    }
    Ok(())
}
