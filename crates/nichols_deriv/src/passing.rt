//! The skew derivation of one term, in one pass from its right end.

ghost use Rattle.std.specs.Prelude.{◌≡◌, List, ℕ};
ghost use Rattle.std.specs.Result.{OnOk};
ghost use Rattle.nichols_field.specs.Field.{IsElement, plus};
ghost use Rattle.nichols_tensor.specs.Combination.{AllElements, scalar_multiple, value_at};
ghost use Rattle.nichols_tensor.specs.Words.{IsWordOver};
ghost use Rattle.nichols_braid.specs.Braid.{IsLetter};
ghost use Rattle.nichols_braid.specs.Derivation.{derived_word};

use nichols_braid::Braid;
use nichols_words::Term;
use std::alloc::AllocError;

/// Puts the derivative of a term behind the terms that are there, one term for each place at which `a` stands.
#[tactic(auto, using(nichols_tensor::proofs::Over::letter_over))]
pub(crate) fn put_derivative(
    braid: &Braid,
    a: u8,
    term: &Term,
    out: &mut Vec<Term>,
) -> Result<(), AllocError>
    requires letter { IsLetter braid.now a }
    requires word { IsWordOver braid.now.letters term.now.word }
    requires coefficient { IsElement braid.now.field term.now.coefficient }
    requires elements { AllElements braid.now.field out.old.items }
    ensures value { OnOk result ((w : List ℕ) → value_at braid.now.field out.new.items w ≡ plus braid.now.field (value_at braid.now.field out.old.items w) (value_at braid.now.field (scalar_multiple braid.now.field term.now.coefficient (derived_word braid.now a term.now.word)) w)) }
    ensures elements { OnOk result (AllElements braid.now.field out.new.items) }
{
    let field = braid.field();
    let mut left = term.word.len();
    let mut scalar = term.coefficient;
    // The word without the letter in front of which `a` stands, once `a` has acted on all letters behind it.
    let mut passed = term.word.prefix(left.saturating_sub(1));
    while left > 0 {
        left -= 1;
        let letter = term.word.letter(left);
        if a == letter {
            out.push(Term {
                word: passed,
                coefficient: scalar,
            })?;
        }
        scalar = field.mul(scalar, braid.scalar(a, letter));
        if left > 0 {
            passed.set(left - 1, braid.act(a, letter));
        }
    }
    Ok(())
}
