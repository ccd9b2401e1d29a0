//! Multiples of terms and of combinations.

ghost use Rattle.std.specs.Prelude.{◌≡◌, IfOk};
ghost use Rattle.nichols_field.specs.Field.{IsElement, times};
ghost use Rattle.nichols_tensor.specs.Combination.{AllElements, scalar_multiple, without_zeros};

use crate::Term;
use nichols_field::Field;
use std::alloc::{AllocError, Global};

/// A term with its coefficient multiplied.
pub(crate) fn multiplied(field: Field, by: u32, term: &Term) -> Term
    requires factor { IsElement field by }
    requires coefficient { IsElement field term.now.coefficient }
    ensures { result ≡ record { word = term.now.word; coefficient = times field by term.now.coefficient } }
{
    Term {
        word: term.word,
        coefficient: field.mul(by, term.coefficient),
    }
}

/// The terms of a multiple, without those whose coefficient became 0.
pub(crate) fn multiples(
    alloc: Global,
    field: Field,
    by: u32,
    terms: &[Term],
) -> Result<Vec<Term>, AllocError>
    requires factor { IsElement field by }
    requires coefficients { AllElements field terms.now }
    ensures { IfOk result (λ r. r.items ≡ without_zeros (scalar_multiple field by terms.now)) }
{
    let mut out = Vec::new(alloc);
    for term in terms {
        let multiple = multiplied(field, by, term);
        if multiple.coefficient != 0 {
            out.push(multiple)?;
        }
    }
    Ok(out)
}
