//! Sums over the words of a basis, a pending sum for each word by its place, as terms.

ghost use Rattle.std.specs.Prelude.{◌≡◌, ◌++◌, OnOk, length};
ghost use Rattle.nichols_field.specs.Field.{IsElement};
ghost use Rattle.nichols_tensor.specs.Combination.{scalar_multiple, without_zeros};
ghost use Rattle.nichols_reduce.specs.Sums.{combination_of};

use nichols_field::Field;
use nichols_words::{Term, Word};
use std::alloc::AllocError;

/// Puts the terms of a multiple of the sums that aren't 0 behind other terms.
pub fn put_terms(
    field: Field,
    by: u32,
    basis: &[Word],
    sums: &[u64],
    terms: &mut Vec<Term>,
) -> Result<(), AllocError>
    requires factor { IsElement field by }
    requires width { length sums.now ≡ length basis.now }
    ensures { OnOk result (terms.new.items ≡ terms.old.items ++ without_zeros (scalar_multiple field by (combination_of field basis.now sums.now))) }
{
    let _modulus = field.modulus();
    for (k, word) in basis.iter().enumerate() {
        let coefficient = field.mul(by, field.settle(sums[k]));
        if coefficient != 0 {
            terms.push(Term {
                word: *word,
                coefficient,
            })?;
        }
    }
    Ok(())
}
