//! The sum of one combination and a multiple of another, by one merge of their terms.

ghost use Rattle.std.specs.Prelude.{◌≡◌, ◌≢◌, ◌⊎◌, IfOk, List, ℕ, []};
ghost use Rattle.nichols_field.specs.Field.{IsElement, plus, times};
ghost use Rattle.nichols_tensor.specs.Combination.{AllElements, value_at, words_of};
ghost use Rattle.nichols_tensor.specs.WordOrder.{IsOrdered, IsRising};
ghost use Rattle.nichols_words.specs.Next.{TakesNext};

use crate::Term;
use crate::multiples::multiplied;
use nichols_field::Field;
use std::alloc::{AllocError, Global};
use std::cmp::Ordering;

/// The next term of the sum, and what is left of both sides: the lesser word of the two first ones comes first.
fn next<'a>(field: Field, by: u32, xs: &'a [Term], ys: &'a [Term]) -> (Term, &'a [Term], &'a [Term])
    requires factor { IsElement field by }
    requires left { AllElements field xs.now }
    requires right { AllElements field ys.now }
    requires some { (xs.now ≢ []) ⊎ (ys.now ≢ []) }
    ensures { TakesNext field by xs.now ys.now result.0 result.1.now result.2.now }
{
    match (xs.split_first(), ys.split_first()) {
        (Some((x, left)), Some((y, right))) => match x.word.cmp(&y.word) {
            Ordering::Less => (*x, left, ys),
            Ordering::Equal => (
                Term {
                    word: x.word,
                    coefficient: field.add(x.coefficient, field.mul(by, y.coefficient)),
                },
                left,
                right,
            ),
            Ordering::Greater => (multiplied(field, by, y), xs, right),
        },
        (Some((x, left)), None) => (*x, left, ys),
        (None, Some((y, right))) => (multiplied(field, by, y), xs, right),
        (None, None) => unreachable!(),
    }
}

/// The terms of the sum of the left combination and a multiple of the right one.
pub(crate) fn merge(
    alloc: Global,
    field: Field,
    by: u32,
    left: &[Term],
    right: &[Term],
) -> Result<Vec<Term>, AllocError>
    requires factor { IsElement field by }
    requires left_elements { AllElements field left.now }
    requires right_elements { AllElements field right.now }
    requires left_rising { IsRising (words_of left.now) }
    requires right_rising { IsRising (words_of right.now) }
    ensures value { IfOk result (λ r. (w : List ℕ) → value_at field r.items w ≡ plus field (value_at field left.now w) (times field by (value_at field right.now w))) }
    ensures shape { IfOk result (λ r. IsOrdered r.items) }
    ensures elements { IfOk result (λ r. AllElements field r.items) }
{
    let _modulus = field.modulus();
    let mut out = Vec::new(alloc);
    let mut xs = left;
    let mut ys = right;
    while !(xs.is_empty() && ys.is_empty()) {
        let (term, xs_left, ys_left) = next(field, by, xs, ys);
        if term.coefficient != 0 {
            out.push(term)?;
        }
        xs = xs_left;
        ys = ys_left;
    }
    Ok(out)
}
