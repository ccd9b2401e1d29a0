//! Sums of terms in any order.

ghost use Rattle.std.specs.Prelude.{◌≡◌, ◌++◌, ◌∷◌, [], IfOk, IsPermutation};
ghost use Rattle.std.specs.List.Sorted.{IsSortedByKey};
ghost use Rattle.std.specs.Result.{OnOk};
ghost use Rattle.nichols_tensor.specs.Combination.{AllAmong, AllElements, HasSameValues, Term as PlainTerm, without_zeros, words_of};
ghost use Rattle.nichols_tensor.specs.InOrder.{in_order};
ghost use Rattle.nichols_tensor.specs.WordOrder.{IsOrdered, word_cmp};

use crate::{Comb, Term};
use nichols_field::Field;
use std::alloc::{AllocError, Global};

impl Comb {
    /// The sum of these terms, brought into order; a word may stand in several of them, and a coefficient may be 0.
    ///
    /// The terms are sorted where they stand and summed up in one pass, so that n terms take about n log n steps.
    pub fn sum_of(alloc: Global, field: Field, terms: &mut [Term]) -> Result<Comb, AllocError>
        requires { AllElements field terms.old }
        ensures permutation { IsPermutation terms.old terms.new }
        ensures sorted { IsSortedByKey (λ (t : PlainTerm). t.word) word_cmp terms.new }
        ensures in_order { IfOk result (λ r. r ≡ in_order field terms.old) }

        // What holds of the one combination in order with these values.
        ensures value { IfOk result (λ r. HasSameValues field r terms.old) }
        ensures shape { IfOk result IsOrdered }
        ensures elements { IfOk result (AllElements field) }
        ensures words { IfOk result (λ r. AllAmong r (words_of terms.old)) }
    {
        let _modulus = field.modulus();
        sort_by_word(terms);
        let sum = collected(alloc, field, terms)?;
        Ok(Comb::from_terms(sum))
    }
}

/// Sorts by word. Terms of one word come to stand together, in any order.
fn sort_by_word(terms: &mut [Term])
    ensures permutation { IsPermutation terms.old terms.new }
    ensures sorted { IsSortedByKey (λ (t : PlainTerm). t.word) word_cmp terms.new }
{
    terms.sort_unstable_by(|a, b| a.word.cmp(&b.word));
}

/// Puts a term behind the others, unless its coefficient is 0.
fn put_nonzero(out: &mut Vec<Term>, term: Term) -> Result<(), AllocError>
    ensures { OnOk result (out.new.items ≡ out.old.items ++ without_zeros (term ∷ [])) }
{
    if term.coefficient != 0 {
        out.push(term)?;
    }
    Ok(())
}

/// The sum of terms that are sorted by word: the coefficients of each word are added up, and zeros left out.
fn collected(alloc: Global, field: Field, terms: &[Term]) -> Result<Vec<Term>, AllocError>
    requires elements { AllElements field terms.now }
    requires sorted { IsSortedByKey (λ (t : PlainTerm). t.word) word_cmp terms.now }
    ensures value { IfOk result (λ r. HasSameValues field r.items terms.now) }
    ensures shape { IfOk result (λ r. IsOrdered r.items) }
    ensures elements { IfOk result (λ r. AllElements field r.items) }
{
    let _modulus = field.modulus();
    let mut out = Vec::new(alloc);
    let Some((first, rest)) = terms.split_first() else {
        return Ok(out);
    };
    let mut last = *first;
    for term in rest {
        if term.word == last.word {
            last.coefficient = field.add(last.coefficient, term.coefficient);
        } else {
            put_nonzero(&mut out, last)?;
            last = *term;
        }
    }
    put_nonzero(&mut out, last)?;
    Ok(out)
}
