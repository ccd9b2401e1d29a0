//! Letters of a document, as ranks in an order.

ghost use Rattle.std.specs.Prelude.{◌≡◌, IfOk, length, map};
ghost use Rattle.nichols_tensor.specs.Words.{IsOver, IsWordOver};
ghost use Rattle.nichols_braid.specs.Order.{in_ranks, rank_of};

use nichols_braid::Order;
use nichols_words::{Term, Word};
use std::alloc::{AllocError, Global};

/// A word, with each letter's rank in its place.
pub(crate) fn ranked_word(order: &Order, word: &Word) -> Word
    requires { IsWordOver (length order.now) word.now }
    ensures { result ≡ map (rank_of order.now) word.now }
{
    let _list = order.list();
    let mut out = Word::empty();
    for letter in word.letters() {
        let _room = out.push(order.rank(*letter));
    }
    out
}

/// Terms, with each letter's rank in its place.
pub(crate) fn ranked_terms(
    alloc: Global,
    order: &Order,
    terms: &[Term],
) -> Result<Vec<Term>, AllocError>
    requires { IsOver (length order.now) terms.now }
    ensures { IfOk result (λ v. v.items ≡ in_ranks order.now terms.now) }
{
    let mut out = Vec::with_capacity(alloc, terms.len())?;
    for term in terms {
        out.push(Term {
            word: ranked_word(order, &term.word),
            coefficient: term.coefficient,
        })?;
    }
    Ok(out)
}
