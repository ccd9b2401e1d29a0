//! Whole expressions.

ghost use Rattle.std.specs.Prelude.{◌≡◌, ◌≤◌, ◌&&◌, drop, length, Ok, IfOk, IfErr};
ghost use Rattle.std.specs.Result.{MatchResult};
ghost use Rattle.nichols_tensor.specs.Combination.{AllElements};
ghost use Rattle.nichols_tensor.specs.WordOrder.{IsOrdered};
ghost use Rattle.nichols_tensor.specs.Words.{IsOver};
ghost use Rattle.nichols_tensor.specs.declared.TheConstants.{LETTER_LIMIT};
ghost use Rattle.nichols_expression.specs.declared.TheConstants.{TERM_LIMIT};
ghost use Rattle.nichols_expression.specs.Reader.{expression_of, is_empty, read_terms};
ghost use Rattle.nichols_expression.specs.Bytes.{zero_digit};
ghost use Rattle.nichols_expression.specs.Answers.{IsFaultAnswer};
ghost use Rattle.nichols_expression.specs.Faults.{IsPlacedIn};
ghost use Rattle.nichols_expression.specs.Steps.{IsFaultOf, starts_with};

use crate::faults::{Cause, ExpressionFault};
use crate::placed_fault::PlacedFault;
use crate::ranks::ranked_terms;
use crate::scan::{behind_spaces, has_byte};
use crate::signs::{Sign, sign_of};
use crate::terms::read_terms;
use nichols_braid::{Braid, Order};
use nichols_field::Field;
use nichols_words::{Comb, Term};
use std::alloc::Global;

/// The value of a text as an expression over the letters of a braid on ranks, with coefficients in its field: the text has
/// letters, and the value their ranks in the order.
///
/// An expression is `0`, or terms between `+` and `-`, with a sign before the first or none; a term is a word, or a coefficient
/// and `*` before one; a word is `e`, which is the empty one, or letters from 1 to n between dots. Spaces stand anywhere but
/// inside of words and numbers. A coefficient is a number, or over a field with an extension also a pair `(u,v)` of numbers, for
/// u + v t. A number has 1 to `NUMBER_LIMIT` digits and is taken modulo p, a word has at most `WORD_LIMIT` letters, an expression
/// at most `TERM_LIMIT` terms; terms of one word are added.
///
/// `At` is the first fault from the left; its cause is never `Surplus`, which is one of documents. The time is that of the
/// bytes, and of sorting the terms.
#[tactic(auto, using(crate::proofs::Values::read_elements, crate::proofs::Values::over_read, crate::proofs::Values::read_few, crate::proofs::Values::value_read, crate::proofs::Values::fault_read, crate::proofs::Values::read_over, crate::proofs::Values::ranks_elements, crate::proofs::FaultLaws::placed_read))]
pub fn read_expression(
    alloc: Global,
    braid: &Braid,
    order: &Order,
    text: &str,
) -> Result<Comb, ExpressionFault>
    requires { length order.now ≡ braid.now.letters }
    ensures value { MatchResult result
        (λ c. expression_of braid.now order.now text.now ≡ Ok c)
        (IsFaultAnswer (expression_of braid.now order.now text.now)) }
    ensures places { IfErr result (IsPlacedIn text.now) }
    ensures shape { IfOk result IsOrdered }
    ensures letters { IfOk result (IsOver braid.now.letters) }
    ensures elements { IfOk result (AllElements braid.now.field) }
    ensures terms { IfOk result (λ c. length c ≤ TERM_LIMIT) }
{
    let field = braid.field();
    let _modulus = field.modulus();
    let _list = order.list();
    let terms = terms_of(alloc, text.as_bytes(), field, braid.letters())?;
    let mut ranked = ranked_terms(alloc, order, terms.as_slice())?;
    let sum = Comb::sum_of(alloc, field, ranked.as_mut_slice())?;
    Ok(sum)
}

/// The terms of an expression as they stand.
#[tactic(auto, using(crate::proofs::Entry::entry_early, crate::proofs::Entry::entry_zero, crate::proofs::Entry::entry_signed, crate::proofs::Entry::entry_unsigned))]
fn terms_of(
    alloc: Global,
    text: &[u8],
    field: Field,
    letters: u8,
) -> Result<Vec<Term>, ExpressionFault>
    requires { letters ≤ LETTER_LIMIT }
    ensures { MatchResult result
        (λ terms. read_terms field letters text.now ≡ Ok terms.items)
        (IsFaultOf text.now (read_terms field letters text.now)) }
{
    let start = behind_spaces(text, 0);
    if start == text.len() {
        return Err(PlacedFault::behind(text, start, Cause::Early).into());
    }
    let behind = behind_spaces(text, start + 1);
    if is_zero_alone(text, start, behind) {
        return Ok(Vec::new(alloc));
    }
    match sign_of(text[start]) {
        Some(sign) => read_terms(alloc, text, behind, sign, field, letters),
        None => read_terms(alloc, text, start, Sign::Positive, field, letters),
    }
}

/// Whether the digit 0 stands at a place, and nothing from another place on.
#[tactic(auto, using(crate::proofs::Entry::nothing_left, crate::proofs::Entry::something_left))]
fn is_zero_alone(text: &[u8], start: usize, behind: usize) -> bool
    requires start { start ≤ length text.now }
    requires behind { behind ≤ length text.now }
    ensures { result ≡ (starts_with zero_digit (drop start text.now) && is_empty (drop behind text.now)) }
{
    has_byte(text, start, b'0') && behind == text.len()
}
