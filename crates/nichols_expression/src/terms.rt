//! Terms, read from a place of a text on.

ghost use Rattle.std.specs.Prelude.{◌≡◌, ◌≤◌, ◌<◌, ◌+◌, ◌-◌, drop, length, get_or, Ok};
ghost use Rattle.std.specs.Result.{MatchResult};
ghost use Rattle.nichols_field.specs.Field.{IsElement};
ghost use Rattle.nichols_tensor.specs.declared.TheConstants.{LETTER_LIMIT};
ghost use Rattle.nichols_expression.specs.declared.TheConstants.{TERM_LIMIT};
ghost use Rattle.nichols_expression.specs.Reader.{map_step, opens_pair, term_at, terms_at, with_coefficient, word_at};
ghost use Rattle.nichols_expression.specs.Steps.{IsFaultOf, IsReadTo, IsStoppedBy};

use crate::digits::number_of;
use crate::faults::{Cause, ExpressionFault};
use crate::pairs::read_pair;
use crate::placed_fault::PlacedFault;
use crate::scan::{behind_run, behind_spaces, has_byte, has_digit};
use crate::signs::{Sign, sign_of, signed};
use crate::words::read_word;
use crate::{NUMBER_LIMIT, TERM_LIMIT};
use nichols_field::Field;
use nichols_words::Term;
use std::alloc::Global;

/// Whether a pair of numbers begins at a place.
fn opens_pair(text: &[u8], from: usize, field: Field) -> bool
    requires { from < length text.now }
    ensures { result ≡ opens_pair field (get_or text.now from 0) }
{
    text[from] == b'(' && field.is_extended()
}

/// The coefficient of the term at a place, and the place where its word is due. A term without a number has 1.
///
/// Over a field with an extension it may be a pair. A run of digits is a number only where `*` comes behind it and spaces: else the word is due at the run itself.
fn read_coefficient(
    text: &[u8],
    from: usize,
    field: Field,
    letters: u8,
) -> Result<(u32, usize), PlacedFault>
    requires { from < length text.now }
    ensures { MatchResult result
        (λ r. (from ≤ r.1) × (r.1 ≤ length text.now) × IsElement field r.0
        × (term_at field letters (get_or text.now from 0) (drop (from + 1) text.now) ≡ map_step (with_coefficient r.0) (word_at letters (drop r.1 text.now))))
        (IsStoppedBy text.now (term_at field letters (get_or text.now from 0) (drop (from + 1) text.now))) }
{
    let _modulus = field.modulus();
    if opens_pair(text, from, field) {
        let (coefficient, end) = read_pair(text, from + 1, field)?;
        return Ok((coefficient, behind_spaces(text, end)));
    }
    if !has_digit(text, from) {
        return Ok((1, from));
    }
    let end = behind_run(text, from);
    let behind = behind_spaces(text, end);
    if !has_byte(text, behind, b'*') {
        return Ok((1, from));
    }
    let is_long = end - from > NUMBER_LIMIT;
    if is_long {
        return Err(PlacedFault::behind(text, from, Cause::LongNumber));
    }
    let number = number_of(&text[from..end]);
    let coefficient = field.from_i64(i64::from(number));
    Ok((coefficient, behind_spaces(text, behind + 1)))
}

/// The term at a place, and the place behind it.
fn read_term(
    text: &[u8],
    from: usize,
    field: Field,
    letters: u8,
) -> Result<(Term, usize), PlacedFault>
    requires within { from < length text.now }
    requires letters { letters ≤ LETTER_LIMIT }
    ensures { MatchResult result
        (λ r. IsReadTo text.now from (term_at field letters (get_or text.now from 0) (drop (from + 1) text.now)) r.0 r.1 × IsElement field r.0.coefficient)
        (IsStoppedBy text.now (term_at field letters (get_or text.now from 0) (drop (from + 1) text.now))) }
{
    let (coefficient, at) = read_coefficient(text, from, field, letters)?;
    let (word, end) = read_word(text, at, letters)?;
    Ok((Term { word, coefficient }, end))
}

/// The terms from a place on, the first of them after a sign.
pub(crate) fn read_terms(
    alloc: Global,
    text: &[u8],
    from: usize,
    sign: Sign,
    field: Field,
    letters: u8,
) -> Result<Vec<Term>, ExpressionFault>
    requires within { from ≤ length text.now }
    requires letters { letters ≤ LETTER_LIMIT }
    ensures { MatchResult result
        (λ terms. terms_at field letters TERM_LIMIT sign (drop from text.now) ≡ Ok terms.items)
        (IsFaultOf text.now (terms_at field letters TERM_LIMIT sign (drop from text.now))) }
{
    let mut terms = Vec::new(alloc);
    let mut sign = sign;
    let mut at = from;
    loop {
        if at == text.len() {
            return Err(PlacedFault::behind(text, at, Cause::Early).into());
        }
        let is_full = terms.len() == TERM_LIMIT;
        if is_full {
            return Err(PlacedFault::behind(text, at, Cause::Terms).into());
        }
        let (term, end) = read_term(text, at, field, letters)?;
        terms.push(signed(field, sign, term))?;
        let behind = behind_spaces(text, end);
        if behind == text.len() {
            return Ok(terms);
        }
        let Some(next) = sign_of(text[behind]) else {
            return Err(PlacedFault::behind(text, behind, Cause::Byte).into());
        };
        sign = next;
        at = behind_spaces(text, behind + 1);
    }
}
