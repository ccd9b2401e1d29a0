//! Pairs of numbers, read from a place of a text on.

ghost use Rattle.std.specs.Prelude.{◌≤◌, IsTrue, drop, length};
ghost use Rattle.std.specs.Result.{MatchResult};
ghost use Rattle.nichols_field.specs.Field.{IsElement, is_extended};
ghost use Rattle.nichols_expression.specs.Reader.{mark_at, number_at, pair_at};
ghost use Rattle.nichols_expression.specs.Steps.{IsReadTo, IsStoppedBy};

use crate::NUMBER_LIMIT;
use crate::digits::number_of;
use crate::faults::Cause;
use crate::placed_fault::PlacedFault;
use crate::scan::{behind_run, behind_spaces, has_byte, has_digit};
use nichols_field::Field;

/// The place behind a byte that is due at a place.
fn behind_mark(text: &[u8], at: usize, mark: u8) -> Result<usize, PlacedFault>
    requires { at ≤ length text.now }
    ensures { MatchResult result
        (λ end. IsReadTo text.now at (mark_at mark (drop at text.now)) tt end)
        (IsStoppedBy text.now (mark_at mark (drop at text.now))) }
{
    if has_byte(text, at, mark) {
        return Ok(at + 1);
    }
    if at == text.len() {
        return Err(PlacedFault::behind(text, at, Cause::Early));
    }
    Err(PlacedFault::behind(text, at, Cause::Byte))
}

/// The number that is due at a place, and the place behind the mark that is due behind it and spaces.
fn read_number(text: &[u8], from: usize, mark: u8) -> Result<(u32, usize), PlacedFault>
    requires { from ≤ length text.now }
    ensures { MatchResult result
        (λ r. IsReadTo text.now from (number_at mark (drop from text.now)) r.0 r.1)
        (IsStoppedBy text.now (number_at mark (drop from text.now))) }
{
    if from == text.len() {
        return Err(PlacedFault::behind(text, from, Cause::Early));
    }
    if !has_digit(text, from) {
        return Err(PlacedFault::behind(text, from, Cause::Byte));
    }
    let end = behind_run(text, from);
    let is_long = end - from > NUMBER_LIMIT;
    if is_long {
        return Err(PlacedFault::behind(text, from, Cause::LongNumber));
    }
    let behind = behind_spaces(text, end);
    let at = behind_mark(text, behind, mark)?;
    Ok((number_of(&text[from..end]), at))
}

/// The element of the pair whose `(` stands before a place, and the place behind the `*` that is due behind it.
pub(crate) fn read_pair(text: &[u8], from: usize, field: Field) -> Result<(u32, usize), PlacedFault>
    requires within { from ≤ length text.now }
    requires extension { IsTrue (is_extended field) }
    ensures { MatchResult result
        (λ r. IsReadTo text.now from (pair_at field (drop from text.now)) r.0 r.1 × IsElement field r.0)
        (IsStoppedBy text.now (pair_at field (drop from text.now))) }
{
    let first = behind_spaces(text, from);
    let (u, comma) = read_number(text, first, b',')?;
    let second = behind_spaces(text, comma);
    let (v, closing) = read_number(text, second, b')')?;
    let star = behind_spaces(text, closing);
    let end = behind_mark(text, star, b'*')?;
    let coefficient = field.joined(i64::from(u), i64::from(v));
    Ok((coefficient, end))
}
