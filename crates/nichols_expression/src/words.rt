//! Words, read from a place of a text on.

ghost use Rattle.std.specs.Prelude.{◌≡◌, ◌≤◌, drop, length, true, false};
ghost use Rattle.std.specs.Option.{MatchOption};
ghost use Rattle.std.specs.Result.{MatchResult};
ghost use Rattle.std.specs.Str.Parse.{digits_value};
ghost use Rattle.nichols_tensor.specs.declared.TheConstants.{LETTER_LIMIT, WORD_LIMIT};
ghost use Rattle.nichols_expression.specs.Reader.{is_letter_run, letters_at, past_run, run_at, word_at};
ghost use Rattle.nichols_expression.specs.Steps.{IsReadTo, IsStoppedBy};

use crate::digits::letter_of;
use crate::faults::Cause;
use crate::placed_fault::PlacedFault;
use crate::scan::{behind_run, has_byte, has_digit};
use nichols_words::Word;

/// The letter that the run of digits at a place is, and the place behind it.
fn letter_at(text: &[u8], at: usize, letters: u8) -> Option<(u8, usize)>
    requires within { at ≤ length text.now }
    requires letters { letters ≤ LETTER_LIMIT }
    ensures { MatchOption result
        (is_letter_run letters (run_at (drop at text.now)) ≡ false)
        (λ r. (is_letter_run letters (run_at (drop at text.now)) ≡ true) × (r.0 ≡ digits_value 10 (run_at (drop at text.now)))
        × (at ≤ r.1) × (r.1 ≤ length text.now) × (drop r.1 text.now ≡ past_run (drop at text.now))) }
{
    let end = behind_run(text, at);
    let letter = letter_of(&text[at..end], letters)?;
    Some((letter, end))
}

/// The word whose letters begin with the run of digits at a place, and the place behind it.
fn read_letters(text: &[u8], from: usize, letters: u8) -> Result<(Word, usize), PlacedFault>
    requires within { from ≤ length text.now }
    requires letters { letters ≤ LETTER_LIMIT }
    ensures { MatchResult result
        (λ r. IsReadTo text.now from (letters_at letters WORD_LIMIT (drop from text.now)) r.0 r.1)
        (IsStoppedBy text.now (letters_at letters WORD_LIMIT (drop from text.now))) }
{
    let mut word = Word::empty();
    let mut at = from;
    loop {
        let Some((letter, end)) = letter_at(text, at, letters) else {
            return Err(PlacedFault::behind(text, at, Cause::Letter));
        };
        if !word.push(letter) {
            return Err(PlacedFault::behind(text, at, Cause::LongWord));
        }
        if !has_byte(text, end, b'.') {
            return Ok((word, end));
        }
        at = end + 1;
        if at == text.len() {
            return Err(PlacedFault::behind(text, at, Cause::Early));
        }
        if !has_digit(text, at) {
            return Err(PlacedFault::behind(text, at, Cause::Byte));
        }
    }
}

/// The word at a place, and the place behind it.
pub(crate) fn read_word(text: &[u8], from: usize, letters: u8) -> Result<(Word, usize), PlacedFault>
    requires within { from ≤ length text.now }
    requires letters { letters ≤ LETTER_LIMIT }
    ensures { MatchResult result
        (λ r. IsReadTo text.now from (word_at letters (drop from text.now)) r.0 r.1)
        (IsStoppedBy text.now (word_at letters (drop from text.now))) }
{
    if has_digit(text, from) {
        return read_letters(text, from, letters);
    }
    if has_byte(text, from, b'e') {
        return Ok((Word::empty(), from + 1));
    }
    if from == text.len() {
        return Err(PlacedFault::behind(text, from, Cause::Early));
    }
    Err(PlacedFault::behind(text, from, Cause::Byte))
}
