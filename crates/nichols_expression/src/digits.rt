//! Runs of digits, as numbers and as letters.

ghost use Rattle.std.specs.Prelude.{◌≡◌, ◌≤◌, length, false, true};
ghost use Rattle.std.specs.Option.{MatchOption};
ghost use Rattle.std.specs.Str.Parse.{AllDigits, digits_value};
ghost use Rattle.nichols_tensor.specs.declared.TheConstants.{LETTER_LIMIT};
ghost use Rattle.nichols_expression.specs.declared.TheConstants.{NUMBER_LIMIT};
ghost use Rattle.nichols_expression.specs.Reader.{is_letter_run};

use crate::NUMBER_LIMIT;

/// The number that a run of digits writes.
pub(crate) fn number_of(run: &[u8]) -> u32
    requires digits { AllDigits 10 run.now }
    requires short { length run.now ≤ NUMBER_LIMIT }
    ensures value { result ≡ digits_value 10 run.now }
{
    let mut value = 0;
    for byte in run {
        value = value * 10 + u32::from(*byte - b'0');
    }
    value
}

/// The letter that a run of digits is, of so many letters.
#[tactic(auto, using(crate::proofs::Numbers::no_letter_long, crate::proofs::Numbers::no_letter_zero, crate::proofs::Numbers::no_letter_empty, crate::proofs::Numbers::no_letter_great, crate::proofs::Numbers::letter_found))]
pub(crate) fn letter_of(run: &[u8], letters: u8) -> Option<u8>
    requires digits { AllDigits 10 run.now }
    requires letters { letters ≤ LETTER_LIMIT }
    ensures { MatchOption result
        (is_letter_run letters run.now ≡ false)
        (λ letter. (is_letter_run letters run.now ≡ true) × (letter ≡ digits_value 10 run.now)) }
{
    if run.is_empty() {
        return None;
    }
    if run.len() > NUMBER_LIMIT {
        return None;
    }
    let has_leading_zero = run[0] == b'0';
    if has_leading_zero {
        return None;
    }
    let number = number_of(run);
    if number > u32::from(letters) {
        return None;
    }
    Some(number as u8)
}
