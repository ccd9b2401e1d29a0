//! The numbers of the command line.

ghost use Rattle.std.specs.Prelude.{◌≡◌, ◌≤◌, length, true, option_map, IfSome};
ghost use Rattle.std.specs.List.{list_all};
ghost use Rattle.std.specs.Char.{is_ascii_digit};
ghost use Rattle.nichols_command.specs.declared.limits.TheConstants.{DIGITS_MOST};
ghost use Rattle.nichols_command.specs.Numbers.{short_number, is_short_number, digits_value, in_range, option_number};

use crate::limits::DIGITS_MOST;

/// The number of an option: the default where it isn't there, and otherwise what its text writes, where that is a number in
/// the range.
pub(crate) fn option_number(least: u32, most: u32, default: u32, text: Option<&str>) -> Option<u32>
    requires least { least ≤ default }
    requires most { default ≤ most }
    ensures value { result ≡ option_number least most default (option_map (λ s. s.now) text.entry) }
    ensures least { IfSome result (λ n. least ≤ n) }
    ensures most { IfSome result (λ n. n ≤ most) }
{
    match text {
        None => Some(default),
        Some(digits) => in_range(least, most, short_number(digits.as_bytes())?),
    }
}

/// A number, where it is in a range.
pub(crate) fn in_range(least: u32, most: u32, n: u32) -> Option<u32>
    ensures value { result ≡ in_range least most n }
    ensures least { IfSome result (λ k. least ≤ k) }
    ensures most { IfSome result (λ k. k ≤ most) }
{
    if least <= n && n <= most {
        Some(n)
    } else {
        None
    }
}

/// The number that ASCII digits write, of which there is one at least and no more than a number may have.
pub(crate) fn short_number(text: &[u8]) -> Option<u32>
    ensures { result ≡ short_number text.now }
{
    if is_short_number(text) {
        Some(digits_value(text))
    } else {
        None
    }
}

/// Whether a text is ASCII digits, one at least and no more than a number may have.
fn is_short_number(text: &[u8]) -> bool
    ensures value { result ≡ is_short_number text.now }
    ensures few { result ≡ true → length text.now ≤ DIGITS_MOST }
    ensures digits { result ≡ true → list_all is_ascii_digit text.now ≡ true }
{
    1 <= text.len() && text.len() <= DIGITS_MOST && all_digits(text)
}

/// Whether each byte is an ASCII digit.
fn all_digits(text: &[u8]) -> bool
    ensures { result ≡ list_all is_ascii_digit text.now }
{
    text.iter().all(|c| c.is_ascii_digit())
}

/// The number that some digits write.
fn digits_value(text: &[u8]) -> u32
    requires few { length text.now ≤ DIGITS_MOST }
    requires digits { list_all is_ascii_digit text.now ≡ true }
    ensures { result ≡ digits_value text.now }
{
    let mut n = 0;
    for c in text {
        n = n * 10 + u32::from(*c - b'0');
    }
    n
}
