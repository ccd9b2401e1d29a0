//! What stands at a place of a text: single bytes, and runs of spaces and digits. Places count from 0.

ghost use Rattle.std.specs.Prelude.{◌≡◌, ◌≤◌, ◌-◌, drop, length, take};
ghost use Rattle.nichols_expression.specs.Reader.{past_run, past_spaces, run_at};
ghost use Rattle.nichols_expression.specs.Steps.{starts_with, starts_with_digit};

/// The place behind the spaces from a place on.
pub(crate) fn behind_spaces(text: &[u8], from: usize) -> usize
    requires { from ≤ length text.now }
    ensures within { result ≤ length text.now }
    ensures behind { from ≤ result }
    ensures left { drop result text.now ≡ past_spaces (drop from text.now) }
{
    let mut at = from;
    while at < text.len() && text[at] == b' ' {
        at += 1;
    }
    at
}

/// The place behind the digits from a place on.
pub(crate) fn behind_run(text: &[u8], from: usize) -> usize
    requires { from ≤ length text.now }
    ensures within { result ≤ length text.now }
    ensures behind { from ≤ result }
    ensures left { drop result text.now ≡ past_run (drop from text.now) }
    ensures run { take (result - from) (drop from text.now) ≡ run_at (drop from text.now) }
{
    let mut at = from;
    while at < text.len() && text[at].is_ascii_digit() {
        at += 1;
    }
    at
}

/// Whether this byte stands at a place.
pub(crate) fn has_byte(text: &[u8], at: usize, byte: u8) -> bool
    requires { at ≤ length text.now }
    ensures { result ≡ starts_with byte (drop at text.now) }
{
    at < text.len() && text[at] == byte
}

/// Whether a digit stands at a place.
pub(crate) fn has_digit(text: &[u8], at: usize) -> bool
    requires { at ≤ length text.now }
    ensures { result ≡ starts_with_digit (drop at text.now) }
{
    at < text.len() && text[at].is_ascii_digit()
}
