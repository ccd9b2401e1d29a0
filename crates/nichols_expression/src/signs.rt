//! Signs before terms.

ghost use Rattle.std.specs.Prelude.{◌≡◌};
ghost use Rattle.nichols_field.specs.Field.{IsElement};
ghost use Rattle.nichols_expression.specs.Bytes.{signed_term};
ghost use Rattle.nichols_expression.specs.Reader.{sign_of};

use nichols_field::Field;
use nichols_words::Term;

/// The sign before a term.
#[derive(Clone, Copy)]
pub(crate) enum Sign {
    /// `+`, or none before the first term.
    Positive,
    /// `-`.
    Reversed,
}

/// The sign that a byte is.
pub(crate) fn sign_of(byte: u8) -> Option<Sign>
    ensures { result ≡ sign_of byte }
{
    match byte {
        b'+' => Some(Sign::Positive),
        b'-' => Some(Sign::Reversed),
        _ => None,
    }
}

/// A term after a sign.
pub(crate) fn signed(field: Field, sign: Sign, term: Term) -> Term
    requires { IsElement field term.coefficient }
    ensures { result ≡ signed_term field sign term }
{
    match sign {
        Sign::Positive => term,
        Sign::Reversed => Term {
            word: term.word,
            coefficient: field.neg(term.coefficient),
        },
    }
}
