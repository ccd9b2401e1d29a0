//! Where the reading of a text stops.

ghost use Rattle.std.specs.Prelude.{◌≡◌, ◌≤◌, ◌+◌, length};
ghost use Rattle.nichols_expression.specs.declared.faults.ExpressionFault.TheVariants.{At};

use crate::faults::{Cause, ExpressionFault};

/// A fault of a text: the place of its byte, counted from 1, and what is wrong there.
#[derive(Clone, Copy)]
pub(crate) struct PlacedFault {
    pub(crate) place: usize,
    pub(crate) cause: Cause,
}

impl PlacedFault {
    /// The fault behind so many bytes of a text.
    pub(crate) fn behind(text: &[u8], at: usize, cause: Cause) -> PlacedFault
        requires { at ≤ length text.now }
        ensures place { result.place ≡ at + 1 }
        ensures cause { result.cause ≡ cause }
    {
        PlacedFault {
            place: at + 1,
            cause,
        }
    }
}

impl From<PlacedFault> for ExpressionFault {
    ghost from_gives = { λ stop fault. fault ≡ At stop.place stop.cause };

    fn from(stop: PlacedFault) -> ExpressionFault {
        ExpressionFault::At(stop.place, stop.cause)
    }
}
