//! Why a text is no expression.

ghost use Rattle.nichols_expression.specs.declared.faults.ExpressionFault.TheVariants.{Memory};
ghost use Rattle.std.specs.Prelude.{◌≡◌};

use std::alloc::{AllocError, AllocFailed};

/// What is wrong at a place of a text.
#[derive(Clone, Copy, Debug, PartialEq, Eq)]
pub enum Cause {
    /// The text ends where a term, a word or a letter is due.
    Early,
    /// A byte that can't stand there.
    Byte,
    /// A run of digits that is no letter of the braid, where one is due.
    Letter,
    /// A number before `*` with more digits than `NUMBER_LIMIT`.
    LongNumber,
    /// A letter of a word behind as many as a word may have.
    LongWord,
    /// A term behind as many as an expression may have.
    Terms,
    /// An expression of a document behind as many as it may have.
    Surplus,
}

/// Why an expression isn't read.
#[derive(Clone, Copy, Debug, PartialEq, Eq)]
pub enum ExpressionFault {
    /// The first fault of the text from the left: the place of its byte, counted from 1, and what is wrong there.
    ///
    /// Where the text ends too early, the place is that behind its last byte; a fault of a run of digits stands at the first of them.
    At(usize, Cause),
    /// Want of memory.
    Memory,
}

impl From<AllocError> for ExpressionFault {
    ghost from_gives = { λ _ fault. fault ≡ Memory };

    fn from(_error: AllocError) -> ExpressionFault {
        ExpressionFault::Memory
    }
}

impl<T: Drop> From<AllocFailed<T>> for ExpressionFault {
    ghost from_gives = { λ _ fault. fault ≡ Memory };

    fn from(_error: AllocFailed<T>) -> ExpressionFault {
        ExpressionFault::Memory
    }
}
