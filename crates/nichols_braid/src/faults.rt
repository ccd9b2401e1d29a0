//! Why rows and scalars aren't a braid.

ghost use Rattle.nichols_braid.specs.declared.faults.BraidFault.TheVariants.{Memory};
ghost use Rattle.std.specs.Prelude.{◌≡◌};
ghost use Rattle.nichols_field.specs.Field.{IsElement, parts_of};
ghost use Rattle.nichols_field.specs.Pairs.{pair};

use nichols_field::Field;
use std::alloc::{AllocError, AllocFailed};

/// The two numbers u and v of an element, to be shown; v is 0 without an extension.
#[derive(Clone, Copy, Debug, PartialEq, Eq)]
pub struct Shown {
    /// The number u.
    pub low: u32,
    /// The number v.
    pub high: u32,
}

impl Shown {
    /// The numbers of an element.
    pub(crate) fn of(field: Field, element: u32) -> Shown
        requires { IsElement field element }
        ensures { pair result.low result.high ≡ parts_of field element }
    {
        let (low, high) = field.pair(element);
        Shown { low, high }
    }
}

/// Why rows and scalars aren't a braid, each with its first place in lexicographic order.
///
/// The faults are looked for in this order. Letters, rows and columns count from 1, and n is the number of rows.
#[derive(Clone, Copy, Debug, PartialEq, Eq)]
pub enum BraidFault {
    /// There are so many rows, which is 0 or above `LETTER_LIMIT`.
    Letters(usize),
    /// The row of this number has not n entries.
    RackShape(usize),
    /// In row i and column j stands an integer, third, that is below 1 or above n.
    RackEntry(u32, u32, i64),
    /// The letters `i ▷ j` and `i ▷ k`, with j before k, are one letter, fourth.
    NotBijective(u8, u8, u8, u8),
    /// At letters i, j, k the letter `i ▷ (j ▷ k)`, fourth, isn't `(i ▷ j) ▷ (i ▷ k)`, fifth.
    NotDistributive(u8, u8, u8, u8, u8),
    /// The row of scalars of this number is missing, or it has not n entries, or it is row n + 1.
    CocycleShape(usize),
    /// The scalar `q(i, j)` is 0 in the field.
    CocycleZero(u8, u8),
    /// At letters i, j, k the element `q(i, j ▷ k) q(j, k)`, fourth, isn't `q(i ▷ j, i ▷ k) q(i, k)`, fifth.
    NotCocycle(u8, u8, u8, Shown, Shown),
    /// Want of memory.
    Memory,
}

impl From<AllocError> for BraidFault {
    ghost from_gives = { λ _ fault. fault ≡ Memory };

    fn from(_error: AllocError) -> BraidFault {
        BraidFault::Memory
    }
}

impl<T: Drop> From<AllocFailed<T>> for BraidFault {
    ghost from_gives = { λ _ fault. fault ≡ Memory };

    fn from(_error: AllocFailed<T>) -> BraidFault {
        BraidFault::Memory
    }
}
