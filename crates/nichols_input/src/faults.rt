//! Why a document is refused.

ghost use Rattle.std.specs.Prelude.{◌≡◌, None, option_map};
ghost use Rattle.nichols_braid.specs.FaultAnswers.{table_fault_in};
ghost use Rattle.nichols_input.specs.Refusal.{refusal_of, tables};
ghost use Rattle.nichols_input.specs.declared.faults.InputFault.TheVariants.{Modulus, Memory};

use crate::key::Key;
use crate::key_text::KeyText;
use nichols_braid::BraidFault;
use nichols_expression::Cause;
use nichols_field::FieldFault;
use std::alloc::{AllocError, AllocFailed};

/// Why a document is refused. The causes are looked for in this order.
#[derive(Debug, Drop)]
pub enum InputFault {
    /// The bytes aren't UTF-8, or aren't TOML.
    NotToml,
    /// The first of `modulus`, `rack` and `cocycle` that isn't there.
    MissingKey(Key),
    /// The least key, in the order of the bytes, that isn't a document's.
    UnknownKey(KeyText),
    /// The first of `modulus`, `extension`, `rack`, `cocycle`, `order` and `expressions` that is there with a value of a wrong kind.
    WrongKind(Key),
    /// The modulus is no field's, or the extension's polynomial has a root.
    Modulus(FieldFault),
    /// Rows and scalars aren't a braid, by the places of the document's own letters. It is never for want of memory.
    Braid(BraidFault),
    /// The order isn't one of the letters: its least wrong place, from 1.
    Order(u32),
    /// The first expression that is none: its number, and the place of its first fault, both from 1. Where there
    /// are more than `EXPRESSION_LIMIT`, and the first so many are expressions, it is the one behind them, at place 1.
    Expression(u32, usize, Cause),
    /// Want of memory.
    Memory,
}

impl From<AllocError> for InputFault {
    ghost from_gives = { λ _ fault. fault ≡ Memory };

    fn from(_error: AllocError) -> InputFault {
        InputFault::Memory
    }
}

impl<T: Drop> From<AllocFailed<T>> for InputFault {
    ghost from_gives = { λ _ fault. fault ≡ Memory };

    fn from(_error: AllocFailed<T>) -> InputFault {
        InputFault::Memory
    }
}

impl From<FieldFault> for InputFault {
    ghost from_gives = { λ fault input. input ≡ Modulus fault };

    fn from(fault: FieldFault) -> InputFault {
        InputFault::Modulus(fault)
    }
}

impl From<BraidFault> for InputFault {
    ghost from_gives = { λ fault input. (refusal_of input ≡ option_map tables (table_fault_in fault)) × (refusal_of input ≡ None → input ≡ Memory) };

    fn from(fault: BraidFault) -> InputFault {
        match fault {
            BraidFault::Memory => InputFault::Memory,
            told => InputFault::Braid(told),
        }
    }
}
