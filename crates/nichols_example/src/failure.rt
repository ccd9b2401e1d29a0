//! Why the program stops.

ghost use Rattle.std.specs.Prelude.{◌≡◌, ◌↔◌};
ghost use Rattle.nichols_braid.specs.declared.faults.BraidFault.TheVariants as braid_fault;
ghost use Rattle.nichols_expression.specs.declared.faults.ExpressionFault.TheVariants as expression_fault;
ghost use Rattle.nichols_example.specs.declared.failure.Failure.TheVariants.{Memory};

use nichols_braid::BraidFault;
use nichols_expression::ExpressionFault;
use std::alloc::{AllocError, AllocFailed};

/// Why the program stops before its last line.
#[derive(Clone, Copy, Debug, PartialEq, Eq)]
pub enum Failure {
    /// The tables are no braid over the field.
    Tables,
    /// A text is no expression over the letters of the braid.
    Text,
    /// There was no memory.
    Memory,
    /// The sink failed.
    Unwritten,
}

impl From<AllocError> for Failure {
    ghost from_gives = { λ _ failure. failure ≡ Memory };

    fn from(_error: AllocError) -> Failure {
        Failure::Memory
    }
}

impl<T: Drop> From<AllocFailed<T>> for Failure {
    ghost from_gives = { λ _ failure. failure ≡ Memory };

    fn from(_error: AllocFailed<T>) -> Failure {
        Failure::Memory
    }
}

impl From<BraidFault> for Failure {
    ghost from_gives = { λ fault failure. (failure ≡ Memory) ↔ (fault ≡ braid_fault.Memory) };

    fn from(fault: BraidFault) -> Failure {
        match fault {
            BraidFault::Memory => Failure::Memory,
            _ => Failure::Tables,
        }
    }
}

impl From<ExpressionFault> for Failure {
    ghost from_gives = { λ fault failure. (failure ≡ Memory) ↔ (fault ≡ expression_fault.Memory) };

    fn from(fault: ExpressionFault) -> Failure {
        match fault {
            ExpressionFault::Memory => Failure::Memory,
            ExpressionFault::At(_, _) => Failure::Text,
        }
    }
}
