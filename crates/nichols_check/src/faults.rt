//! Why a certificate is refused.

ghost use Rattle.std.specs.Prelude.{◌≡◌};
ghost use Rattle.nichols_check.specs.declared.faults.CertificateFault.TheVariants.{Memory};

use nichols_input::InputFault;
use nichols_words::Word;
use std::alloc::{AllocError, AllocFailed};

/// Why a certificate is refused. The faults of the document come first, then those of its tables, one table after the other, and
/// of a table the first in this order. Each names the table's degree, from 1; words are in the document's letters.
#[derive(Drop)]
pub enum CertificateFault {
    /// The document without its tables is refused. It is never for want of memory.
    Input(InputFault),
    /// The table hasn't the shape of one. In degree 0: there is no array of tables, or it has more than `TABLE_LIMIT`.
    Shape(u32),
    /// Basis and first words of relations don't rise, or aren't together the candidates, each once.
    Candidates(u32),
    /// The least first word of a relation whose expression has a word that isn't a basis word before it, or other derivatives.
    Form(u32, Word),
    /// The least basis word without an array that is a test for it, with one expression for each letter, over the basis of the
    /// degree below; for the last basis word, also where a further array stands behind its own.
    Inverse(u32, Word),
    /// Want of memory.
    Memory,
}

impl From<AllocError> for CertificateFault {
    ghost from_gives = { λ _ fault. fault ≡ Memory };

    fn from(_error: AllocError) -> CertificateFault {
        CertificateFault::Memory
    }
}

impl<T: Drop> From<AllocFailed<T>> for CertificateFault {
    ghost from_gives = { λ _ fault. fault ≡ Memory };

    fn from(_error: AllocFailed<T>) -> CertificateFault {
        CertificateFault::Memory
    }
}
