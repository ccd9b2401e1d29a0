//! The least words of an algebra.

ghost use Rattle.std.specs.Prelude.{◌≡◌, IfOk};
ghost use Rattle.nichols_times.specs.Products.{least_words};

use nichols_graded::Graded;
use nichols_words::Word;
use std::alloc::{AllocError, Global};

/// The least words of the finished degrees, degree by degree.
pub fn least_words(alloc: Global, graded: &Graded) -> Result<Vec<Word>, AllocError>
    ensures { IfOk result (λ r. r.items ≡ least_words graded.now.braid graded.now.last) }
{
    let last = graded.levels().last();
    let mut words = Vec::new(alloc);
    for m in 0..last + 1 {
        let mut basis = graded.basis(alloc, m)?;
        words.append(&mut basis)?;
    }
    Ok(words)
}
