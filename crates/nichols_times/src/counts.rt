//! What is counted of products.

ghost use Rattle.std.specs.Prelude.{◌≡◌};
ghost use Rattle.nichols_times.specs.Products.{least_words};

use crate::products::product_at;
use nichols_graded::Graded;
use nichols_memo::Memo;
use nichols_reduce::Normal;
use nichols_words::Word;
use std::alloc::{AllocError, Global};

/// How many products are zero, and how many terms all of them have.
#[derive(Clone, Copy)]
pub struct Counts {
    pub zero: u64,
    pub terms: u64,
}

impl Counts {
    /// The counts with a product more.
    fn with(self, product: &Normal) -> Counts {
        let Normal::Form(form) = product else {
            return self;
        };
        Counts {
            zero: self.zero.saturating_add(u64::from(form.is_zero())),
            terms: self.terms.saturating_add(form.terms().len() as u64),
        }
    }
}

/// What is counted of so many products. Where there are no words there are none.
pub fn counted(
    alloc: Global,
    graded: &Graded,
    words: &[Word],
    products: u32,
) -> Result<Counts, AllocError>
    requires { words.now ≡ least_words graded.now.braid graded.now.last }
{
    let levels = graded.levels();
    let (memo, mut seat) = Memo::start(alloc, levels.braid(), 1)?;
    let mut counts = Counts { zero: 0, terms: 0 };
    if words.is_empty() {
        return Ok(counts);
    }
    for k in 0..products {
        let product = product_at(alloc, levels, &memo, &mut seat, words, k)?;
        counts = counts.with(&product);
    }
    Ok(counts)
}
