//! Products of some factors, from the left.

ghost use Rattle.std.specs.Prelude.{◌≡◌, ◌++◌, ◌∷◌, List, [], IfOk};
ghost use Rattle.std.specs.List.{AllByRecursion};
ghost use Rattle.nichols_tensor.specs.Combination.{AllElements, Combination};
ghost use Rattle.nichols_tensor.specs.Words.{IsOver};
ghost use Rattle.nichols_product.specs.Parts.{IsProductOf, IsRunning};
ghost use Rattle.nichols_product.specs.Products.{normal_of_product};

use crate::factors::times_factor;
use crate::parts::{Part, form_of_parts};
use nichols_block::Levels;
use nichols_braid::Product;
use nichols_reduce::{Normal, longest};
use nichols_words::Comb;
use std::alloc::{AllocError, Global};

/// The product of some factors.
#[derive(Drop)]
pub(crate) struct Running {
    /// A part for each block where the product may have least words.
    pub(crate) parts: Vec<Part>,
    /// Its degree, up to the first one that isn't made.
    pub(crate) reach: usize,
    /// Whether a factor is zero.
    pub(crate) zero: bool,
}

impl Running {
    /// The product of no factors: the empty word.
    pub(crate) fn start(alloc: Global, levels: &Levels) -> Result<Running, AllocError>
        ensures kept { IfOk result (IsRunning levels.now.braid levels.now.last) }
        ensures product { IfOk result (IsProductOf levels.now.braid levels.now.last []) }
    {
        let braid = levels.braid();
        let _field = braid.field();
        let mut sums = Vec::new(alloc);
        sums.push(1)?;
        let mut parts = Vec::new(alloc);
        parts.push(Part {
            degree: 0,
            product: Product::identity(braid.letters()),
            sums,
        })?;
        Ok(Running {
            parts,
            reach: 0,
            zero: false,
        })
    }

    /// The product with a factor more.
    pub(crate) fn times(
        self,
        alloc: Global,
        levels: &Levels,
        factor: &Comb,
    ) -> Result<Running, AllocError>
        requires kept { IsRunning levels.now.braid levels.now.last self }
        requires letters { IsOver levels.now.braid.letters factor.now }
        requires elements { AllElements levels.now.braid.field factor.now }
        ensures kept { IfOk result (IsRunning levels.now.braid levels.now.last) }
        ensures product { IfOk result (λ r. (fs : List Combination) → AllByRecursion (IsOver levels.now.braid.letters) fs → IsProductOf levels.now.braid levels.now.last fs self → IsProductOf levels.now.braid levels.now.last (fs ++ factor.now ∷ []) r) }
    {
        let _field = levels.braid().field();
        let last = levels.last() as usize;
        let terms = factor.terms();
        if self.zero || factor.is_zero() {
            return Ok(Running {
                parts: Vec::new(alloc),
                reach: 0,
                zero: true,
            });
        }
        let reach = usize::min(self.reach.saturating_add(longest(terms)), last + 1);
        if reach > last && !levels.closed() {
            return Ok(Running {
                parts: Vec::new(alloc),
                reach,
                zero: false,
            });
        }
        let parts = times_factor(alloc, levels, self.parts.as_slice(), terms)?;
        Ok(Running {
            parts,
            reach,
            zero: false,
        })
    }

    /// What is answered of the product.
    pub(crate) fn answer(&self, alloc: Global, levels: &Levels) -> Result<Normal, AllocError>
        requires kept { IsRunning levels.now.braid levels.now.last self.now }
        ensures { IfOk result (λ n. (fs : List Combination) → AllByRecursion (IsOver levels.now.braid.letters) fs → IsProductOf levels.now.braid levels.now.last fs self.now → n ≡ normal_of_product levels.now.braid levels.now.last fs) }
    {
        let _field = levels.braid().field();
        let last = levels.last();
        if !self.zero && self.reach > last as usize && !levels.closed() {
            return Ok(Normal::Beyond(last));
        }
        let form = form_of_parts(alloc, levels, self.parts.as_slice())?;
        Ok(Normal::Form(form))
    }
}
