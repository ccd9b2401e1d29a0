//! What the elimination keeps of the rows that it has seen.

ghost use Rattle.std.specs.Prelude.{◌≡◌, ◌≢◌, ◌<◌, ◌^◌, ◌++◌, ◌∷◌, [], Some, None, IfOk, OnOk, length, replicate, slice_set};
ghost use Rattle.nichols_field.specs.Field.{IsElement, times, negative};

use crate::flat::Rows;
use nichols_field::Field;
use std::alloc::{AllocError, Global};

/// For each row that was seen, what is kept of it, and where the kept rows end.
#[derive(Drop)]
pub(crate) struct Echelon {
    /// What is left of each row; nothing where the row itself is kept, or nothing is.
    pub(crate) left: Rows,
    /// The multiples of kept rows that were taken out of each row, by their positions.
    pub(crate) steps: Rows,
    /// Minus the inverse of the last coefficient of each kept row.
    pub(crate) factors: Vec<u32>,
    /// For each column the position of the kept row that ends there.
    pub(crate) pivots: Vec<Option<u32>>,
}

impl Echelon {
    /// No row was seen.
    pub(crate) fn new(alloc: Global, width: usize) -> Result<Echelon, AllocError>
        ensures rows { IfOk result (λ e. (e.left ≡ record { rows = []; begun = [] }) × (e.steps ≡ record { rows = []; begun = [] })) }
        ensures tables { IfOk result (λ e. (e.factors.items ≡ []) × (e.pivots.items ≡ replicate width None)) }
    {
        let mut pivots = Vec::new(alloc);
        pivots.resize(width, None)?;
        Ok(Echelon {
            left: Rows::new(alloc),
            steps: Rows::new(alloc),
            factors: Vec::new(alloc),
            pivots,
        })
    }

    /// Notes the factor of the next row, and that it ends at a column.
    pub(crate) fn claim(&mut self, factor: u32, column: usize) -> Result<(), AllocError>
        requires inside { column < length self.old.pivots.items }
        requires count { length self.old.factors.items < 2 ^ 32 }
        ensures rows { (self.new.left ≡ self.old.left) × (self.new.steps ≡ self.old.steps) }
        ensures factors { OnOk result (self.new.factors.items ≡ self.old.factors.items ++ factor ∷ []) }
        ensures pivots { OnOk result (self.new.pivots.items ≡ slice_set self.old.pivots.items column (Some (length self.old.factors.items))) }
    {
        self.pivots[column] = Some(self.factors.len() as u32);
        self.factors.push(factor)?;
        Ok(())
    }
}

/// Minus the inverse of an element other than 0.
pub(crate) fn minus_inverse(field: Field, coefficient: u32) -> u32
    requires element { IsElement field coefficient }
    requires nonzero { coefficient ≢ 0 }
    ensures element { IsElement field result }
    ensures inverse { times field coefficient result ≡ negative field 1 }
{
    let _modulus = field.modulus();
    field.neg(field.inv(coefficient))
}
