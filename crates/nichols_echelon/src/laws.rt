//! The laws of combinations of rows, for the crates above.

ghost use Rattle.std.specs.Prelude.{◌≡◌, ◌<◌, ◌↔◌, length};
ghost use Rattle.nichols_echelon.specs.Cells.{AllElements};
ghost use Rattle.nichols_echelon.specs.Combination.{IsDependent, AllFree, AreEqualCombinations};
ghost use Rattle.nichols_echelon.specs.Split.{IsSplit, place_at};
ghost use Rattle.nichols_echelon.specs.declared.rows.Place.TheVariants.{Independent};

use crate::{Place, Row};
use nichols_field::Field;

/// Over independent rows a combination has one list of coefficients.
#[tactic(auto, using(crate::proofs::Uniqueness::unique_combination))]
pub fn combinations_are_unique(field: Field, rows: &[Row], left: &Row, right: &Row)
    requires left_elements { AllElements field left.now }
    requires right_elements { AllElements field right.now }
    requires left_independent { AllFree field rows.now left.now }
    requires right_independent { AllFree field rows.now right.now }
    requires same { AreEqualCombinations field rows.now left.now right.now }
    ensures { left.now ≡ right.now }
{
    let _modulus = field.modulus();
    let _left = left.cells();
    let _right = right.cells();
}

/// Whether a row is independent is a matter of the rows alone.
#[tactic(auto, using(crate::proofs::Uniqueness::kind_is_determined))]
pub fn kinds_are_determined(_field: Field, _rows: &[Row], _places: &[Place], _k: usize)
    requires split { IsSplit _field _rows.now _places.now }
    requires inside { _k < length _rows.now }
    ensures { (place_at _places.now _k ≡ Independent) ↔ (IsDependent _field _rows.now _k → ⊥) }
{}

/// The places are a matter of the rows alone.
#[tactic(auto, using(crate::proofs::Uniqueness::split_is_unique))]
pub fn places_are_determined(field: Field, rows: &[Row], left: &[Place], right: &[Place])
    requires left { IsSplit field rows.now left.now }
    requires right { IsSplit field rows.now right.now }
    ensures { left.now ≡ right.now }
{
    let _modulus = field.modulus();
}
