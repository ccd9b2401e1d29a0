//! What the places of the rows of words say: which words have independent rows, and the combinations that the others are.

ghost use Rattle.std.specs.Prelude.{◌≡◌, ◌++◌, ◌∷◌, IfOk, OnOk, [], length};
ghost use Rattle.std.specs.List.{AllByRecursion};
ghost use Rattle.nichols_tensor.specs.WordOrder.{IsRising};
ghost use Rattle.nichols_rows.specs.Places.{IsInside, dependent_in, independent_in};

use crate::combination::combination_of;
use nichols_echelon::Place;
use nichols_words::{Relation, Word};
use std::alloc::{AllocError, Global};

/// Puts a word whose row depends on rows before it, with its form, behind other relations.
fn push_relation(
    alloc: Global,
    words: &[Word],
    candidate: Word,
    place: &Place,
    out: &mut Vec<Relation>,
) -> Result<(), AllocError>
    requires rising { IsRising words.now }
    requires inside { IsInside (length words.now) place.now }
    ensures { OnOk result (out.new.items ≡ out.old.items ++ dependent_in words.now (candidate ∷ []) (place.now ∷ [])) }
{
    if let Place::Depends(row) = place {
        let form = combination_of(alloc, words, row.cells())?;
        out.push(Relation { candidate, form })?;
    }
    Ok(())
}

/// The words whose rows depend on rows before them, in order, each with the combination of words that its place gives.
///
/// `places[k]` is the place of the row of `words[k]`; the words rise, and the positions in a place count from 0.
pub fn relations(
    alloc: Global,
    words: &[Word],
    places: &[Place],
) -> Result<Vec<Relation>, AllocError>
    requires count { length places.now ≡ length words.now }
    requires rising { IsRising words.now }
    requires inside { AllByRecursion (IsInside (length words.now)) places.now }
    ensures { IfOk result (λ r. r.items ≡ dependent_in words.now words.now places.now) }
{
    let mut out = Vec::new(alloc);
    for (k, place) in places.iter().enumerate() {
        push_relation(alloc, words, words[k], place, &mut out)?;
    }
    Ok(out)
}

/// The words whose rows are independent, in order: those of `words` with an independent place, where `places[k]` is the place
/// of the row of `words[k]`.
pub fn independent_words(
    alloc: Global,
    words: &[Word],
    places: &[Place],
) -> Result<Vec<Word>, AllocError>
    requires { length places.now ≡ length words.now }
    ensures { IfOk result (λ r. r.items ≡ independent_in words.now places.now) }
{
    let mut out = Vec::new(alloc);
    for (k, place) in places.iter().enumerate() {
        if let Place::Independent = place {
            out.push(words[k])?;
        }
    }
    Ok(out)
}
