//! One degree of a Nichols algebra.

ghost use Rattle.std.specs.Prelude.{◌≡◌, ◌<◌, ◌≤◌, ◌^◌, IfOk};
ghost use Rattle.nichols_braid.specs.Kernel.{is_in_kernel};
ghost use Rattle.nichols_braid.specs.Least.{candidates};
ghost use Rattle.nichols_lift.specs.declared.TheConstants.{PLACE_LIMIT};
ghost use Rattle.nichols_plain.specs.Degree.{IsDegree};

use crate::images::image_rows;
use nichols_braid::Braid;
use nichols_echelon::split_rows;
use nichols_rows::{independent_words, relations};
use nichols_words::{Relation, Word, with_letters};
use std::alloc::{AllocError, Global};

/// A degree of the Nichols algebra: its least words and its relations, both rising.
#[derive(Drop)]
pub struct PlainDegree {
    pub degree: u32,
    pub basis: Vec<Word>,
    pub relations: Vec<Relation>,
}

/// Degree m of the Nichols algebra of a braid, for m at most `PLACE_LIMIT`: the candidates whose images under the quantum
/// symmetrizer are no combinations of the images of earlier ones, and how the others are.
///
/// It works from degree 0 up. The columns of its matrices are all words of a degree, by their numbers.
pub fn plain_degree(alloc: Global, braid: &Braid, m: u32) -> Result<PlainDegree, AllocError>
    requires degree { m ≤ PLACE_LIMIT }
    requires columns { braid.now.letters ^ m < 2 ^ 32 }
    ensures { IfOk result (IsDegree braid.now m) }
{
    let _field = braid.field();
    let letters = braid.letters();
    let mut first = Vec::new(alloc);
    first.push(Word::empty())?;
    let mut last = degree_of_candidates(alloc, braid, 0, first.as_slice())?;
    for before in 0..m {
        let words = with_letters(alloc, letters, last.basis.as_slice())?;
        last = degree_of_candidates(alloc, braid, before + 1, words.as_slice())?;
    }
    Ok(last)
}

/// The degree whose candidates these words are.
fn degree_of_candidates(
    alloc: Global,
    braid: &Braid,
    degree: u32,
    words: &[Word],
) -> Result<PlainDegree, AllocError>
    requires degree { degree ≤ PLACE_LIMIT }
    requires columns { braid.now.letters ^ degree < 2 ^ 32 }
    requires words { words.now ≡ candidates is_in_kernel braid.now degree }
    ensures { IfOk result (IsDegree braid.now degree) }
{
    let field = braid.field();
    let rows = image_rows(alloc, braid, words)?;
    let places = split_rows(alloc, field, rows.as_slice())?;
    let found = places.as_slice();
    let basis = independent_words(alloc, words, found)?;
    let relations = relations(alloc, words, found)?;
    Ok(PlainDegree {
        degree,
        basis,
        relations,
    })
}
