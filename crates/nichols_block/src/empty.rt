//! Lists with nothing in them.

ghost use Rattle.std.specs.Prelude.{◌≡◌, [], IfOk, replicate};

use nichols_echelon::Rows;
use nichols_value::Words;
use std::alloc::{AllocError, Global};

/// No words, once for each letter.
#[tactic(auto, using(std::proofs::lemmas::List::replicate_more))]
pub(crate) fn no_words(alloc: Global, letters: u8) -> Result<Vec<Words>, AllocError>
    ensures { IfOk result (λ r. r.items ≡ replicate letters []) }
{
    let mut lists = Vec::new(alloc);
    for _ in 0..letters {
        lists.push(Words::of(alloc, Vec::new(alloc))?)?;
    }
    Ok(lists)
}

/// So many rows with no cell.
#[tactic(auto, using(std::proofs::lemmas::List::replicate_more))]
pub(crate) fn empty_rows(alloc: Global, count: usize) -> Result<Rows, AllocError>
    ensures { IfOk result (λ r. r ≡ record { rows = replicate count []; begun = [] }) }
{
    let mut rows = Rows::new(alloc);
    for _ in 0..count {
        rows.close()?;
    }
    Ok(rows)
}

/// So many rows with no cell, once for each letter.
#[tactic(auto, using(std::proofs::lemmas::List::replicate_more))]
pub(crate) fn empty_rows_by_letter(
    alloc: Global,
    letters: u8,
    count: usize,
) -> Result<Vec<Rows>, AllocError>
    ensures { IfOk result (λ r. r.items ≡ replicate letters (record { rows = replicate count []; begun = [] })) }
{
    let mut lists = Vec::new(alloc);
    for _ in 0..letters {
        lists.push(empty_rows(alloc, count)?)?;
    }
    Ok(lists)
}
