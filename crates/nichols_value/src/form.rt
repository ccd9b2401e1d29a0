//! Combinations of the words of a basis, lent from rows.

ghost use Rattle.std.specs.Prelude.{◌≡◌, ◌<◌, IfOk, length, slice_index_or};
ghost use Rattle.nichols_tensor.specs.WordOrder.{IsOrdered};
ghost use Rattle.nichols_rows.specs.CombinationAt.{combination_at};
ghost use Rattle.nichols_value.specs.Kept.{AreCellsOver};

use nichols_echelon::Cell;
use nichols_rows::combination_of;
use nichols_words::{Comb, Term, Word};
use std::alloc::{AllocError, Global};
use std::marker::Model;

/// A combination of the words of a list, which rise: a place and a coefficient for each term.
#[derive(Drop)]
pub struct Form<'t> {
    words: &'t [Word],
    cells: &'t [Cell],
}

impl<'t> Model for Form<'t> {
    ghost use Rattle.nichols_tensor.specs.Combination.{Combination};
    ghost use Rattle.nichols_rows.specs.CombinationAt.{combination_at};
    ghost use Rattle.nichols_value.specs.Kept.{AreCellsOver};

    ghost Value = { Combination };

    ghost view = { λ f. combination_at f.words.now f.cells.now };

    ghost invariant = { λ f. AreCellsOver f.words.now f.cells.now };
}

/// A term of the combination that cells are.
fn term_at(words: &[Word], cells: &[Cell], k: usize) -> Term
    requires cells { AreCellsOver words.now cells.now }
    requires place { k < length cells.now }
    ensures { result ≡ slice_index_or (combination_at words.now cells.now) k result }
{
    let cell = &cells[k];
    Term {
        word: words[cell.column as usize],
        coefficient: cell.coefficient,
    }
}

impl<'t> Form<'t> {
    /// The combination of these words that these cells are.
    pub(crate) fn of(words: &'t [Word], cells: &'t [Cell]) -> Form<'t>
        requires { AreCellsOver words.now cells.now }
        ensures { result ≡ combination_at words.now cells.now }
    {
        Form { words, cells }
    }

    /// The number of terms; a caller learns here, too, that their words rise and that no coefficient is 0.
    pub fn len(&self) -> usize
        ensures value { result ≡ length self.now }
        ensures shape { IsOrdered self.now }
    {
        self.cells.len()
    }

    /// The term at index k, which counts from 0.
    pub fn term(&self, k: usize) -> Term
        requires { k < length self.now }
        ensures { result ≡ slice_index_or self.now k result }
    {
        term_at(self.words, self.cells, k)
    }

    /// An equal combination in memory of its own.
    pub fn copy(&self, alloc: Global) -> Result<Comb, AllocError>
        ensures { IfOk result (λ c. c ≡ self.now) }
    {
        combination_of(alloc, self.words, self.cells)
    }
}

/// A relation of a block, lent from its rule: a candidate that isn't least, with its normal form.
#[derive(Drop)]
pub struct LentRelation<'t> {
    pub candidate: Word,
    pub form: Form<'t>,
}

impl<'t> Model for LentRelation<'t> {
    ghost use Rattle.nichols_tensor.specs.Relation.{PlainRelation};

    ghost Value = { PlainRelation };

    ghost view = { λ r. record { candidate = r.candidate; form = r.form } };
}

/// What a rule says of a word.
#[derive(Drop)]
pub enum Looked<'t> {
    /// It is in the basis.
    Basis,
    /// It is the candidate of a relation, and this is its normal form.
    Form(Form<'t>),
    /// It is neither.
    NotHere,
}
