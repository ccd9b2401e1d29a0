//! The products of least words with generators, as rows over the candidates two degrees above.

ghost use Rattle.std.specs.Prelude.{◌≡◌, ◌<◌, ◌≤◌, ◌+◌, ◌*◌, ◌^◌, ℕ, [], IfOk, OnOk, length};
ghost use Rattle.std.specs.List.{AllByRecursion};
ghost use Rattle.nichols_field.specs.Field.{IsElement, plus, times};
ghost use Rattle.nichols_tensor.specs.Words.{IsLetterOf, IsWordOver};
ghost use Rattle.nichols_echelon.specs.Cells.{AllBelow, AllElements, entry};
ghost use Rattle.nichols_echelon.specs.Sums.{IsZero, sum_at};
ghost use Rattle.nichols_cover.specs.Ideal.{generator, generators};
ghost use Rattle.nichols_cover.specs.Level.{IsQuadraticRelation, IsTable};
ghost use Rattle.nichols_cover.specs.Rows.{AreProductRows, ArePut, cells_followed, cells_of_word, product_entry};

use crate::level::Level;
use nichols_echelon::{Cell, Rows, Sums};
use nichols_field::Field;
use nichols_words::{Relation, Word};
use std::alloc::{AllocError, Global};

/// Adds a multiple of the combination of least words that some cells are, with the letter y behind each word.
fn add_followed(field: Field, letters: u8, by: u32, cells: &[Cell], y: u8, sums: &mut Sums)
    requires factor { IsElement field by }
    requires letter { IsLetterOf letters y }
    requires elements { AllElements field cells.now }
    requires below { AllBelow (length sums.old) (cells_followed letters y cells.now) }
    ensures value { (place : ℕ) → sum_at field sums.new place ≡ plus field (sum_at field sums.old place) (times field by (entry field (cells_followed letters y cells.now) place)) }
    ensures width { length sums.new ≡ length sums.old }
{
    let _modulus = field.modulus();
    for cell in cells {
        let place = cell.column as usize * usize::from(letters) + usize::from(y) - 1;
        sums.put(field, place, field.mul(by, cell.coefficient));
    }
}

/// Adds a multiple of `u x y`, for the least word u with a number: the normal form of `u x`, with y behind.
fn add_word(
    field: Field,
    letters: u8,
    by: u32,
    number: usize,
    word: &Word,
    level: &Level,
    sums: &mut Sums,
)
    requires factor { IsElement field by }
    requires number { number < level.now.below }
    requires size { length word.now ≡ 2 }
    requires over { IsWordOver letters word.now }
    requires table { IsTable field letters level.now }
    requires width { level.now.count * letters ≤ length sums.old }
    ensures value { (place : ℕ) → sum_at field sums.new place ≡ plus field (sum_at field sums.old place) (times field by (entry field (cells_of_word letters level.now.forms.rows number word.now) place)) }
    ensures width { length sums.new ≡ length sums.old }
{
    let row = number * usize::from(letters) + usize::from(word.letter(0)) - 1;
    add_followed(
        field,
        letters,
        by,
        level.forms.row(row),
        word.letter(1),
        sums,
    );
}

/// Adds the product of the least word with a number and a generator, the candidate of a relation minus its form.
fn add_product(
    field: Field,
    letters: u8,
    number: usize,
    relation: &Relation,
    level: &Level,
    sums: &mut Sums,
)
    requires number { number < level.now.below }
    requires relation { IsQuadraticRelation field letters relation.now }
    requires table { IsTable field letters level.now }
    requires width { level.now.count * letters ≤ length sums.old }
    ensures value { (place : ℕ) → sum_at field sums.new place ≡ plus field (sum_at field sums.old place) (product_entry field letters level.now.forms.rows number (generator field relation.now) place) }
    ensures width { length sums.new ≡ length sums.old }
{
    let _modulus = field.modulus();
    add_word(field, letters, 1, number, &relation.candidate, level, sums);
    let minus = field.neg(1);
    for term in relation.form.terms() {
        let by = field.mul(minus, term.coefficient);
        add_word(field, letters, by, number, &term.word, level, sums);
    }
}

/// Puts the rows of the products of one least word with all generators behind others. The sums are 0 before and after.
fn push_products(
    field: Field,
    letters: u8,
    number: usize,
    quadratic: &[Relation],
    level: &Level,
    sums: &mut Sums,
    rows: &mut Rows,
) -> Result<(), AllocError>
    requires number { number < level.now.below }
    requires relations { AllByRecursion (IsQuadraticRelation field letters) quadratic.now }
    requires table { IsTable field letters level.now }
    requires width { level.now.count * letters ≤ length sums.old }
    requires zero { IsZero field sums.old }
    requires begun { rows.old.begun ≡ [] }
    ensures zero { OnOk result (IsZero field sums.new) }
    ensures width { OnOk result (length sums.new ≡ length sums.old) }
    ensures rows { OnOk result (ArePut field letters level.now.forms.rows number (generators field quadratic.now) rows.old rows.new) }
{
    let _modulus = field.modulus();
    for relation in quadratic {
        add_product(field, letters, number, relation, level, sums);
        sums.drain_into(field, rows)?;
    }
    Ok(())
}

/// The rows of the products of all least words of the degree below a level with all generators, over the candidates of the degree above.
pub(crate) fn product_rows(
    alloc: Global,
    field: Field,
    letters: u8,
    quadratic: &[Relation],
    level: &Level,
) -> Result<Rows, AllocError>
    requires relations { AllByRecursion (IsQuadraticRelation field letters) quadratic.now }
    requires table { IsTable field letters level.now }
    requires few { level.now.count * letters < 2 ^ 32 }
    ensures begun { IfOk result (λ r. r.begun ≡ []) }
    ensures rows { IfOk result (λ r. AreProductRows field letters level.now.forms.rows level.now.below (generators field quadratic.now) r.rows) }
{
    let _modulus = field.modulus();
    let mut sums = Sums::new(alloc, field, level.count * usize::from(letters))?;
    let mut rows = Rows::new(alloc);
    for number in 0..level.below {
        push_products(
            field, letters, number, quadratic, level, &mut sums, &mut rows,
        )?;
    }
    Ok(rows)
}
