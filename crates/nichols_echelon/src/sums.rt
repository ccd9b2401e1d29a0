//! Sums of rows, collected in one table and reduced once.

ghost use Rattle.std.specs.Prelude.{◌≡◌, ◌≢◌, ◌<◌, ◌≤◌, ◌+◌, ◌-◌, ◌^◌, ◌*◌, [], IfOk, OnOk, OnErr, MatchOption, List, ℕ, length, slice_index};
ghost use Rattle.nichols_field.specs.Field.{IsElement, plus, times};
ghost use Rattle.nichols_echelon.specs.Cells.{AllElements, AllBelow, entry};
ghost use Rattle.nichols_echelon.specs.Parts.{cells_behind};
ghost use Rattle.nichols_echelon.specs.Sums.{sum_at, with_entry, IsZero, IsMarked, IsSumRow, IsDrained, IsDraining, KeepsSums, OnlyClears, IsTaken, IsSameSums, IsZeroFrom};
ghost use Rattle.std.specs.Int.{bit_at};

use crate::flat::Rows;
use crate::rows::Cell;
use nichols_field::Field;
use std::alloc::{AllocError, Global};
use std::marker::Model;

/// The places of a word of marks.
const WORD: usize = 64;

/// An unreduced sum for each place, with a mark at each place that may hold another one than 0.
#[derive(Drop)]
pub struct Sums {
    values: Vec<u64>,
    marks: Vec<u64>,
}

impl Model for Sums {
    ghost use Rattle.std.specs.Prelude.{List, ℕ};
    ghost use Rattle.nichols_echelon.specs.Sums.{IsMarked};

    ghost Value = { List ℕ };

    ghost view = { λ s. s.values.items };

    ghost invariant = { λ s. IsMarked s.values.items s.marks.items };
}

/// Adds a multiple of a row, behind so many columns, to the sums.
#[inline]
fn scatter(
    field: Field,
    by: u32,
    offset: u32,
    cells: &[Cell],
    values: &mut [u64],
    marks: &mut [u64],
)
    requires factor { IsElement field by }
    requires elements { AllElements field cells.now }
    requires below { AllBelow (length values.old) (cells_behind offset cells.now) }
    requires marked { IsMarked values.old marks.old }
    ensures value { (place : ℕ) → sum_at field values.new place ≡ plus field (sum_at field values.old place) (times field by (entry field (cells_behind offset cells.now) place)) }
    ensures marked { IsMarked values.new marks.new }
{
    let _modulus = field.modulus();
    for cell in cells {
        let place = offset as usize + cell.column as usize;
        values[place] = field.add_product_to(values[place], by, cell.coefficient);
        marks[place / WORD] |= 1 << (place % WORD);
    }
}

/// Takes out the last sum other than 0 of the 64 places of a word of marks.
#[inline]
fn take_in(field: Field, values: &mut [u64], marks: &mut [u64], word: usize) -> Option<Cell>
    requires word { word < length marks.old }
    requires marked { IsMarked values.old marks.old }
    requires clear { IsZeroFrom field values.old (64 * word + 64) }
    ensures marked { IsMarked values.new marks.new }
    ensures cell { MatchOption result (IsSameSums field values.old values.new × IsZeroFrom field values.new (64 * word)) (λ cell. IsTaken field values.old values.new cell) }
{
    let _modulus = field.modulus();
    let mut left = marks[word];
    while left != 0 {
        let bit = 63 - left.leading_zeros() as usize;
        let place = 64 * word + bit;
        let coefficient = field.settle(values[place]);
        values[place] = 0;
        left &= !(1 << bit);
        marks[word] = left;
        if coefficient != 0 {
            return Some(Cell {
                column: place as u32,
                coefficient,
            });
        }
    }
    None
}

/// Takes out the last sum other than 0, where all sums from `end` on are 0.
#[inline]
fn take_before(field: Field, values: &mut [u64], marks: &mut [u64], end: usize) -> Option<Cell>
    requires marked { IsMarked values.old marks.old }
    requires end { end ≤ length values.old }
    requires clear { IsZeroFrom field values.old end }
    ensures marked { IsMarked values.new marks.new }
    ensures cell { MatchOption result (IsSameSums field values.old values.new × IsZero field values.new) (λ cell. IsTaken field values.old values.new cell) }
{
    let _modulus = field.modulus();
    let mut words = end.div_ceil(WORD);
    while words > 0 {
        words -= 1;
        if let Some(cell) = take_in(field, values, marks, words) {
            return Some(cell);
        }
    }
    None
}

/// Puts a cell behind the open row, if its coefficient isn't 0.
#[inline]
#[tactic(auto, unfolding(crate::specs::Sums::with_entry))]
fn push_entry(rows: &mut Rows, place: usize, coefficient: u32) -> Result<(), AllocError>
    requires { place < 2 ^ 32 }
    ensures rows { rows.new.rows ≡ rows.old.rows }
    ensures ok { OnOk result (rows.new.begun ≡ with_entry rows.old.begun place coefficient) }
{
    if coefficient == 0 {
        return Ok(());
    }
    rows.push_cell(Cell {
        column: place as u32,
        coefficient,
    })?;
    Ok(())
}

/// Takes the sums of the 64 places of a word of marks.
#[inline]
fn drain_word(
    field: Field,
    values: &mut [u64],
    word: usize,
    marked: u64,
    rows: &mut Rows,
) -> Result<(), AllocError>
    requires inside { 64 * word + 64 ≤ length values.old }
    requires short { length values.old ≤ 2 ^ 32 }
    requires marked { (place : ℕ) → 64 * word ≤ place → place < 64 * word + 64 → slice_index values.old place ≢ 0 → bit_at marked (place - 64 * word) ≡ 1 }
    requires state { IsDraining field values.old rows.old.begun (64 * word) }
    ensures state { OnOk result (IsDraining field values.new rows.new.begun (64 * word + 64)) }
    ensures sums { OnOk result (KeepsSums field values.old rows.old.begun values.new rows.new.begun) }
    ensures rest { OnlyClears values.old values.new }
    ensures rows { rows.new.rows ≡ rows.old.rows }
{
    let _modulus = field.modulus();
    let mut left = marked;
    while left != 0 {
        let bit = left.trailing_zeros() as usize;
        let place = 64 * word + bit;
        let coefficient = field.settle(values[place]);
        values[place] = 0;
        left &= !(1 << bit);
        push_entry(rows, place, coefficient)?;
    }
    Ok(())
}

/// Takes all sums into the open row.
#[inline]
fn drain(
    field: Field,
    values: &mut [u64],
    marks: &mut [u64],
    rows: &mut Rows,
) -> Result<(), AllocError>
    requires marked { IsMarked values.old marks.old }
    requires begun { rows.old.begun ≡ [] }
    ensures zero { OnOk result (IsZero field values.new) }
    ensures row { OnOk result (IsSumRow field values.old rows.new.begun) }
    ensures rows { rows.new.rows ≡ rows.old.rows }
    ensures marked { IsMarked values.new marks.new }
{
    let _modulus = field.modulus();
    for word in 0..marks.len() {
        drain_word(field, values, word, marks[word], rows)?;
        marks[word] = 0;
    }
    Ok(())
}

impl Sums {
    /// Closes the open row, which has no cell yet, as the row of the sums: its cells are the places
    /// whose sum isn't 0. All sums are 0 again.
    ///
    /// On an error the closed rows are the same; the sums are spent, and the open row may have cells.
    pub fn drain_into(&mut self, field: Field, rows: &mut Rows) -> Result<(), AllocError>
        requires { rows.old.begun ≡ [] }
        ensures zero { OnOk result (IsZero field self.new) }
        ensures row { OnOk result (IsDrained field self.old rows.old rows.new) }
        ensures width { length self.new ≡ length self.old }
        ensures rows { OnErr result (rows.new.rows ≡ rows.old.rows) }
    {
        drain(
            field,
            self.values.as_mut_slice(),
            self.marks.as_mut_slice(),
            rows,
        )?;
        rows.close()
    }

    /// Takes out the last sum other than 0, where all sums from `end` on are 0.
    #[inline]
    pub fn take_last(&mut self, field: Field, end: usize) -> Option<Cell>
        requires end { end ≤ length self.old }
        requires zero { IsZeroFrom field self.old end }
        ensures cell { MatchOption result (IsSameSums field self.old self.new × IsZero field self.new) (λ cell. IsTaken field self.old self.new cell) }
        ensures width { length self.new ≡ length self.old }
    {
        take_before(
            field,
            self.values.as_mut_slice(),
            self.marks.as_mut_slice(),
            end,
        )
    }

    /// A 0 for each place below a number, and for up to 63 more.
    #[tactic(auto, using(crate::proofs::Taking::zero_at_first))]
    pub fn new(alloc: Global, field: Field, places: usize) -> Result<Sums, AllocError>
        requires { places ≤ 2 ^ 32 }
        ensures zero { IfOk result (λ s. IsZero field s) }
        ensures width { IfOk result (λ s. places ≤ length s) }
        ensures narrow { IfOk result (λ s. length s < places + 64) }
    {
        let _modulus = field.modulus();
        let words = places.div_ceil(WORD);
        let values = vec![in alloc; 0; WORD * words]?;
        let marks = vec![in alloc; 0; words]?;
        Ok(Sums { values, marks })
    }

    /// Makes room for each place below a number, and for up to 63 more, where all sums are 0.
    ///
    /// A drain looks at the marks of all places, so it pays to have few: room that is too wide is
    /// given back.
    pub fn room(&mut self, alloc: Global, field: Field, places: usize) -> Result<(), AllocError>
        requires places { places ≤ 2 ^ 32 }
        requires zero { IsZero field self.old }
        ensures zero { IsZero field self.new }
        ensures width { OnOk result (places ≤ length self.new) }
        ensures narrow { OnOk result (length self.new < places + 64) }
        ensures err { OnErr result (self.new ≡ self.old) }
    {
        if self.marks.len() != places.div_ceil(WORD) {
            *self = Sums::new(alloc, field, places)?;
        }
        Ok(())
    }

    /// The number of places.
    pub fn width(&self) -> usize
        ensures { result ≡ length self.now }
    {
        self.values.len()
    }

    /// Adds an element at a place.
    #[inline]
    pub fn put(&mut self, field: Field, place: usize, coefficient: u32)
        requires element { IsElement field coefficient }
        requires below { place < length self.old }
        ensures here { sum_at field self.new place ≡ plus field (sum_at field self.old place) coefficient }
        ensures elsewhere { (other : ℕ) → other ≢ place → sum_at field self.new other ≡ sum_at field self.old other }
        ensures width { length self.new ≡ length self.old }
    {
        self.values[place] = field.add_to(self.values[place], coefficient);
        self.marks[place / WORD] |= 1 << (place % WORD);
    }

    /// Adds a multiple of a row.
    #[inline]
    pub fn add_scaled(&mut self, field: Field, by: u32, cells: &[Cell])
        requires factor { IsElement field by }
        requires elements { AllElements field cells.now }
        requires below { AllBelow (length self.old) cells.now }
        ensures value { (place : ℕ) → sum_at field self.new place ≡ plus field (sum_at field self.old place) (times field by (entry field cells.now place)) }
        ensures width { length self.new ≡ length self.old }
    {
        self.add_behind(field, by, 0, cells);
    }

    /// Adds a multiple of a row whose columns stand behind so many others.
    #[inline]
    pub fn add_behind(&mut self, field: Field, by: u32, offset: u32, cells: &[Cell])
        requires factor { IsElement field by }
        requires elements { AllElements field cells.now }
        requires below { AllBelow (length self.old) (cells_behind offset cells.now) }
        ensures value { (place : ℕ) → sum_at field self.new place ≡ plus field (sum_at field self.old place) (times field by (entry field (cells_behind offset cells.now) place)) }
        ensures width { length self.new ≡ length self.old }
    {
        scatter(
            field,
            by,
            offset,
            cells,
            self.values.as_mut_slice(),
            self.marks.as_mut_slice(),
        );
    }
}
