//! The tables of a braid, read from rows of integers.

ghost use Rattle.std.specs.Prelude.{◌≡◌, ◌≤◌, ◌++◌, true, false, IfOk, OnOk, MatchOption, MatchResult, map, length};
ghost use Rattle.std.specs.List.{AllByRecursion, flat_map};
ghost use Rattle.nichols_braid.specs.FaultAnswers.{IsFaultOrMemory};
ghost use Rattle.nichols_braid.specs.Faults.{first_answer, rows_fault, rack_entry_fault, entry_fault_at, is_letter, row_fits, wrong_row, cocycle_shape_fault};
ghost use Rattle.nichols_braid.specs.GivenEntries.{IsEntryOf, given_element};
ghost use Rattle.nichols_braid.specs.GivenScalars.{AreEntriesOf, given_scalars};
ghost use Rattle.nichols_braid.specs.Tables.{image};
ghost use Rattle.nichols_braid.specs.GivenTables.{letter_of, given_rack, given_cocycle};
ghost use Rattle.nichols_tensor.specs.Words.{IsLetterOf, up_to};

use crate::entry::Entry;
use crate::faults::BraidFault;
use nichols_field::Field;
use nichols_tensor::LETTER_LIMIT;
use std::alloc::{AllocError, Global};
use std::marker::Model;

/// The scalars of a braid, as they are given.
#[derive(Debug, Drop)]
pub enum Scalars {
    /// One entry for every place.
    Constant(Entry),
    /// Row i has `q(i, j)` at place j.
    Table(Vec<Vec<Entry>>),
}

/// A table of letters by letters, before the laws of a rack are known.
#[derive(Drop)]
pub(crate) struct RackTable {
    pub(crate) letters: u8,
    pub(crate) entries: Vec<u8>,
}

impl Model for RackTable {
    ghost use Rattle.nichols_braid.specs.Tables.{RackEntries, IsRackTable};

    ghost Value = { RackEntries };

    ghost view = { λ t. record { letters = t.letters; entries = t.entries.items } };

    ghost invariant = { λ t. IsRackTable (record { letters = t.letters; entries = t.entries.items }) };
}

impl RackTable {
    /// The table of these rows: 1 to `LETTER_LIMIT` of them, with as many letters in each.
    pub(crate) fn read(alloc: Global, rows: &[Vec<i64>]) -> Result<RackTable, BraidFault>
        ensures value { IfOk result (λ t. t ≡ given_rack (map (λ row. row.items) rows.now)) }
        ensures fault { MatchResult result
            (λ _. rows_fault (map (λ row. row.items) rows.now) ≡ None)
            (λ e. IsFaultOrMemory e (rows_fault (map (λ row. row.items) rows.now))) }
    {
        if rows.is_empty() {
            return Err(BraidFault::Letters(0));
        }
        if rows.len() > usize::from(LETTER_LIMIT) {
            return Err(BraidFault::Letters(rows.len()));
        }
        let letters = rows.len() as u8;
        if let Some(row) = wrong_row(letters, rows) {
            return Err(BraidFault::RackShape(row));
        }
        let entries = rows_letters(alloc, letters, rows)?;
        Ok(RackTable { letters, entries })
    }

    /// The entry of row i and column j.
    #[tactic(auto, unfolding(crate::specs::Braid::entry))]
    pub(crate) fn entry(&self, i: u8, j: u8) -> u8
        requires row { IsLetterOf self.now.letters i }
        requires column { IsLetterOf self.now.letters j }
        ensures value { result ≡ image self.now i j }
        ensures letter { IsLetterOf self.now.letters result }
    {
        let n = usize::from(self.letters);
        self.entries[(usize::from(i) - 1) * n + (usize::from(j) - 1)]
    }
}

/// The least number of a row that is missing or has not as many entries as there are letters, or that of a surplus row.
#[tactic(auto, unfolding(crate::specs::Faults::wrong_row))]
fn wrong_row<T: Drop>(letters: u8, rows: &[Vec<T>]) -> Option<usize>
    ensures { result ≡ wrong_row letters (map (λ row. row.items) rows.now) }
{
    let n = usize::from(letters);
    for r in 0..n + 1 {
        if !row_fits(n, rows, r + 1) {
            return Some(r + 1);
        }
    }
    None
}

/// Whether row r is as in n rows of n entries.
fn row_fits<T: Drop>(n: usize, rows: &[Vec<T>], r: usize) -> bool
    requires { 1 ≤ r }
    ensures { result ≡ row_fits n (map (λ row. row.items) rows.now) r }
{
    match rows.get(r - 1) {
        Some(row) => r <= n && row.len() == n,
        None => n < r,
    }
}

/// The letters of the rows, one row after the other.
fn rows_letters(alloc: Global, letters: u8, rows: &[Vec<i64>]) -> Result<Vec<u8>, BraidFault>
    requires count { length rows.now ≡ letters }
    requires lengths { wrong_row letters (map (λ row. row.items) rows.now) ≡ None }
    ensures value { IfOk result (λ v. v.items ≡ flat_map (map letter_of) (map (λ row. row.items) rows.now)) }
    ensures fault { MatchResult result
        (λ _. rack_entry_fault (map (λ row. row.items) rows.now) ≡ None)
        (λ e. IsFaultOrMemory e (rack_entry_fault (map (λ row. row.items) rows.now))) }
{
    let mut out = Vec::with_capacity(alloc, rows.len() * rows.len())?;
    for i in 0..letters {
        push_letters(letters, i + 1, rows[usize::from(i)].as_slice(), &mut out)?;
    }
    Ok(out)
}

/// Puts the letters of row i behind those of the rows before it.
fn push_letters(letters: u8, i: u8, row: &[i64], out: &mut Vec<u8>) -> Result<(), BraidFault>
    requires { length row.now ≡ letters }
    ensures value { OnOk result (out.new.items ≡ out.old.items ++ map letter_of row.now) }
    ensures fault { MatchResult result
        (λ _. first_answer (entry_fault_at letters row.now i) (up_to letters) ≡ None)
        (λ e. IsFaultOrMemory e (first_answer (entry_fault_at letters row.now i) (up_to letters))) }
{
    for (j, v) in row.iter().enumerate() {
        match letter_of(letters, *v) {
            Some(letter) => out.push(letter)?,
            None => return Err(BraidFault::RackEntry(u32::from(i), j as u32 + 1, *v)),
        }
    }
    Ok(())
}

/// An integer as one of n letters.
pub(crate) fn letter_of(letters: u8, v: i64) -> Option<u8>
    ensures { MatchOption result (is_letter letters v ≡ false) (λ a. (is_letter letters v ≡ true) × (a ≡ letter_of v)) }
{
    if 1 <= v && v <= i64::from(letters) {
        Some(v as u8)
    } else {
        None
    }
}

/// The table of the cocycle: one element at every place, or those of as many rows as letters, with as many entries each.
#[tactic(auto, unfolding(crate::specs::Faults::cocycle_shape_fault))]
pub(crate) fn cocycle_table(
    alloc: Global,
    field: Field,
    letters: u8,
    scalars: &Scalars,
) -> Result<Vec<u32>, BraidFault>
    requires { AreEntriesOf field (given_scalars scalars.now) }
    ensures value { IfOk result (λ v. v.items ≡ given_cocycle field letters (given_scalars scalars.now)) }
    ensures fault { MatchResult result
        (λ _. cocycle_shape_fault letters (given_scalars scalars.now) ≡ None)
        (λ e. IsFaultOrMemory e (cocycle_shape_fault letters (given_scalars scalars.now))) }
{
    match scalars {
        Scalars::Constant(entry) => {
            let n = usize::from(letters);
            Ok(vec![in alloc; given_element(field, *entry); n * n]?)
        }
        Scalars::Table(rows) => {
            if let Some(row) = wrong_row(letters, rows.as_slice()) {
                return Err(BraidFault::CocycleShape(row));
            }
            Ok(rows_elements(alloc, field, rows.as_slice())?)
        }
    }
}

/// The elements of the rows, one row after the other.
fn rows_elements(alloc: Global, field: Field, rows: &[Vec<Entry>]) -> Result<Vec<u32>, AllocError>
    requires { AllByRecursion (AllByRecursion (IsEntryOf field)) (map (λ row. row.items) rows.now) }
    ensures { IfOk result (λ v. v.items ≡ flat_map (map (given_element field)) (map (λ row. row.items) rows.now)) }
{
    let mut out = Vec::new(alloc);
    for row in rows {
        push_elements(field, row.as_slice(), &mut out)?;
    }
    Ok(out)
}

/// Puts the elements of a row behind those of the rows before it.
fn push_elements(field: Field, row: &[Entry], out: &mut Vec<u32>) -> Result<(), AllocError>
    requires { AllByRecursion (IsEntryOf field) row.now }
    ensures { OnOk result (out.new.items ≡ out.old.items ++ map (given_element field) row.now) }
{
    for entry in row {
        out.push(given_element(field, *entry))?;
    }
    Ok(())
}

/// The element that an entry stands for.
#[tactic(auto, unfolding(crate::specs::GivenEntries::given_element))]
fn given_element(field: Field, entry: Entry) -> u32
    requires { IsEntryOf field entry }
    ensures value { result ≡ given_element field entry }
{
    match entry {
        Entry::Whole(v) => field.from_i64(v),
        Entry::Pair(u, v) => field.joined(u, v),
    }
}
