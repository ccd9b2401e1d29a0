//! Braids from tables of numbers.

ghost use Rattle.std.specs.Prelude.{IfOk};
ghost use Rattle.std.specs.List.{AllByRecursion};
ghost use Rattle.nichols_braid.specs.GivenEntries.{IsEntryOf};
ghost use Rattle.nichols_braid.specs.GivenScalars.{AreEntriesOf, given_scalars};

use nichols_braid::{Braid, Entry, Scalars};
use nichols_field::Field;
use std::alloc::{AllocError, Global};
use std::test::Fail;

/// The table of these rows.
fn table(alloc: Global, entries: &[&[i64]]) -> Result<Vec<Vec<i64>>, AllocError> {
    let mut out = Vec::new(alloc);
    for row in entries {
        out.push(row.to_vec(alloc)?)?;
    }
    Ok(out)
}

/// The braid of a rack with these scalars.
fn braid(alloc: Global, field: Field, rack: &[&[i64]], scalars: &Scalars) -> Result<Braid, Fail>
    requires { AreEntriesOf field (given_scalars scalars.now) }
{
    let rack = table(alloc, rack)?;
    let braid = Braid::new(alloc, field, rack.as_slice(), scalars).map_err(|_| "no braid")?;
    Ok(braid)
}

/// Integers as entries.
fn whole_row(alloc: Global, _field: Field, row: &[i64]) -> Result<Vec<Entry>, AllocError>
    ensures { IfOk result (λ v. AllByRecursion (IsEntryOf _field) v.items) }
{
    let mut out = Vec::new(alloc);
    for v in row {
        out.push(Entry::Whole(*v))?;
    }
    Ok(out)
}

/// The scalars of rows of integers.
fn whole_table(alloc: Global, field: Field, rows: &[&[i64]]) -> Result<Scalars, AllocError>
    ensures { IfOk result (λ s. AreEntriesOf field (given_scalars s)) }
{
    let mut out = Vec::new(alloc);
    for row in rows {
        out.push(whole_row(alloc, field, row)?)?;
    }
    Ok(Scalars::Table(out))
}

/// The braid of a rack and a table of scalars.
pub fn braid_with_table(
    alloc: Global,
    modulus: i64,
    rack: &[&[i64]],
    scalars: &[&[i64]],
) -> Result<Braid, Fail> {
    let field = Field::new(modulus).map_err(|_| "no field")?;
    let scalars = whole_table(alloc, field, scalars)?;
    braid(alloc, field, rack, &scalars)
}

/// The braid of a rack, with one scalar everywhere.
pub fn braid_with_constant(
    alloc: Global,
    modulus: i64,
    rack: &[&[i64]],
    scalar: i64,
) -> Result<Braid, Fail> {
    let field = Field::new(modulus).map_err(|_| "no field")?;
    braid(alloc, field, rack, &Scalars::Constant(Entry::Whole(scalar)))
}

/// The three transpositions of three points over 101 elements, with the scalar -1.
pub fn three_transpositions(alloc: Global) -> Result<Braid, Fail> {
    let rack: [&[i64]; 3] = [&[1, 3, 2], &[3, 2, 1], &[2, 1, 3]];
    braid_with_constant(alloc, 101, &rack, -1)
}

/// The rack of the tetrahedron over 101 elements, with the scalar -1.
pub fn tetrahedron(alloc: Global) -> Result<Braid, Fail> {
    let rack: [&[i64]; 4] = [&[1, 4, 2, 3], &[3, 2, 4, 1], &[4, 1, 3, 2], &[2, 3, 1, 4]];
    braid_with_constant(alloc, 101, &rack, -1)
}

/// The three transpositions of three points over five elements, with scalars that differ.
pub fn twisted_transpositions(alloc: Global) -> Result<Braid, Fail> {
    let rack: [&[i64]; 3] = [&[1, 3, 2], &[3, 2, 1], &[2, 1, 3]];
    braid_with_table(alloc, 5, &rack, &[&[3, 3, 3], &[1, 3, -1], &[1, -1, -2]])
}

/// Two letters that act as the identity, over 101 elements, with the scalar -1 but for `q(1, 2)`, which is 1.
pub fn two_letters(alloc: Global) -> Result<Braid, Fail> {
    braid_with_table(alloc, 101, &[&[1, 2], &[1, 2]], &[&[-1, 1], &[-1, -1]])
}

/// One letter with the scalar 2 over seven elements: the third power is zero.
pub fn one_letter(alloc: Global) -> Result<Braid, Fail> {
    braid_with_constant(alloc, 7, &[&[1]], 2)
}
