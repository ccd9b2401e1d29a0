ghost use Rattle.std.specs.List.{AllByRecursion};
ghost use Rattle.std.specs.Prelude.{IfOk, IsTrue};
ghost use Rattle.nichols_braid.specs.GivenEntries.{IsEntryOf};
ghost use Rattle.nichols_braid.specs.GivenScalars.{AreEntriesOf, given_scalars};
ghost use Rattle.nichols_field.specs.Field.{is_extended};

use super::{entries, fault, whole};
use crate::{Braid, BraidFault, Entry, Scalars, Shown};
use nichols_field::Field;
use std::alloc::{AllocError, Global};
use std::test::Fail;

/// A row of entries over a field with an extension.
fn entry_row(alloc: Global, _field: Field, row: &[Entry]) -> Result<Vec<Entry>, AllocError>
    requires { IsTrue (is_extended _field) }
    ensures { IfOk result (λ v. AllByRecursion (IsEntryOf _field) v.items) }
{
    row.to_vec(alloc)
}

/// The scalars of rows of entries over a field with an extension.
fn entry_table(alloc: Global, field: Field, rows: &[&[Entry]]) -> Result<Scalars, AllocError>
    requires { IsTrue (is_extended field) }
    ensures { IfOk result (λ s. AreEntriesOf field (given_scalars s)) }
{
    let mut out = Vec::new(alloc);
    for row in rows {
        out.push(entry_row(alloc, field, row)?)?;
    }
    Ok(Scalars::Table(out))
}

/// Two letters that act as the identity over four elements: all three elements other than 0 occur, the one (1, 1) by negative
/// integers.
#[test]
fn scalars_of_four_elements(rt: HostRuntime) -> Result<(), Fail> {
    let alloc = rt.alloc();
    let field = Field::extended(2, 1, 1).map_err(|_| "no field")?;
    let tables: [(&[&[Entry]], [u32; 4]); 2] = [
        (
            &[
                &[Entry::Whole(1), Entry::Pair(0, 1)],
                &[Entry::Pair(-1, -3), Entry::Whole(-1)],
            ],
            [1, 2, 3, 1],
        ),
        (
            &[
                &[Entry::Pair(1, 0), Entry::Pair(1, 1)],
                &[Entry::Pair(4, 1), Entry::Pair(0, -1)],
            ],
            [1, 3, 2, 2],
        ),
    ];
    for (table, want) in tables {
        if field.is_extended() {
            let rack = super::rows(alloc, &[&[1, 2], &[1, 2]])?;
            let scalars = entry_table(alloc, field, table)?;
            let braid = Braid::new(alloc, field, rack.as_slice(), &scalars).map_err(|_| "refused")?;
            let found = entries(alloc, &braid)?;
            assert!(rt; found.as_slice().iter().map(|entry| entry.2).eq(want));
        }
    }
    Ok(())
}

/// The three transpositions over nine elements, with t² = 2.
#[test]
fn faults_of_pairs(rt: HostRuntime) -> Result<(), Fail> {
    let alloc = rt.alloc();
    let field = Field::extended(3, 0, 2).map_err(|_| "no field")?;
    let one = Entry::Whole(1);
    let tables: [(Entry, BraidFault); 2] = [
        (Entry::Pair(3, -6), BraidFault::CocycleZero(1, 2)),
        (
            Entry::Pair(1, 2),
            BraidFault::NotCocycle(1, 3, 1, Shown { low: 1, high: 2 }, whole(1)),
        ),
    ];
    for (entry, want) in tables {
        if field.is_extended() {
            let scalars = entry_table(alloc, field, &[&[one, entry, one], &[one; 3], &[one; 3]])?;
            assert_eq!(rt; fault(alloc, field, &super::THREE, &scalars)?, Some(want));
        }
    }
    Ok(())
}
