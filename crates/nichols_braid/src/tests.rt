mod limits;
mod orders;
mod pairs;
mod points;

ghost use Rattle.std.specs.List.{AllByRecursion};
ghost use Rattle.std.specs.Prelude.{◌≡◌, IfOk};
ghost use Rattle.nichols_braid.specs.GivenEntries.{IsEntryOf};
ghost use Rattle.nichols_braid.specs.GivenScalars.{AreEntriesOf, given_scalars};
ghost use Rattle.nichols_braid.specs.Products.{products};

use super::*;
use nichols_field::Field;
use std::alloc::{AllocError, Global};
use std::test::Fail;
use std::thread::join;

fn rows(alloc: Global, entries: &[&[i64]]) -> Result<Vec<Vec<i64>>, AllocError> {
    let mut out = Vec::new(alloc);
    for row in entries {
        out.push(row.to_vec(alloc)?)?;
    }
    Ok(out)
}

/// Integers as entries.
fn whole_row(alloc: Global, _field: Field, row: &[i64]) -> Result<Vec<Entry>, AllocError>
    ensures { IfOk result (λ v. AllByRecursion (IsEntryOf _field) v.items) }
{
    let mut out = Vec::new(alloc);
    for v in row {
        out.push(Entry::Whole(*v))?;
    }
    Ok(out)
}

/// The scalars of rows of integers.
fn whole_table(alloc: Global, field: Field, rows: &[&[i64]]) -> Result<Scalars, AllocError>
    ensures { IfOk result (λ s. AreEntriesOf field (given_scalars s)) }
{
    let mut out = Vec::new(alloc);
    for row in rows {
        out.push(whole_row(alloc, field, row)?)?;
    }
    Ok(Scalars::Table(out))
}

const THREE: [&[i64]; 3] = [&[1, 3, 2], &[3, 2, 1], &[2, 1, 3]];

/// The three transpositions over five elements, with scalars that differ.
fn twisted(alloc: Global) -> Result<Braid, Fail> {
    let field = Field::new(5).map_err(|_| "no field")?;
    let rack = rows(alloc, &THREE)?;
    let scalars = whole_table(alloc, field, &[&[3, 3, 3], &[1, 3, -1], &[1, -1, -2]])?;
    Ok(Braid::new(alloc, field, rack.as_slice(), &scalars).map_err(|_| "refused")?)
}

/// `i ▷ j`, i and `q(i, j)` for all letters i and j, in lexicographic order.
fn entries(alloc: Global, braid: &Braid) -> Result<Vec<(u8, u8, u32)>, AllocError> {
    let letters = braid.letters();
    let mut out = Vec::new(alloc);
    for i in 0..letters {
        for j in 0..letters {
            out.push(braid.braid_at(i + 1, j + 1))?;
        }
    }
    Ok(out)
}

const TWISTED: [(u8, u8, u32); 9] = [
    (1, 1, 3),
    (3, 1, 3),
    (2, 1, 3),
    (3, 2, 1),
    (2, 2, 3),
    (1, 2, 4),
    (2, 3, 1),
    (1, 3, 4),
    (3, 3, 3),
];

#[test]
fn a_copy_is_the_whole_braid(rt: HostRuntime) -> Result<(), Fail> {
    let alloc = rt.alloc();
    let braid = twisted(alloc)?;
    let copy = braid.copy(alloc)?;
    for each in [&braid, &copy] {
        assert_eq!(rt; each.field().modulus(), 5);
        assert_eq!(rt; each.letters(), 3);
        assert_eq!(rt; entries(alloc, each)?.as_slice(), TWISTED.as_slice());
    }
    Ok(())
}

#[test]
fn threads_share_a_braid_and_take_it(rt: HostRuntime) -> Result<(), Fail> {
    let alloc = rt.alloc();
    let braid = twisted(alloc)?;
    let (there, here) = join(&rt, || entries(alloc, &braid), || entries(alloc, &braid));
    assert_eq!(rt; there?.as_slice(), TWISTED.as_slice());
    assert_eq!(rt; here?.as_slice(), TWISTED.as_slice());
    let (moved, ()) = join(&rt, move || entries(alloc, &braid), || ());
    assert_eq!(rt; moved?.as_slice(), TWISTED.as_slice());
    Ok(())
}

#[test]
fn one_letter_acts_on_another(rt: HostRuntime) -> Result<(), Fail> {
    let alloc = rt.alloc();
    let braid = twisted(alloc)?;
    assert_eq!(rt; braid.letters(), 3);
    if braid.letters() == 3 {
        assert_eq!(rt; braid.act(1, 2), 3);
        assert_eq!(rt; braid.scalar(3, 2), 4);
    }
    Ok(())
}

/// The fault of rows with these scalars.
fn fault(
    alloc: Global,
    field: Field,
    rack: &[&[i64]],
    scalars: &Scalars,
) -> Result<Option<BraidFault>, Fail>
    requires { AreEntriesOf field (given_scalars scalars.now) }
{
    let rack = rows(alloc, rack)?;
    Ok(Braid::new(alloc, field, rack.as_slice(), scalars).err())
}

/// Two letters that act alike.
const TWO: [&[i64]; 2] = [&[1, 2], &[1, 2]];

#[test]
fn racks_with_faults(rt: HostRuntime) -> Result<(), Fail> {
    let alloc = rt.alloc();
    let tables: [(&[&[i64]], Option<BraidFault>); 13] = [
        (&[&[1]], None),
        (&TWO, None),
        (&THREE, None),
        (&[], Some(BraidFault::Letters(0))),
        (&[&[]], Some(BraidFault::RackShape(1))),
        (&[&[1, 9], &[1], &[1, 2, 3]], Some(BraidFault::RackShape(1))),
        (&[&[1, 9], &[1]], Some(BraidFault::RackShape(2))),
        (&[&[1, 2], &[1, 0]], Some(BraidFault::RackEntry(2, 2, 0))),
        (&[&[1, 1], &[3, -1]], Some(BraidFault::RackEntry(2, 1, 3))),
        (
            &[&[1, 257], &[1, 2]],
            Some(BraidFault::RackEntry(1, 2, 257)),
        ),
        (
            &[&[1, 2, 3], &[1, 3, 2], &[2, 1, 1]],
            Some(BraidFault::NotBijective(3, 2, 3, 1)),
        ),
        (
            &[&[2, 1], &[1, 1]],
            Some(BraidFault::NotBijective(2, 1, 2, 1)),
        ),
        (
            &[&[1, 2], &[2, 1]],
            Some(BraidFault::NotDistributive(2, 1, 1, 2, 1)),
        ),
    ];
    let field = Field::new(101).map_err(|_| "no field")?;
    for (rack, want) in tables {
        assert_eq!(rt;
            fault(alloc, field, rack, &Scalars::Constant(Entry::Whole(1)))?,
            want,
            "of {} rows",
            rack.len()
        );
    }
    Ok(())
}

#[test]
fn racks_of_too_many_letters(rt: HostRuntime) -> Result<(), Fail> {
    let alloc = rt.alloc();
    let field = Field::new(101).map_err(|_| "no field")?;
    let row: [i64; 25] = [1; 25];
    let mut rack = Vec::new(alloc);
    for _letter in 0..25 {
        rack.push(row.to_vec(alloc)?)?;
    }
    let fault = Braid::new(
        alloc,
        field,
        rack.as_slice(),
        &Scalars::Constant(Entry::Whole(1)),
    )
    .err();
    assert_eq!(rt; fault, Some(BraidFault::Letters(25)));
    Ok(())
}

/// A number below the modulus, as an element is shown.
fn whole(low: u32) -> Shown {
    Shown { low, high: 0 }
}

#[test]
fn cocycles_with_faults(rt: HostRuntime) -> Result<(), Fail> {
    let alloc = rt.alloc();
    let tables: [(&[&[i64]], Option<BraidFault>); 9] = [
        (&[&[1, 1, 1], &[1, 1, 1], &[1, 1, 1]], None),
        (&[&[-1, 100, -1], &[201, -1, -1], &[-1, -1, -102]], None),
        (&[], Some(BraidFault::CocycleShape(1))),
        (&[&[1, 0, 1], &[1, 1, 1]], Some(BraidFault::CocycleShape(3))),
        (
            &[&[1, 1, 1], &[1, 1, 1, 1], &[1, 1, 1], &[1, 1, 1]],
            Some(BraidFault::CocycleShape(2)),
        ),
        (
            &[&[0, 1, 1], &[1, 1, 1], &[1, 1, 1], &[1, 1, 1], &[]],
            Some(BraidFault::CocycleShape(4)),
        ),
        (
            &[&[1, 2, 1], &[1, 1, -202], &[0, 1, 1]],
            Some(BraidFault::CocycleZero(2, 3)),
        ),
        (
            &[&[1, 2, 1], &[1, 1, 1], &[1, 1, 1]],
            Some(BraidFault::NotCocycle(1, 3, 1, whole(2), whole(1))),
        ),
        (
            &[&[1, 1, 1], &[1, 1, 1], &[1, 1, 2]],
            Some(BraidFault::NotCocycle(1, 2, 2, whole(1), whole(2))),
        ),
    ];
    let field = Field::new(101).map_err(|_| "no field")?;
    for (cocycle, want) in tables {
        let scalars = whole_table(alloc, field, cocycle)?;
        assert_eq!(rt;
            fault(alloc, field, &THREE, &scalars)?,
            want,
            "of {} rows",
            cocycle.len()
        );
    }
    Ok(())
}

#[test]
fn constants_with_faults(rt: HostRuntime) -> Result<(), Fail> {
    let alloc = rt.alloc();
    let scalars: [(i64, Option<BraidFault>); 3] = [
        (-1, None),
        (202, Some(BraidFault::CocycleZero(1, 1))),
        (0, Some(BraidFault::CocycleZero(1, 1))),
    ];
    let field = Field::new(101).map_err(|_| "no field")?;
    for (scalar, want) in scalars {
        assert_eq!(rt;
            fault(alloc, field, &TWO, &Scalars::Constant(Entry::Whole(scalar)))?,
            want,
            "at {scalar}"
        );
    }
    Ok(())
}

#[test]
fn earlier_faults_come_first(rt: HostRuntime) -> Result<(), Fail> {
    let alloc = rt.alloc();
    let field = Field::new(101).map_err(|_| "no field")?;
    let scalars = Scalars::Table(Vec::new(alloc));
    let distributive = BraidFault::NotDistributive(2, 1, 1, 2, 1);
    assert_eq!(rt;
        fault(alloc, field, &[&[1, 2], &[2, 1]], &scalars)?,
        Some(distributive)
    );
    Ok(())
}

/// The products of the words of m letters.
fn of_degree(alloc: Global, braid: &Braid, m: u32) -> Result<Products, ProductsFault>
    ensures { IfOk result (λ ps. ps ≡ products braid.now m) }
{
    let mut out = Products::first(alloc, braid)?;
    for _k in 0..m {
        out = out.next(alloc, braid)?;
    }
    Ok(out)
}

/// The braid of a rack with scalars -1, over 101 elements.
fn signed(alloc: Global, rack: &[&[i64]]) -> Result<Braid, Fail> {
    let field = Field::new(101).map_err(|_| "no field")?;
    let rack = rows(alloc, rack)?;
    Ok(Braid::new(
        alloc,
        field,
        rack.as_slice(),
        &Scalars::Constant(Entry::Whole(-1)),
    )
    .map_err(|_| "refused")?)
}

/// Three letters that act alike, each by the cycle of 1, 2, 3.
const CYCLE: [&[i64]; 3] = [&[2, 3, 1], &[2, 3, 1], &[2, 3, 1]];

#[test]
fn products_stand_in_the_order_of_first_words(rt: HostRuntime) -> Result<(), Fail> {
    let alloc = rt.alloc();
    let tables: [(&[&[i64]], u32, &[&[u8]]); 8] = [
        (&THREE, 0, &[&[1, 2, 3]]),
        (&THREE, 1, &[&[1, 3, 2], &[3, 2, 1], &[2, 1, 3]]),
        (&THREE, 2, &[&[1, 2, 3], &[2, 3, 1], &[3, 1, 2]]),
        (&THREE, 3, &[&[1, 3, 2], &[3, 2, 1], &[2, 1, 3]]),
        (&TWO, 1, &[&[1, 2]]),
        (&TWO, 3, &[&[1, 2]]),
        (&CYCLE, 1, &[&[2, 3, 1]]),
        (&CYCLE, 2, &[&[3, 1, 2]]),
    ];
    for (rack, degree, want) in tables {
        let braid = signed(alloc, rack)?;
        let listed = of_degree(alloc, &braid, degree).map_err(|_| "no products")?;
        assert_eq!(rt; listed.len(), want.len());
        for (k, images) in want.iter().enumerate() {
            if k < listed.len() {
                assert!(rt; listed.at(k).images() == *images);
                assert_eq!(rt; listed.find(listed.at(k)), Some(k));
            }
        }
    }
    Ok(())
}

/// The three transpositions over 101 elements.
const SIGNED: [(u8, u8, u32); 9] = [
    (1, 1, 100),
    (3, 1, 100),
    (2, 1, 100),
    (3, 2, 100),
    (2, 2, 100),
    (1, 2, 100),
    (2, 3, 100),
    (1, 3, 100),
    (3, 3, 100),
];

#[test]
fn copies_of_the_three_transpositions(rt: HostRuntime) -> Result<(), Fail> {
    let alloc = rt.alloc();
    let braid = signed(alloc, &THREE)?;
    let copy = braid.copy(alloc)?;
    assert_eq!(rt; copy.field().modulus(), 101);
    assert_eq!(rt; entries(alloc, &copy)?.as_slice(), SIGNED.as_slice());
    let counts: [usize; 4] = [1, 3, 3, 3];
    for (degree, want) in counts.iter().enumerate() {
        let listed = of_degree(alloc, &braid, degree as u32).map_err(|_| "no products")?;
        let same = listed.copy(alloc)?;
        assert_eq!(rt; same.len(), *want);
        for k in 0..listed.len() {
            assert_eq!(rt; same.find(listed.at(k)), Some(k));
        }
    }
    Ok(())
}

#[test]
fn threads_share_products_and_take_them(rt: HostRuntime) -> Result<(), Fail> {
    let alloc = rt.alloc();
    let braid = signed(alloc, &THREE)?;
    let listed = of_degree(alloc, &braid, 1).map_err(|_| "no products")?;
    let none = Product::identity(3);
    let (there, here) = join(&rt, || listed.len(), || listed.find(&none));
    assert_eq!(rt; there, 3);
    assert_eq!(rt; here, None);
    let order = Order::plain(3);
    let (moved, letters) = join(&rt, move || listed.len(), move || order.list().len());
    assert_eq!(rt; moved, 3);
    assert_eq!(rt; letters, 3);
    Ok(())
}

#[test]
fn products_are_followed_and_taken_back(rt: HostRuntime) -> Result<(), Fail> {
    let alloc = rt.alloc();
    let braid = signed(alloc, &CYCLE)?;
    let _braid = braid.field();
    let none = Product::identity(braid.letters());
    if braid.letters() == 3 {
        let one = none.times(&braid, 2);
        let before = none.back(&braid, 2);
        assert!(rt; one.images() == [2, 3, 1].as_slice());
        assert!(rt; before.images() == [3, 1, 2].as_slice());
        assert!(rt; one.times(&braid, 3) == before && one.back(&braid, 1) == none && one != before);
        assert!(rt; braid.unact(3, 1) == 3 && braid.unact(3, 2) == 1);
        assert!(rt; braid.leading(1) == 1 && braid.leading(3) == 1);
    }
    Ok(())
}

/// Eight groups of three transpositions; letters of different groups act trivially on one another.
fn eight_groups(alloc: Global) -> Result<Vec<Vec<i64>>, AllocError> {
    let mut rack = Vec::new(alloc);
    for i in 0..24_u8 {
        let mut row = Vec::new(alloc);
        for j in 0..24_u8 {
            let other = (6 - i % 3 - j % 3) % 3;
            let letter = if i / 3 == j / 3 { i / 3 * 3 + other } else { j };
            row.push(i64::from(letter) + 1)?;
        }
        rack.push(row)?;
    }
    Ok(rack)
}

#[test]
fn more_products_than_are_listed(rt: HostRuntime) -> Result<(), Fail> {
    let alloc = rt.alloc();
    let field = Field::new(101).map_err(|_| "no field")?;
    let rack = eight_groups(alloc)?;
    let braid = Braid::new(
        alloc,
        field,
        rack.as_slice(),
        &Scalars::Constant(Entry::Whole(-1)),
    )
    .map_err(|_| "refused")?;
    let listed = of_degree(alloc, &braid, 3).map_err(|_| "no products")?;
    let copy = listed.copy(alloc)?;
    assert_eq!(rt; listed.len(), 1_872);
    assert_eq!(rt; copy.len(), 1_872);
    for k in 0..listed.len() {
        assert_eq!(rt; copy.find(listed.at(k)), Some(k));
    }
    assert_eq!(rt; listed.find(&Product::identity(24)), None);
    assert_eq!(rt;
        of_degree(alloc, &braid, 4).err(),
        Some(ProductsFault::Wide)
    );
    Ok(())
}
