use super::of_degree;
use crate::{Braid, Entry, Scalars};
use std::alloc::{AllocError, Global};
use std::test::Fail;

/// The rack with one letter more, which acts as the identity and is left alone by all others.
fn with_identity(alloc: Global, braid: &Braid) -> Result<Vec<Vec<i64>>, AllocError> {
    let _braid = braid.field();
    let letters = braid.letters();
    let mut rack = Vec::new(alloc);
    for i in 1..letters + 2 {
        let mut row = Vec::new(alloc);
        for j in 1..letters + 2 {
            let letter = if i <= letters && j <= letters {
                braid.act(i, j)
            } else {
                j
            };
            row.push(i64::from(letter))?;
        }
        rack.push(row)?;
    }
    Ok(rack)
}

/// The products of m transpositions and identities of seven points are the permutations by at most m of them: all but the 720
/// cycles of seven points for m = 5, and all 5,040 for m = 6.
#[test]
fn as_many_products_as_are_listed(rt: HostRuntime) -> Result<(), Fail> {
    let alloc = rt.alloc();
    let points = Braid::points(alloc, 7)?;
    let rack = with_identity(alloc, &points)?;
    let braid = Braid::new(
        alloc,
        points.field(),
        rack.as_slice(),
        &Scalars::Constant(Entry::Whole(-1)),
    )
    .map_err(|_| "refused")?;
    let before = of_degree(alloc, &braid, 5).map_err(|_| "no products")?;
    assert_eq!(rt; before.len(), 4_320);
    let listed = of_degree(alloc, &braid, 6).map_err(|_| "no products")?;
    assert_eq!(rt; listed.len(), 5_040);
    Ok(())
}
