//! The products of `nichols_braid`, and lists of them that are made without its limit.

ghost use Rattle.std.specs.Prelude.{◌≡◌, IfOk};
ghost use Rattle.nichols_braid.specs.Products.{products};

use nichols_braid::{Braid, Entry, Product, Products, ProductsFault, Scalars};
use nichols_field::Field;
use std::alloc::{AllocError, Global};
use std::collections::BTreeMap;
use std::test::Fail;

/// Eight groups of three transpositions, whose letters leave those of the other groups as they are.
fn eight_groups(alloc: Global) -> Result<Braid, Fail> {
    let group = [[1, 3, 2], [3, 2, 1], [2, 1, 3]];
    let mut rack = Vec::new(alloc);
    for i in 0..24usize {
        let mut row = Vec::new(alloc);
        for j in 0..24usize {
            let image = if i / 3 == j / 3 {
                group[i % 3][j % 3] + i as i64 / 3 * 3
            } else {
                j as i64 + 1
            };
            row.push(image)?;
        }
        rack.push(row)?;
    }
    let field = Field::new(101).map_err(|_| "no field")?;
    let scalars = Scalars::Constant(Entry::Whole(-1));
    Ok(Braid::new(alloc, field, rack.as_slice(), &scalars).map_err(|_| "no braid")?)
}

/// The products with one letter more behind, each once, and as many as there are.
fn followed(
    alloc: Global,
    braid: &Braid,
    products: &[Product],
) -> Result<Vec<Product>, AllocError> {
    let _braid = braid.field();
    let mut known = BTreeMap::new(alloc);
    let mut out = Vec::new(alloc);
    for product in products {
        if product.images().len() != usize::from(braid.letters()) {
            continue;
        }
        for a in 0..braid.letters() {
            let next = product.times(braid, a + 1);
            if known.get(&next).is_none() {
                let _none = known.insert(next, ())?;
                out.push(next)?;
            }
        }
    }
    Ok(out)
}

/// The products of the words of m letters.
fn of_degree(alloc: Global, braid: &Braid, m: u32) -> Result<Products, ProductsFault>
    ensures { IfOk result (λ ps. ps ≡ products braid.now m) }
{
    let mut out = Products::first(alloc, braid)?;
    for _k in 0..m {
        out = out.next(alloc, braid)?;
    }
    Ok(out)
}

/// Whether these are the products of a list, in its order.
fn are_listed(listed: &Products, products: &[Product]) -> bool {
    if listed.len() != products.len() {
        return false;
    }
    for k in 0..listed.len() {
        if *listed.at(k) != products[k] {
            return false;
        }
    }
    true
}

/// A product of three letters is one transposition, a cycle of three beside a transposition of another group, or three
/// transpositions of three groups: 24, 8·2·21 and 56·27. One of four letters is the identity, a cycle of three, two of them in two
/// groups, two transpositions of two groups, one cycle and two transpositions of three groups, or four transpositions of four
/// groups: 1, 8·2, 28·4, 28·9, 8·2·21·9 and 70·81. The latter are too many to be listed.
#[test]
fn products_beyond_the_limit(rt: HostRuntime) -> Result<(), Fail> {
    let alloc = rt.alloc();
    let braid = eight_groups(alloc)?;
    let mut all = Vec::new(alloc);
    all.push(Product::identity(24))?;
    for (m, number) in [(0, 1), (1, 24), (2, 269), (3, 1_872)] {
        let listed = of_degree(alloc, &braid, m).map_err(|_| "no products")?;
        assert_eq!(rt; all.len(), number);
        assert!(rt; are_listed(&listed, all.as_slice()), "degree {m}");
        all = followed(alloc, &braid, all.as_slice())?;
    }
    assert_eq!(rt; all.len(), 9_075);
    let wide = of_degree(alloc, &braid, 4);
    assert!(rt; matches!(wide, Err(ProductsFault::Wide)));
    Ok(())
}
