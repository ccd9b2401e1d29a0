//! What is known of a degree before it is made.

ghost use Rattle.std.specs.Prelude.{◌≡◌, ◌+◌, ◌≤◌, IfOk, None, length, map, suc};
ghost use Rattle.nichols_braid.specs.declared.TheConstants.{MOST_DEGREES, MOST_PRODUCTS};
ghost use Rattle.nichols_braid.specs.Kernel.{is_killed};
ghost use Rattle.nichols_braid.specs.Products.{products, rows};
ghost use Rattle.nichols_graded.specs.Ends.{rows_stop};
ghost use Rattle.nichols_graded.specs.Ahead.{AreOpen, IsAhead, IsBehind};
ghost use Rattle.nichols_graded.specs.Sizes.{AreSizes};

use crate::counts::row_count;
use crate::ends::Stop;
use nichols_braid::{Braid, Products, ProductsFault};
use std::alloc::{AllocError, Global};

/// What is known of the degree after the last finished one.
#[derive(Drop)]
pub(crate) enum Ahead {
    /// It isn't made, for this reason.
    Stopped(Stop),
    /// It may be made, and these are its products, and those of further degrees.
    Open(Vec<Products>),
}

/// What stops the degree after one by its rows: the first product with more candidates than the limit, by the numbers of least words
/// of that degree's blocks.
pub(crate) fn first_over(
    braid: &Braid,
    degree: u32,
    below: &Products,
    sizes: &[u64],
    next: &Products,
    limit: u32,
) -> Option<Stop>
    requires products { below.now ≡ products braid.now degree }
    requires sizes { AreSizes braid.now degree sizes.now }
    requires next { next.now ≡ products braid.now (suc degree) }
    requires few { length next.now ≤ MOST_PRODUCTS }
    requires degree { degree ≤ MOST_DEGREES }
    ensures { result ≡ rows_stop limit (suc degree) 1 (map (rows is_killed braid.now (suc degree)) next.now) }
{
    let above = degree + 1;
    for k in 0..next.len() {
        let count = row_count(braid, degree, below, sizes, next.at(k));
        if count > u64::from(limit) {
            return Some(Stop::Rows {
                degree: above,
                product: k as u32 + 1,
                count,
            });
        }
    }
    None
}

/// What is known of the degree after one, from the products of that degree and the numbers of least words of its blocks.
///
/// Products are listed only where the degree limit allows the degree, and candidates are counted only where the products aren't
/// too many.
pub(crate) fn look_ahead(
    alloc: Global,
    braid: &Braid,
    degree: u32,
    below: &Products,
    sizes: &[u64],
    degree_limit: u32,
    rows_limit: u32,
) -> Result<Ahead, AllocError>
    requires products { below.now ≡ products braid.now degree }
    requires sizes { AreSizes braid.now degree sizes.now }
    requires degree { degree ≤ MOST_DEGREES }
    ensures { IfOk result (IsAhead braid.now degree_limit rows_limit (suc degree)) }
{
    let _braid = braid.field();
    let above = degree + 1;
    if degree_limit < above {
        return Ok(Ahead::Stopped(Stop::DegreeLimit));
    }
    let next = match below.next(alloc, braid) {
        Ok(next) => next,
        Err(ProductsFault::Wide) => return Ok(Ahead::Stopped(Stop::Wide(above))),
        Err(ProductsFault::Memory) => return Err(AllocError),
    };
    match first_over(braid, degree, below, sizes, &next, rows_limit) {
        Some(stop) => Ok(Ahead::Stopped(stop)),
        None => Ok(Ahead::Open(vec![in alloc; next]?)),
    }
}

/// Lists the products of the degrees behind those that are listed, until there are so many lists, or the degree limit or the number
/// of products stops the next one: what stops it then.
pub(crate) fn list_on(
    alloc: Global,
    braid: &Braid,
    first: u32,
    lists: &mut Vec<Products>,
    degree_limit: u32,
    most: u32,
) -> Result<Option<Stop>, AllocError>
    requires open { AreOpen braid.now degree_limit first lists.old.items }
    requires limit { degree_limit ≤ MOST_DEGREES }
    ensures open { AreOpen braid.now degree_limit first lists.new.items }
    ensures behind { IfOk result (λ b. IsBehind braid.now degree_limit (first + length lists.new.items) b) }
    ensures enough { IfOk result (λ b. b ≡ None → most ≤ length lists.new.items) }
{
    while lists.len() < most as usize {
        let next = first + lists.len() as u32;
        if degree_limit < next {
            return Ok(Some(Stop::DegreeLimit));
        }
        match lists[lists.len() - 1].next(alloc, braid) {
            Ok(products) => lists.push(products)?,
            Err(ProductsFault::Wide) => return Ok(Some(Stop::Wide(next))),
            Err(ProductsFault::Memory) => return Err(AllocError),
        }
    }
    Ok(None)
}
