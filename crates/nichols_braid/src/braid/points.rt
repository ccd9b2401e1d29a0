//! The braid of the transpositions of points.

ghost use Rattle.std.specs.Prelude.{◌≡◌, ◌≤◌, ◌++◌, IfOk, length, map, pos};
ghost use Rattle.std.specs.List.{flat_map};
ghost use Rattle.std.specs.Result.{OnOk};
ghost use Rattle.nichols_field.specs.Field.{prime_field};
ghost use Rattle.nichols_tensor.specs.declared.TheConstants.{LETTER_LIMIT};
ghost use Rattle.nichols_braid.specs.Points.{points_braid};
ghost use Rattle.nichols_braid.specs.Transpositions.{conjugate, number_in};
ghost use Rattle.nichols_braid.specs.declared.TheConstants.{POINTS_LEAST, POINTS_MOST};

use super::Braid;
use crate::transposition::{Transposition, transpositions};
use nichols_field::Field;
use std::alloc::{AllocError, Global};

/// The scalar -1 over 101 elements.
const MINUS_ONE: u32 = 100;

impl Braid {
    /// The braid of the transpositions of the points 1 to k, over 101 elements and with every scalar -1.
    ///
    /// The letters are the pairs of points a < b in lexicographic order, and `i ▷ j` is the conjugate of transposition
    /// j by transposition i. It takes from [`POINTS_LEAST`](crate::POINTS_LEAST) to [`POINTS_MOST`](crate::POINTS_MOST)
    /// points. The source is Fomin and Kirillov, "Quadratic algebras, Dunkl elements, and Schubert calculus".
    pub fn points(alloc: Global, k: u32) -> Result<Braid, AllocError>
        requires least { POINTS_LEAST ≤ k }
        requires most { k ≤ POINTS_MOST }
        ensures { IfOk result (λ b. b ≡ points_braid k) }
    {
        let all = transpositions(alloc, k as u8)?;
        let letters = all.len();
        let rack = conjugates(alloc, all.as_slice())?;
        let cocycle = vec![in alloc; MINUS_ONE; letters * letters]?;
        Ok(Braid {
            field: field_of_points(),
            letters: letters as u8,
            rack,
            cocycle,
        })
    }
}

/// The field of 101 elements.
fn field_of_points() -> Field
    ensures { result ≡ prime_field (pos 101) }
{
    match Field::new(101) {
        Ok(field) => field,
        Err(_) => unreachable!(),
    }
}

/// The numbers of the conjugates of each transposition of a list by each, those by the first in front.
fn conjugates(alloc: Global, all: &[Transposition]) -> Result<Vec<u8>, AllocError>
    requires { length all.now ≤ LETTER_LIMIT }
    ensures { IfOk result (λ v. v.items ≡ flat_map (λ s. map (λ t. number_in all.now (conjugate s t)) all.now) all.now) }
{
    let mut out = Vec::with_capacity(alloc, all.len() * all.len())?;
    for by in all {
        push_conjugates(all, *by, &mut out)?;
    }
    Ok(out)
}

/// Puts the numbers of the conjugates by one transposition behind others.
fn push_conjugates(
    all: &[Transposition],
    by: Transposition,
    out: &mut Vec<u8>,
) -> Result<(), AllocError>
    requires { length all.now ≤ LETTER_LIMIT }
    ensures { OnOk result (out.new.items ≡ out.old.items ++ map (λ t. number_in all.now (conjugate by t)) all.now) }
{
    for t in all {
        out.push(by.conjugate(*t).number_in(all))?;
    }
    Ok(())
}
