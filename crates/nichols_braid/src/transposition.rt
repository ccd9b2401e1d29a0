//! Transpositions of points, which are the numbers from 1 on.

ghost use Rattle.std.specs.Prelude.{◌≡◌, ◌≤◌, ◌++◌, IfOk, length};
ghost use Rattle.std.specs.Result.{OnOk};
ghost use Rattle.nichols_tensor.specs.declared.TheConstants.{LETTER_LIMIT};
ghost use Rattle.nichols_braid.specs.Transpositions.{conjugate, image_under, number_in, transposition_of, transpositions, transpositions_from};

use std::alloc::{AllocError, Global};
use std::marker::Model;

/// The transposition of two points, the first below the second.
#[derive(Clone, Copy)]
pub(crate) struct Transposition {
    first: u8,
    second: u8,
}

impl Model for Transposition {
    ghost use Rattle.nichols_braid.specs.Transpositions.{Transposition as PlainTransposition};

    ghost Value = { PlainTransposition };

    ghost view = { λ t. record { first = t.first; second = t.second } };

    ghost inverse = { λ t. record { first = t.first; second = t.second } };
}

impl Transposition {
    /// The transposition of two points in either order.
    fn of(a: u8, b: u8) -> Transposition
        ensures { result ≡ transposition_of a b }
    {
        let (first, second) = if a < b { (a, b) } else { (b, a) };
        Transposition { first, second }
    }

    /// Where a point is taken.
    fn image(self, x: u8) -> u8
        ensures { result ≡ image_under self x }
    {
        if x == self.first {
            self.second
        } else if x == self.second {
            self.first
        } else {
            x
        }
    }

    /// The conjugate of another one by this: it exchanges the images of the other's points.
    pub(crate) fn conjugate(self, other: Transposition) -> Transposition
        ensures { result ≡ conjugate self other }
    {
        Transposition::of(self.image(other.first), self.image(other.second))
    }

    /// The place in a list, from 1, or one more than its length.
    pub(crate) fn number_in(self, all: &[Transposition]) -> u8
        requires { length all.now ≤ LETTER_LIMIT }
        ensures { result ≡ number_in all.now self }
    {
        for (i, other) in all.iter().enumerate() {
            if self.first == other.first && self.second == other.second {
                return i as u8 + 1;
            }
        }
        all.len() as u8 + 1
    }
}

/// The transpositions of the points 1 to k, in lexicographic order.
#[tactic(auto, unfolding(crate::specs::Transpositions::transpositions))]
pub(crate) fn transpositions(alloc: Global, k: u8) -> Result<Vec<Transposition>, AllocError>
    ensures { IfOk result (λ v. v.items ≡ transpositions k) }
{
    let mut out = Vec::new(alloc);
    for a in 0..k {
        push_above(a + 1, k, &mut out)?;
    }
    Ok(out)
}

/// Puts the transpositions of point a and each greater one up to k behind others.
fn push_above(a: u8, k: u8, out: &mut Vec<Transposition>) -> Result<(), AllocError>
    requires { a ≤ k }
    ensures { OnOk result (out.new.items ≡ out.old.items ++ transpositions_from k a) }
{
    for b in a..k {
        out.push(Transposition {
            first: a,
            second: b + 1,
        })?;
    }
    Ok(())
}
