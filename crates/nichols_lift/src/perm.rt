//! Permutations of few places, kept inline.

ghost use Rattle.std.specs.Prelude.{◌≡◌, ◌≤◌, ◌↔◌, IsTrue, MatchOption, length};
ghost use Rattle.nichols_braid.specs.Rearrangement.{IsRearrangement};
ghost use Rattle.nichols_braid.specs.Lift.{IsDescentAt, exchanged_at, first_descent};
ghost use Rattle.nichols_lift.specs.declared.TheConstants.{PLACE_LIMIT};
ghost use Rattle.nichols_lift.specs.Perm.{IsPerm};

use crate::PLACE_LIMIT;
use std::marker::Model;

/// A permutation of at most [`PLACE_LIMIT`] places, by its end places: entry j says where the letter at place j ends.
#[derive(Clone, Copy)]
pub struct Perm {
    len: usize,
    ends: [u8; PLACE_LIMIT],
}

impl Model for Perm {
    ghost use Rattle.std.specs.Prelude.{ℕ, List, take};
    ghost use Rattle.nichols_tensor.specs.Inline.{IsInline};
    ghost use Rattle.nichols_lift.specs.declared.TheConstants.{PLACE_LIMIT};
    ghost use Rattle.nichols_lift.specs.Perm.{IsPerm};

    ghost Value = { List ℕ };

    ghost view = { λ p. take p.len p.ends };

    ghost invariant = { λ p. IsInline PLACE_LIMIT IsPerm p.len p.ends };

    ghost use Rattle.nichols_lift.specs.PermFields.{fields_of, fields_back};

    ghost inverse = { fields_of };

    ghost inverse_ok = { fields_back };
}

impl Perm {
    /// The permutation with these end places. It is `None` where they are more than [`PLACE_LIMIT`], or no rearrangement of 1 to their number.
    pub fn new(ends: &[u8]) -> Option<Perm>
        ensures { MatchOption result (IsPerm ends.now → ⊥) (λ p. (p ≡ ends.now) × IsPerm ends.now) }
    {
        if ends.len() > PLACE_LIMIT || !is_rearrangement(ends) {
            return None;
        }
        let mut places = [0; PLACE_LIMIT];
        places[..ends.len()].copy_from_slice(ends);
        Some(Perm {
            len: ends.len(),
            ends: places,
        })
    }

    /// The end places; a caller learns here, too, what holds of each permutation.
    pub fn ends(&self) -> &[u8]
        ensures same { result.now ≡ self.now }
        ensures perm { IsPerm self.now }
    {
        &self.ends[..self.len]
    }

    /// The least place, from 1, whose end place is greater than the next one.
    pub(crate) fn first_descent(&self) -> Option<usize>
        ensures { result ≡ first_descent self.now }
    {
        descent_in(self.ends())
    }

    /// Exchanges the end places at a place and the next.
    pub(crate) fn exchange(&mut self, place: usize)
        requires { IsDescentAt place self.old }
        ensures { self.new ≡ exchanged_at place self.old }
    {
        self.ends.swap(place - 1, place);
    }
}

/// Whether the entries are a rearrangement of 1 to their number: each of these stands among them.
fn is_rearrangement(ends: &[u8]) -> bool
    requires { length ends.now ≤ PLACE_LIMIT }
    ensures { IsTrue result ↔ IsRearrangement (length ends.now) ends.now }
{
    for i in 0..ends.len() {
        let place = i as u8 + 1;
        if !ends.contains(&place) {
            return false;
        }
    }
    true
}

/// The least place, from 1, whose entry is greater than the next one.
fn descent_in(ends: &[u8]) -> Option<usize>
    ensures { result ≡ first_descent ends.now }
{
    for i in 1..ends.len() {
        if ends[i - 1] > ends[i] {
            return Some(i);
        }
    }
    None
}
