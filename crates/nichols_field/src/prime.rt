//! The field of p elements.

ghost use Rattle.std.specs.Prelude.{◌≡◌, IsTrue, MatchResult, None, false};
ghost use Rattle.nichols_field.specs.Moduli.{is_modulus};
ghost use Rattle.nichols_field.specs.Field.{IsField, IsElement, plus, times, element_of_sum, negative, residue, is_modulus_integer, prime_field, modulus_of, size_of};

use crate::{FieldFault, Ground};
use std::marker::Model;

/// An unreduced sum below this has room for a product of elements.
const ROOM: u64 = 1 << 63;

/// The field of p elements, with p one of 2, 3, 5, 7, 101 and 65521.
///
/// Its elements are the numbers from 0 to p - 1.
#[derive(Clone, Copy)]
pub struct Prime {
    modulus: u32,
}

impl Model for Prime {
    ghost use Rattle.std.specs.Prelude.{IsTrue, None};
    ghost use Rattle.nichols_field.specs.Field.{FieldValue};
    ghost use Rattle.nichols_field.specs.Moduli.{is_modulus};

    ghost Value = { FieldValue };

    ghost view = { λ f. record { modulus = f.modulus; extension = None } };

    ghost invariant = { λ f. IsTrue (is_modulus f.modulus) };

    ghost inverse = { λ k. record { modulus = k.modulus } };
}

impl Prime {
    /// The field of p elements.
    #[tactic(auto, unfolding(crate::specs::Field::prime_field))]
    pub fn new(p: i64) -> Result<Prime, FieldFault>
        ensures { MatchResult result (λ f. (f ≡ prime_field p) × IsTrue (is_modulus_integer p)) (λ e. (e ≡ FieldFault.OutsideList p) × (is_modulus_integer p ≡ false)) }
    {
        let modulus = match p {
            2 => 2,
            3 => 3,
            5 => 5,
            7 => 7,
            101 => 101,
            65521 => 65521,
            _ => return Err(FieldFault::OutsideList(p)),
        };
        Ok(Prime { modulus })
    }

    /// The p of the field.
    #[tactic(auto, unfolding(crate::specs::Field::IsField, crate::specs::Field::modulus_of))]
    pub fn modulus(self) -> u32
        ensures value { result ≡ modulus_of self }
        ensures field { IsField self }
    {
        self.modulus
    }

    /// The field's p, which is all there is to it.
    #[tactic(auto, unfolding(crate::specs::Field::IsField))]
    pub(crate) fn number(self) -> u32
        ensures value { record { modulus = result; extension = None } ≡ self }
        ensures field { IsField self }
    {
        self.modulus
    }

    /// The field of a modulus.
    pub(crate) fn of(modulus: u32) -> Prime
        requires { IsTrue (is_modulus modulus) }
        ensures { result ≡ record { modulus = modulus; extension = None } }
    {
        Prime { modulus }
    }

    /// An unreduced sum with a product added, to be settled once at the end.
    #[inline(always)]
    #[tactic(auto, using(crate::proofs::Table::modulus_bounds, crate::proofs::Bounds::product_fits, crate::proofs::Pending::settled_product, crate::proofs::Pending::settled_product_again, std::proofs::lemmas::Nat::mod_below), unfolding(crate::specs::Field::IsElement))]
    pub fn add_product_to(self, pending: u64, a: u32, b: u32) -> u64
        requires left { IsElement self a }
        requires right { IsElement self b }
        ensures { element_of_sum self result ≡ plus self (element_of_sum self pending) (times self a b) }
    {
        let product = a as u64 * b as u64;
        if pending < ROOM {
            pending + product
        } else {
            pending % self.modulus as u64 + product
        }
    }

    /// An unreduced sum with an element added.
    #[inline(always)]
    #[tactic(auto, using(crate::proofs::Table::modulus_bounds, crate::proofs::Pending::settled_sum, crate::proofs::Pending::settled_sum_again, std::proofs::lemmas::Nat::mod_below), unfolding(crate::specs::Field::IsElement))]
    pub fn add_to(self, pending: u64, a: u32) -> u64
        requires { IsElement self a }
        ensures { element_of_sum self result ≡ plus self (element_of_sum self pending) a }
    {
        if pending < ROOM {
            pending + a as u64
        } else {
            pending % self.modulus as u64 + a as u64
        }
    }

    /// The element that an unreduced sum stands for.
    #[inline(always)]
    #[tactic(auto, using(crate::proofs::Table::modulus_bounds, std::proofs::lemmas::Nat::mod_below), unfolding(crate::specs::Field::element_of_sum, crate::specs::Field::IsElement))]
    pub fn settle(self, pending: u64) -> u32
        ensures value { result ≡ element_of_sum self pending }
        ensures element { IsElement self result }
    {
        let rest = match self.modulus {
            2 => pending % 2,
            3 => pending % 3,
            5 => pending % 5,
            7 => pending % 7,
            101 => pending % 101,
            65521 => pending % 65521,
            p => pending % p as u64,
        };
        rest as u32
    }
}

impl Ground for Prime {
    ghost value = { λ f. f };

    #[tactic(auto, unfolding(crate::specs::Field::IsField, crate::specs::Field::size_of))]
    fn size(self) -> u32 {
        self.modulus
    }

    #[tactic(auto, using(crate::proofs::Table::modulus_bounds), unfolding(crate::specs::Field::plus, crate::specs::Field::IsElement))]
    fn add(self, a: u32, b: u32) -> u32 {
        (a + b) % self.modulus
    }

    fn sub(self, a: u32, b: u32) -> u32 {
        self.add(a, self.neg(b))
    }

    #[tactic(auto, using(crate::proofs::Table::modulus_bounds, crate::proofs::Bounds::product_fits, std::proofs::lemmas::Nat::mod_below), unfolding(crate::specs::Field::times, crate::specs::Field::IsElement))]
    fn mul(self, a: u32, b: u32) -> u32 {
        a * b % self.modulus
    }

    #[tactic(auto, using(crate::proofs::Table::modulus_bounds, std::proofs::lemmas::Nat::mod_below), unfolding(crate::specs::Field::negative, crate::specs::Field::IsElement))]
    fn neg(self, a: u32) -> u32 {
        (self.modulus - a) % self.modulus
    }

    #[tactic(auto, using(crate::proofs::Table::modulus_bounds, crate::proofs::Primes::no_proper_divisor, crate::proofs::Bounds::product_fits, crate::proofs::PrimeLaws::next_ratio, crate::proofs::Bounds::last_ratio, std::proofs::lemmas::Nat::mod_below), unfolding(crate::specs::Field::IsElement))]
    fn inv(self, a: u32) -> u32 {
        let p = self.modulus;
        let mut x = a;
        let mut factor = 1;
        while x != 1 {
            factor = factor * (p - p / x) % p;
            x = p % x;
        }
        factor
    }

    #[tactic(auto, using(crate::proofs::Table::modulus_bounds, std::proofs::lemmas::Nat::mod_below), unfolding(crate::specs::Field::residue, crate::specs::Field::IsElement))]
    fn from_i64(self, v: i64) -> u32 {
        let p = u64::from(self.modulus);
        if v >= 0 {
            (v as u64 % p) as u32
        } else {
            let below = (-(v + 1)) as u64;
            (p - 1 - below % p) as u32
        }
    }
}
