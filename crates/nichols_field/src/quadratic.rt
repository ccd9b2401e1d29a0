//! The fields of p squared elements.

ghost use Rattle.std.specs.Prelude.{◌≡◌, ◌<◌, ◌≤◌, ◌+◌, ◌*◌, ◌/◌, ◌%◌, ◌^◌, IsTrue, MatchResult, Some, None};
ghost use Rattle.std.specs.Option.{option_map};
ghost use Rattle.nichols_field.specs.Field.{IsField, IsElement, plus, times, element_of_sum, negative, residue, modulus_of, quadratic_field, root_of, numbers_of, IsExtension};
ghost use Rattle.nichols_field.specs.Pairs.{pair, pair_of, number_of, pair_sum, least_root};
ghost use Rattle.nichols_field.specs.Moduli.{is_modulus};

use crate::{FieldFault, Ground, Prime};
use std::marker::Model;

/// The parts of an unreduced sum have 32 bits each.
const HALF: u64 = 1 << 32;

/// A part of an unreduced sum below this has room for a part of a product.
const HALF_ROOM: u64 = 1 << 31;

/// Up to this p the parts of a product are less than `HALF_ROOM` as they come.
const MOST_UNREDUCED: u32 = 101;

/// Code that is made for each modulus by itself: a division by a number that the compiler knows is no division.
macro_rules! by_modulus {
    ($modulus:expr, $p:ident => $code:expr) => {
        match $modulus {
            2 => {
                let $p = 2;
                $code
            }
            3 => {
                let $p = 3;
                $code
            }
            5 => {
                let $p = 5;
                $code
            }
            7 => {
                let $p = 7;
                $code
            }
            101 => {
                let $p = 101;
                $code
            }
            65521 => {
                let $p = 65521;
                $code
            }
            $p => $code,
        }
    };
}

/// The field of p squared elements u + v t with t² = a t + b, where no r has r² = a r + b modulo p.
///
/// Its elements are the numbers u + p v with u and v from 0 to p - 1.
#[derive(Clone, Copy)]
pub struct Quadratic {
    modulus: u32,
    a: u32,
    b: u32,
}

impl Model for Quadratic {
    ghost use Rattle.std.specs.Prelude.{IsTrue, Some};
    ghost use Rattle.nichols_field.specs.Field.{FieldValue, IsExtension, numbers_of};
    ghost use Rattle.nichols_field.specs.Moduli.{is_modulus};

    ghost Value = { FieldValue };

    ghost view = { λ f. record { modulus = f.modulus; extension = Some (record { a = f.a; b = f.b }) } };

    ghost invariant = { λ f. IsTrue (is_modulus f.modulus) × IsExtension f.modulus (record { a = f.a; b = f.b }) };

    ghost inverse = { λ k. record { modulus = k.modulus; a = (numbers_of k.extension).a; b = (numbers_of k.extension).b } };
}

impl Quadratic {
    /// The field of p squared elements with t² = a t + b, unless some r has r² = a r + b.
    #[tactic(auto, using(crate::proofs::Bounds::residue_below), unfolding(crate::specs::Field::IsField, crate::specs::Field::modulus_of, crate::specs::Field::quadratic_field, crate::specs::Field::root_of))]
    pub fn new(prime: Prime, a: i64, b: i64) -> Result<Quadratic, FieldFault>
        ensures { MatchResult result (λ f. (f ≡ quadratic_field prime a b) × (root_of prime a b ≡ None)) (λ e. option_map FieldFault.Root (root_of prime a b) ≡ Some e) }
    {
        let modulus = prime.modulus();
        let a = prime.from_i64(a);
        let b = prime.from_i64(b);
        Quadratic::without_root(modulus, a, b)
    }

    /// The field by its numbers.
    #[inline(always)]
    pub(crate) fn of(modulus: u32, a: u32, b: u32) -> Quadratic
        requires modulus { IsTrue (is_modulus modulus) }
        requires extension { IsExtension modulus (record { a = a; b = b }) }
        ensures { result ≡ record { modulus = modulus; extension = Some (record { a = a; b = b }) } }
    {
        Quadratic { modulus, a, b }
    }

    /// The field's p, and its a and b.
    #[tactic(auto, unfolding(crate::specs::Field::IsField))]
    pub(crate) fn numbers(self) -> (u32, (u32, u32))
        ensures value { record { modulus = result.0; extension = Some (record { a = result.1.0; b = result.1.1 }) } ≡ self }
        ensures field { IsField self }
    {
        (self.modulus, (self.a, self.b))
    }

    /// The p of the field.
    #[tactic(auto, unfolding(crate::specs::Field::IsField, crate::specs::Field::modulus_of))]
    pub fn modulus(self) -> u32
        ensures value { result ≡ modulus_of self }
        ensures field { IsField self }
    {
        self.modulus
    }

    /// The same for numbers below p.
    #[tactic(auto, using(crate::proofs::Table::modulus_bounds, crate::proofs::Bounds::product_fits))]
    fn without_root(modulus: u32, a: u32, b: u32) -> Result<Quadratic, FieldFault>
        requires modulus { IsTrue (is_modulus modulus) }
        requires a { a < modulus }
        requires b { b < modulus }
        ensures { MatchResult result (λ f. (f ≡ record { modulus = modulus; extension = Some (record { a = a; b = b }) }) × (least_root modulus (record { a = a; b = b }) ≡ None)) (λ e. option_map FieldFault.Root (least_root modulus (record { a = a; b = b })) ≡ Some e) }
    {
        let mut r = 0;
        while r < modulus {
            if r * r % modulus == (a * r + b) % modulus {
                return Err(FieldFault::Root(r));
            }
            r += 1;
        }
        Ok(Quadratic { modulus, a, b })
    }

    /// The parts of a product, unreduced.
    #[inline(always)]
    #[tactic(auto, using(crate::proofs::Table::modulus_bounds, crate::proofs::Bounds::parts_fit, crate::proofs::Bounds::parts_are_small, std::proofs::lemmas::Nat::mod_below), unfolding(crate::specs::Field::IsElement))]
    fn unreduced(self, p: u32, e: u32, f: u32) -> (u64, u64)
        requires modulus { p ≡ self.modulus }
        requires left { IsElement self e }
        requires right { IsElement self f }
        ensures low { result.0 ≡ (e % p) * (f % p) + (numbers_of self.extension).b * (e / p) * (f / p) }
        ensures high { result.1 ≡ (e % p) * (f / p) + (e / p) * (f % p) + (numbers_of self.extension).a * (e / p) * (f / p) }
        ensures small { p ≤ 101 → (result.0 < 2 ^ 31) × (result.1 < 2 ^ 31) }
    {
        let p = u64::from(p);
        let u = u64::from(e) % p;
        let v = u64::from(e) / p;
        let x = u64::from(f) % p;
        let y = u64::from(f) / p;
        let low = u * x + u64::from(self.b) * v * y;
        let high = u * y + v * x + u64::from(self.a) * v * y;
        (low, high)
    }

    /// The number of a pair.
    #[inline(always)]
    #[tactic(auto, using(crate::proofs::Table::modulus_bounds, crate::proofs::Bounds::number_fits), unfolding(crate::specs::Field::IsElement))]
    fn number(self, p: u32, low: u64, high: u64) -> u32
        requires modulus { p ≡ self.modulus }
        requires low { low < p }
        requires high { high < p }
        ensures value { result ≡ number_of p (pair low high) }
        ensures element { IsElement self result }
    {
        let _modulus = &self.modulus;
        (low + u64::from(p) * high) as u32
    }

    /// The sum of two elements, by the field's p.
    #[inline(always)]
    #[tactic(auto, using(crate::proofs::Table::modulus_bounds, std::proofs::lemmas::Nat::mod_below), unfolding(crate::specs::Field::plus, crate::specs::Field::IsElement))]
    fn sum(self, p: u32, a: u32, b: u32) -> u32
        requires modulus { p ≡ self.modulus }
        requires left { IsElement self a }
        requires right { IsElement self b }
        ensures sum { result ≡ plus self a b }
        ensures element { IsElement self result }
    {
        let _modulus = &self.modulus;
        let p_wide = u64::from(p);
        let low = (u64::from(a) % p_wide + u64::from(b) % p_wide) % p_wide;
        let high = (u64::from(a) / p_wide + u64::from(b) / p_wide) % p_wide;
        self.number(p, low, high)
    }

    /// The product of two elements, by the field's p.
    #[inline(always)]
    #[tactic(auto, using(crate::proofs::Table::modulus_bounds, std::proofs::lemmas::Nat::mod_below), unfolding(crate::specs::Field::times))]
    fn product(self, p: u32, a: u32, b: u32) -> u32
        requires modulus { p ≡ self.modulus }
        requires left { IsElement self a }
        requires right { IsElement self b }
        ensures product { result ≡ times self a b }
        ensures element { IsElement self result }
    {
        let _modulus = &self.modulus;
        let (low, high) = self.unreduced(p, a, b);
        self.number(p, low % u64::from(p), high % u64::from(p))
    }

    /// The element whose sum with a is 0, by the field's p.
    #[inline(always)]
    #[tactic(auto, using(crate::proofs::Table::modulus_bounds, crate::proofs::FieldLaws::high_below, std::proofs::lemmas::Nat::mod_below), unfolding(crate::specs::Field::negative, crate::specs::Field::IsElement))]
    fn opposite(self, p: u32, a: u32) -> u32
        requires modulus { p ≡ self.modulus }
        requires operand { IsElement self a }
        ensures negative { result ≡ negative self a }
        ensures element { IsElement self result }
    {
        let _modulus = &self.modulus;
        let p_wide = u64::from(p);
        let low = (p_wide - u64::from(a) % p_wide) % p_wide;
        let high = (p_wide - u64::from(a) / p_wide) % p_wide;
        self.number(p, low, high)
    }

    /// An unreduced sum with a product added, to be settled once at the end.
    #[inline(always)]
    pub fn add_product_to(self, pending: u64, a: u32, b: u32) -> u64
        requires left { IsElement self a }
        requires right { IsElement self b }
        ensures { element_of_sum self result ≡ plus self (element_of_sum self pending) (times self a b) }
    {
        by_modulus!(self.modulus, p => self.with_product(p, pending, a, b))
    }

    /// An unreduced sum with a product added, by the field's p. The product's parts are reduced only where they
    /// might not fit beside an unreduced part.
    #[inline(always)]
    #[tactic(auto, using(crate::proofs::Table::modulus_bounds, std::proofs::lemmas::Nat::mod_below))]
    fn with_product(self, p: u32, pending: u64, a: u32, b: u32) -> u64
        requires modulus { p ≡ self.modulus }
        requires left { IsElement self a }
        requires right { IsElement self b }
        ensures { element_of_sum self result ≡ plus self (element_of_sum self pending) (times self a b) }
    {
        let _modulus = &self.modulus;
        let (low, high) = self.unreduced(p, a, b);
        if p <= MOST_UNREDUCED {
            self.with_parts(p, pending, low, high)
        } else {
            self.with_parts(p, pending, low % u64::from(p), high % u64::from(p))
        }
    }

    /// An unreduced sum with an element added.
    #[inline(always)]
    pub fn add_to(self, pending: u64, a: u32) -> u64
        requires { IsElement self a }
        ensures { element_of_sum self result ≡ plus self (element_of_sum self pending) a }
    {
        by_modulus!(self.modulus, p => self.with_element(p, pending, a))
    }

    /// An unreduced sum with an element added, by the field's p.
    #[inline(always)]
    #[tactic(auto, using(crate::proofs::Table::modulus_bounds, crate::proofs::FieldLaws::high_below, std::proofs::lemmas::Nat::mod_below), unfolding(crate::specs::Field::IsElement, crate::specs::Field::plus))]
    fn with_element(self, p: u32, pending: u64, a: u32) -> u64
        requires modulus { p ≡ self.modulus }
        requires element { IsElement self a }
        ensures { element_of_sum self result ≡ plus self (element_of_sum self pending) a }
    {
        let _modulus = &self.modulus;
        self.with_parts(
            p,
            pending,
            u64::from(a) % u64::from(p),
            u64::from(a) / u64::from(p),
        )
    }

    /// An unreduced sum with two parts added, by the field's p.
    #[inline(always)]
    #[tactic(auto, using(crate::proofs::Table::modulus_bounds, std::proofs::lemmas::Nat::mod_below))]
    fn with_parts(self, p: u32, pending: u64, x: u64, y: u64) -> u64
        requires modulus { p ≡ self.modulus }
        requires low { x < 2 ^ 31 }
        requires high { y < 2 ^ 31 }
        ensures { element_of_sum self result ≡ number_of p (pair_sum p (pair_of p (element_of_sum self pending)) (pair x y)) }
    {
        let _modulus = &self.modulus;
        let p = u64::from(p);
        let low = pending % HALF;
        let high = pending / HALF;
        if low < HALF_ROOM && high < HALF_ROOM {
            low + x + HALF * (high + y)
        } else {
            low % p + x + HALF * (high % p + y)
        }
    }

    /// The element that an unreduced sum stands for.
    #[inline(always)]
    pub fn settle(self, pending: u64) -> u32
        ensures value { result ≡ element_of_sum self pending }
        ensures element { IsElement self result }
    {
        by_modulus!(self.modulus, p => self.settled(p, pending))
    }

    /// The element that an unreduced sum stands for, by the field's p.
    #[inline(always)]
    #[tactic(auto, using(crate::proofs::Table::modulus_bounds, std::proofs::lemmas::Nat::mod_below), unfolding(crate::specs::Field::element_of_sum))]
    fn settled(self, p: u32, pending: u64) -> u32
        requires { p ≡ self.modulus }
        ensures value { result ≡ element_of_sum self pending }
        ensures element { IsElement self result }
    {
        let _modulus = &self.modulus;
        let p_wide = u64::from(p);
        self.number(p, pending % HALF % p_wide, pending / HALF % p_wide)
    }
}

impl Ground for Quadratic {
    ghost value = { λ f. f };

    #[tactic(auto, using(crate::proofs::Table::modulus_bounds, crate::proofs::Bounds::product_fits), unfolding(crate::specs::Field::IsField, crate::specs::Field::size_of))]
    fn size(self) -> u32 {
        self.modulus * self.modulus
    }

    fn add(self, a: u32, b: u32) -> u32 {
        by_modulus!(self.modulus, p => self.sum(p, a, b))
    }

    fn sub(self, a: u32, b: u32) -> u32 {
        self.add(a, self.neg(b))
    }

    fn mul(self, a: u32, b: u32) -> u32 {
        by_modulus!(self.modulus, p => self.product(p, a, b))
    }

    fn neg(self, a: u32) -> u32 {
        by_modulus!(self.modulus, p => self.opposite(p, a))
    }

    #[tactic(auto, using(crate::proofs::Table::modulus_bounds, crate::proofs::Bounds::norm_fits, std::proofs::lemmas::Nat::mod_below), unfolding(crate::specs::Field::IsElement))]
    fn inv(self, e: u32) -> u32 {
        let modulus = self.modulus;
        let p = u64::from(modulus);
        let u = u64::from(e) % p;
        let v = u64::from(e) / p;
        let conjugate = u + u64::from(self.a) * v;
        let norm = (u * conjugate + u64::from(self.b) * v * (p - v)) % p;
        let factor = u64::from(Prime::of(modulus).inv(norm as u32));
        self.number(modulus, conjugate * factor % p, (p - v) * factor % p)
    }

    #[tactic(auto, using(crate::proofs::FieldLaws::residue_is_element), unfolding(crate::specs::Field::residue, crate::specs::Field::IsField))]
    fn from_i64(self, v: i64) -> u32 {
        Prime::of(self.modulus).from_i64(v)
    }
}
