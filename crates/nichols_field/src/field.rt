//! Any of the fields.

ghost use Rattle.std.specs.Prelude.{◌≡◌, ◌≢◌, ◌<◌, IsTrue, MatchResult, Option, Some, None, false};
ghost use Rattle.nichols_field.specs.declared.FieldFault.{FieldFault};
ghost use Rattle.nichols_field.specs.Field.{IsField, IsElement, plus, times, element_of_sum, negative, residue, modulus_of, is_modulus_integer, is_extended, numbers_in, prime_field, parts_of, AreParts, element_of, joined};
ghost use Rattle.nichols_field.specs.Extended.{extended_field};
ghost use Rattle.nichols_field.specs.Pairs.{pair};
ghost use Rattle.nichols_field.specs.Kinds.{value_of};

use crate::{FieldFault, Ground, Kind, Prime, Quadratic};
use std::marker::Model;

/// A field of p elements, or one of p squared elements.
#[derive(Clone, Copy)]
pub struct Field {
    modulus: u32,
    extension: Option<(u32, u32)>,
}

impl Model for Field {
    ghost use Rattle.nichols_field.specs.Field.{FieldValue, IsField};
    ghost use Rattle.nichols_field.specs.Numbers.{extension_of};

    ghost Value = { FieldValue };

    ghost view = { λ f. record { modulus = f.modulus; extension = extension_of f.extension } };

    ghost invariant = { λ f. IsField (record { modulus = f.modulus; extension = extension_of f.extension }) };

    ghost use Rattle.nichols_field.specs.NumbersBack.{fields_of, fields_back};

    ghost inverse = { fields_of };

    ghost inverse_ok = { fields_back };
}

impl Field {
    /// The field of p elements.
    pub fn new(p: i64) -> Result<Field, FieldFault>
        ensures { MatchResult result (λ f. (f ≡ prime_field p) × IsTrue (is_modulus_integer p)) (λ e. (e ≡ FieldFault.OutsideList p) × (is_modulus_integer p ≡ false)) }
    {
        Ok(Field::from_prime(Prime::new(p)?))
    }

    /// The field that a prime one is.
    fn from_prime(prime: Prime) -> Field
        ensures { result ≡ prime }
    {
        Field {
            modulus: prime.number(),
            extension: None,
        }
    }

    /// The field of p squared elements u + v t with t² = a t + b; of a and b the residues are taken.
    ///
    /// The modulus is told before the root, and the root is the least one.
    pub fn extended(p: i64, a: i64, b: i64) -> Result<Field, FieldFault>
        ensures { result ≡ extended_field p a b }
    {
        let prime = Prime::new(p)?;
        let (modulus, extension) = Quadratic::new(prime, a, b)?.numbers();
        Ok(Field {
            modulus,
            extension: Some(extension),
        })
    }

    /// Which kind of field it is, for a loop that is to be made for each kind by itself.
    #[inline(always)]
    #[tactic(auto, unfolding(crate::specs::Field::IsField))]
    pub fn kind(self) -> Kind
        ensures { value_of result ≡ self }
    {
        match self.extension {
            None => Kind::Prime(Prime::of(self.modulus)),
            Some((a, b)) => Kind::Quadratic(Quadratic::of(self.modulus, a, b)),
        }
    }

    /// The p of the field.
    ///
    /// A caller learns here, too, that it has a field, which the laws ask for.
    #[tactic(auto, unfolding(crate::specs::Field::modulus_of))]
    pub fn modulus(self) -> u32
        ensures value { result ≡ modulus_of self }
        ensures field { IsField self }
    {
        self.modulus
    }

    /// The numbers a and b of the extension, each below p.
    #[tactic(auto, using(crate::specs::Numbers::pair_back), unfolding(crate::specs::Field::numbers_in))]
    pub fn extension(self) -> Option<(u32, u32)>
        ensures { result ≡ numbers_in self }
    {
        self.extension
    }

    /// Whether there is an extension.
    #[tactic(auto, unfolding(crate::specs::Field::is_extended))]
    pub fn is_extended(self) -> bool
        ensures { result ≡ is_extended self }
    {
        self.extension.is_some()
    }

    /// The numbers u and v of an element u + v t; v is 0 without an extension.
    #[tactic(auto, using(crate::proofs::Table::modulus_bounds), unfolding(crate::specs::Field::IsField, crate::specs::Field::parts_of))]
    pub fn pair(self, e: u32) -> (u32, u32)
        ensures parts { pair result.0 result.1 ≡ parts_of self e }
        ensures below { IsElement self e → AreParts self (pair result.0 result.1) }
    {
        match self.extension {
            None => (e, 0),
            Some(_) => (e % self.modulus, e / self.modulus),
        }
    }

    /// The element u + v t; without an extension v is 0.
    #[tactic(auto, using(crate::proofs::Bounds::number_fits, crate::proofs::Parts::element_of_is_element), unfolding(crate::specs::Field::element_of, crate::specs::Field::IsField, crate::specs::Field::modulus_of))]
    pub fn join(self, u: u32, v: u32) -> u32
        requires { AreParts self (pair u v) }
        ensures value { result ≡ element_of self (pair u v) }
        ensures element { IsElement self result }
    {
        u + self.modulus * v
    }

    /// The element u + v t of the residues of two integers.
    #[tactic(auto, using(crate::proofs::Parts::residues_are_parts), unfolding(crate::specs::Field::joined))]
    pub fn joined(self, u: i64, v: i64) -> u32
        requires { IsTrue (is_extended self) }
        ensures value { result ≡ joined self u v }
        ensures element { IsElement self result }
    {
        let _modulus = self.modulus();
        let low = self.from_i64(u);
        let high = self.from_i64(v);
        self.join(low, high)
    }

    /// An unreduced sum with a product added, to be settled once at the end.
    #[inline(always)]
    pub fn add_product_to(self, pending: u64, a: u32, b: u32) -> u64
        requires left { IsElement self a }
        requires right { IsElement self b }
        ensures { element_of_sum self result ≡ plus self (element_of_sum self pending) (times self a b) }
    {
        match self.kind() {
            Kind::Prime(field) => field.add_product_to(pending, a, b),
            Kind::Quadratic(field) => field.add_product_to(pending, a, b),
        }
    }

    /// The sum of two elements.
    #[inline(always)]
    pub fn add(self, a: u32, b: u32) -> u32
        requires left { IsElement self a }
        requires right { IsElement self b }
        ensures sum { result ≡ plus self a b }
        ensures element { IsElement self result }
    {
        match self.kind() {
            Kind::Prime(field) => field.add(a, b),
            Kind::Quadratic(field) => field.add(a, b),
        }
    }

    /// The difference of two elements.
    #[inline(always)]
    pub fn sub(self, a: u32, b: u32) -> u32
        requires left { IsElement self a }
        requires right { IsElement self b }
        ensures difference { result ≡ plus self a (negative self b) }
        ensures element { IsElement self result }
    {
        match self.kind() {
            Kind::Prime(field) => field.sub(a, b),
            Kind::Quadratic(field) => field.sub(a, b),
        }
    }

    /// The product of two elements.
    #[inline(always)]
    pub fn mul(self, a: u32, b: u32) -> u32
        requires left { IsElement self a }
        requires right { IsElement self b }
        ensures product { result ≡ times self a b }
        ensures element { IsElement self result }
    {
        match self.kind() {
            Kind::Prime(field) => field.mul(a, b),
            Kind::Quadratic(field) => field.mul(a, b),
        }
    }

    /// The element whose sum with a is 0.
    #[inline(always)]
    pub fn neg(self, a: u32) -> u32
        requires { IsElement self a }
        ensures negative { result ≡ negative self a }
        ensures element { IsElement self result }
    {
        match self.kind() {
            Kind::Prime(field) => field.neg(a),
            Kind::Quadratic(field) => field.neg(a),
        }
    }

    /// The element whose product with a is 1.
    #[inline(always)]
    pub fn inv(self, a: u32) -> u32
        requires operand { IsElement self a }
        requires nonzero { a ≢ 0 }
        ensures inverse { times self a result ≡ 1 }
        ensures element { IsElement self result }
    {
        match self.kind() {
            Kind::Prime(field) => field.inv(a),
            Kind::Quadratic(field) => field.inv(a),
        }
    }

    /// The element that an integer stands for: its residue from 0 to p - 1.
    #[inline(always)]
    pub fn from_i64(self, v: i64) -> u32
        ensures residue { result ≡ residue self v }
        ensures element { IsElement self result }
    {
        match self.kind() {
            Kind::Prime(field) => field.from_i64(v),
            Kind::Quadratic(field) => field.from_i64(v),
        }
    }

    /// The element that an unreduced sum stands for.
    #[inline(always)]
    pub fn settle(self, pending: u64) -> u32
        ensures value { result ≡ element_of_sum self pending }
        ensures element { IsElement self result }
    {
        match self.kind() {
            Kind::Prime(field) => field.settle(pending),
            Kind::Quadratic(field) => field.settle(pending),
        }
    }

    /// An unreduced sum with an element added.
    #[inline(always)]
    pub fn add_to(self, pending: u64, a: u32) -> u64
        requires { IsElement self a }
        ensures { element_of_sum self result ≡ plus self (element_of_sum self pending) a }
    {
        match self.kind() {
            Kind::Prime(field) => field.add_to(pending, a),
            Kind::Quadratic(field) => field.add_to(pending, a),
        }
    }

    /// The sum of an element and a product.
    #[inline(always)]
    pub fn add_product(self, sum: u32, a: u32, b: u32) -> u32
        requires sum { IsElement self sum }
        requires left { IsElement self a }
        requires right { IsElement self b }
        ensures value { result ≡ plus self sum (times self a b) }
        ensures element { IsElement self result }
    {
        self.add(sum, self.mul(a, b))
    }
}

impl Ground for Field {
    ghost value = { λ f. f };

    fn size(self) -> u32 {
        match self.kind() {
            Kind::Prime(field) => field.size(),
            Kind::Quadratic(field) => field.size(),
        }
    }

    fn add(self, a: u32, b: u32) -> u32 {
        Field::add(self, a, b)
    }

    fn sub(self, a: u32, b: u32) -> u32 {
        Field::sub(self, a, b)
    }

    fn mul(self, a: u32, b: u32) -> u32 {
        Field::mul(self, a, b)
    }

    fn neg(self, a: u32) -> u32 {
        Field::neg(self, a)
    }

    fn inv(self, a: u32) -> u32 {
        Field::inv(self, a)
    }

    fn from_i64(self, v: i64) -> u32 {
        Field::from_i64(self, v)
    }
}
