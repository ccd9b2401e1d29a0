//! Braids.

mod points;
mod ranks;

ghost use Rattle.std.specs.Prelude.{◌≡◌, ◌≢◌, ◌∷◌, [], IfOk, IfSome, MatchResult, Ok, Err, map};
ghost use Rattle.nichols_braid.specs.Braid.{IsBraid, IsLetter, act, scalar};
ghost use Rattle.nichols_braid.specs.FaultAnswers.{table_fault_in};
ghost use Rattle.nichols_braid.specs.Faults.{braid_of};
ghost use Rattle.nichols_braid.specs.GivenScalars.{AreEntriesOf, given_scalars};
ghost use Rattle.nichols_braid.specs.Product.{product_of, unact};
ghost use Rattle.nichols_braid.specs.Products.{leading};
ghost use Rattle.nichols_field.specs.Field.{IsElement};

use crate::cocycle_law::{cocycle_fault, zero_fault};
use crate::faults::BraidFault;
use crate::rack_laws::RackLaw;
use crate::tables::{RackTable, Scalars, cocycle_table};
use nichols_field::Field;
use std::alloc::{AllocError, Global};
use std::marker::Model;

/// A braiding of rack type: a rack of 1 to `LETTER_LIMIT` letters with a 2-cocycle.
///
/// The letters are the numbers from 1 to n. The source is Andruskiewitsch and Graña,
/// "From racks to pointed Hopf algebras".
#[derive(Drop)]
pub struct Braid {
    field: Field,
    letters: u8,
    rack: Vec<u8>,
    cocycle: Vec<u32>,
}

impl Model for Braid {
    ghost use Rattle.nichols_braid.specs.Braid.{BraidValue, IsBraid};

    ghost Value = { BraidValue };

    ghost view = { λ b. record { field = b.field; letters = b.letters; rack = b.rack.items; cocycle = b.cocycle.items } };

    ghost invariant = { λ b. IsBraid (record { field = b.field; letters = b.letters; rack = b.rack.items; cocycle = b.cocycle.items }) };
}

impl Braid {
    /// The braid with these rows and scalars, or their first fault.
    ///
    /// Row i of `rack` has the letter `i ▷ j` at place j, from 1; the scalars are the elements that the
    /// entries stand for, a constant at every place. A pair is taken only over a field with an extension.
    pub fn new(
        alloc: Global,
        field: Field,
        rack: &[Vec<i64>],
        scalars: &Scalars,
    ) -> Result<Braid, BraidFault>
        requires { AreEntriesOf field (given_scalars scalars.now) }
        ensures { MatchResult result
            (λ b. braid_of field (map (λ row. row.items) rack.now) (given_scalars scalars.now) ≡ Ok b)
            (λ e. IfSome (table_fault_in e) (λ fault. braid_of field (map (λ row. row.items) rack.now) (given_scalars scalars.now) ≡ Err fault)) }
    {
        let _modulus = field.modulus();
        let table = RackTable::read(alloc, rack)?;
        if let Some(fault) = table.fault(RackLaw::Bijective) {
            return Err(fault);
        }
        if let Some(fault) = table.fault(RackLaw::Distributive) {
            return Err(fault);
        }
        let cocycle = cocycle_table(alloc, field, table.letters, scalars)?;
        if let Some(fault) = zero_fault(field, &table, cocycle.as_slice()) {
            return Err(fault);
        }
        if let Some(fault) = cocycle_fault(field, &table, cocycle.as_slice()) {
            return Err(fault);
        }
        let RackTable { letters, entries } = table;
        Ok(Braid {
            field,
            letters,
            rack: entries,
            cocycle,
        })
    }

    /// The field; a caller learns here, too, that it has a braid.
    pub fn field(&self) -> Field
        ensures field { result ≡ self.now.field }
        ensures braid { IsBraid self.now }
    {
        self.field
    }

    /// The number of letters, from 1 to `LETTER_LIMIT`.
    pub fn letters(&self) -> u8
        ensures { result ≡ self.now.letters }
    {
        self.letters
    }

    /// The letter `i ▷ j`.
    #[tactic(auto, unfolding(crate::specs::Braid::entry))]
    pub fn act(&self, i: u8, j: u8) -> u8
        requires left { IsLetter self.now i }
        requires right { IsLetter self.now j }
        ensures value { result ≡ act self.now i j }
        ensures letter { IsLetter self.now result }
    {
        let n = usize::from(self.letters);
        self.rack[(usize::from(i) - 1) * n + (usize::from(j) - 1)]
    }

    /// The letter that the map of i sends to j.
    pub fn unact(&self, i: u8, j: u8) -> u8
        requires left { IsLetter self.now i }
        requires right { IsLetter self.now j }
        ensures value { result ≡ unact self.now i j }
        ensures letter { IsLetter self.now result }
        ensures sent { act self.now i result ≡ j }
    {
        for c in 1..self.letters {
            if self.act(i, c) == j {
                return c;
            }
        }
        self.letters
    }

    /// The first letter with the same map as a.
    pub fn leading(&self, a: u8) -> u8
        requires { IsLetter self.now a }
        ensures value { result ≡ leading self.now a }
        ensures letter { IsLetter self.now result }
        ensures alike { product_of self.now (result ∷ []) ≡ product_of self.now (a ∷ []) }
    {
        for b in 1..a {
            if self.row(b) == self.row(a) {
                return b;
            }
        }
        a
    }

    /// The images of the letters under the map of i, from letter 1 on.
    pub(crate) fn row(&self, i: u8) -> &[u8]
        requires { IsLetter self.now i }
        ensures images { result.now ≡ product_of self.now (i ∷ []) }
        ensures braid { IsBraid self.now }
    {
        let n = usize::from(self.letters);
        let start = (usize::from(i) - 1) * n;
        &self.rack[start..start + n]
    }

    /// The scalar `q(i, j)`.
    #[tactic(auto, unfolding(crate::specs::Braid::entry))]
    pub fn scalar(&self, i: u8, j: u8) -> u32
        requires left { IsLetter self.now i }
        requires right { IsLetter self.now j }
        ensures value { result ≡ scalar self.now i j }
        ensures element { IsElement self.now.field result }
        ensures nonzero { result ≢ 0 }
    {
        let n = usize::from(self.letters);
        self.cocycle[(usize::from(i) - 1) * n + (usize::from(j) - 1)]
    }

    /// The braiding of two letters: `i ▷ j`, i and `q(i, j)`.
    pub fn braid_at(&self, i: u8, j: u8) -> (u8, u8, u32)
        requires left { IsLetter self.now i }
        requires right { IsLetter self.now j }
        ensures { result ≡ record { 0 = act self.now i j; 1 = i; 2 = scalar self.now i j } }
    {
        (self.act(i, j), i, self.scalar(i, j))
    }

    /// An equal braid.
    pub fn copy(&self, alloc: Global) -> Result<Braid, AllocError>
        ensures { IfOk result (λ b. b ≡ self.now) }
    {
        Ok(Braid {
            field: self.field,
            letters: self.letters,
            rack: self.rack.as_slice().to_vec(alloc)?,
            cocycle: self.cocycle.as_slice().to_vec(alloc)?,
        })
    }
}
