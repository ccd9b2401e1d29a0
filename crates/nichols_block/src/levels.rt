//! The degrees of an algebra that are made, from degree 0 on.

ghost use Rattle.std.specs.Prelude.{◌≡◌, ◌<◌, ◌≤◌, ◌+◌, ◌↔◌, IfOk, IsOk, IsTrue, List, OnErr, OnOk, [], length, ℕ, map, max, suc};
ghost use Rattle.nichols_tensor.specs.Positions.{word_at};
ghost use Rattle.nichols_braid.specs.declared.TheConstants.{MOST_DEGREES};
ghost use Rattle.nichols_braid.specs.Braid.{BraidValue};
ghost use Rattle.nichols_braid.specs.Kernel.{is_killed};
ghost use Rattle.nichols_braid.specs.Least.{basis};
ghost use Rattle.nichols_braid.specs.Products.{products};
ghost use Rattle.nichols_value.specs.Rule.{IsRuleOf, rule_of};
ghost use Rattle.nichols_value.specs.Worth.{worth};
ghost use Rattle.nichols_value.specs.declared.value.BlockValue.TheVariants.{Rule};
ghost use Rattle.nichols_block.specs.Levels.{AreKept, IsKept, rules_of};

use crate::lowest::lowest_rule;
use nichols_braid::{Braid, Products};
use nichols_value::{BlockRule, BlockValue, Shared};
use std::alloc::{AllocError, Global};
use std::marker::Model;

/// A degree: its products, and the rule of the block of each.
#[derive(Drop)]
struct Degree {
    products: Products,
    values: Vec<Shared>,
}

/// A braid with the rules of the blocks of degree 0, 1 and so on up to a last one, which is at most `MOST_DEGREES`.
#[derive(Drop)]
pub struct Levels {
    braid: Braid,
    degrees: Vec<Degree>,
    spare: u32,
}

impl Model for Levels {
    ghost use Rattle.std.specs.Prelude.{◌-◌, ◌+◌, ◌≤◌, length, vec_capacity};
    ghost use Rattle.nichols_block.specs.Levels.{AreLevels, LevelsValue};

    ghost Value = { LevelsValue };

    ghost view = { λ l. record { braid = l.braid; last = length l.degrees.items - 1; spare = l.spare } };

    ghost invariant = { λ l. AreLevels l.braid (length l.degrees.items - 1) l.degrees.items × (length l.degrees.items + l.spare ≤ vec_capacity l.degrees) };
}

/// A rule, to be shared.
fn shared_rule(alloc: Global, rule: BlockRule) -> Result<Shared, AllocError>
    ensures { IfOk result (λ s. worth s ≡ Rule rule) }
{
    let shared = Shared::of(alloc, BlockValue::Rule(rule));
    match shared.get() {
        Some(BlockValue::Rule(_)) => Ok(shared),
        _ => Err(AllocError),
    }
}

/// Lets go what serves the degree above, wherever nobody else holds the value.
fn let_go_all(values: &mut [Shared])
    ensures { (braid : BraidValue) (last m : ℕ) (gs : List (List ℕ)) → m < last → AreKept braid last m gs values.old → AreKept braid last m gs values.new }
{
    for value in values {
        value.let_go();
    }
}

impl Levels {
    /// Degree 0 of the algebra of a braid.
    pub fn start(alloc: Global, braid: Braid) -> Result<Levels, AllocError>
        ensures braid { IfOk result (λ l. l.braid ≡ braid) }
        ensures last { IfOk result (λ l. l.last ≡ 0) }
    {
        let products = Products::first(alloc, &braid)?;
        let rule = lowest_rule(alloc, &braid)?;
        let mut values = Vec::new(alloc);
        values.push(shared_rule(alloc, rule)?)?;
        let mut degrees = Vec::new(alloc);
        degrees.push(Degree { products, values })?;
        Ok(Levels {
            braid,
            degrees,
            spare: 0,
        })
    }

    /// Makes room for so many degrees more, so that to push them takes no memory.
    pub fn reserve(&mut self, degrees: u32) -> Result<(), AllocError>
        ensures braid { self.new.braid ≡ self.old.braid }
        ensures last { self.new.last ≡ self.old.last }
        ensures room { OnOk result (self.new.spare ≡ max self.old.spare degrees) }
        ensures kept { OnErr result (self.new ≡ self.old) }
    {
        self.degrees.reserve(degrees as usize)?;
        self.spare = u32::max(self.spare, degrees);
        Ok(())
    }

    /// Puts the next degree, which is at most `MOST_DEGREES`, on top: its products, and the rule of the block of each. On an error the levels
    /// are as before, and what was to be put is gone; where there is room there is no error. The rules of the degree before let go
    /// what served this one.
    pub fn push(&mut self, next: Products, values: Vec<Shared>) -> Result<(), AllocError>
        requires room { self.old.last < MOST_DEGREES }
        requires products { next ≡ products self.old.braid (suc self.old.last) }
        requires rules { map worth values.items ≡ map Rule (rules_of self.old.braid (suc self.old.last)) }
        ensures braid { self.new.braid ≡ self.old.braid }
        ensures pushed { OnOk result (self.new.last ≡ suc self.old.last) }
        ensures kept { OnErr result (self.new ≡ self.old) }
        ensures in_room { 1 ≤ self.old.spare → IsOk result × (self.new.spare + 1 ≡ self.old.spare) }
    {
        let before = self.degrees.len() - 1;
        self.degrees.push(Degree {
            products: next,
            values,
        })?;
        let_go_all(&mut self.degrees[before].values);
        self.spare = self.spare.saturating_sub(1);
        Ok(())
    }

    /// The products of a degree up to the last one.
    pub fn products(&self, m: u32) -> &Products
        requires { m ≤ self.now.last }
        ensures { result.now ≡ products self.now.braid m }
    {
        &self.degrees[m as usize].products
    }

    /// The value of the block of a degree up to the last one and its product at a place: its rule, and in the last degree with
    /// what serves the degree above.
    pub fn value(&self, m: u32, k: usize) -> &Shared
        requires degree { m ≤ self.now.last }
        requires place { k < length (products self.now.braid m) }
        ensures kept { IsKept self.now.braid self.now.last m (word_at (products self.now.braid m) k) (worth result.now) }
        ensures last { m ≡ self.now.last → worth result.now ≡ Rule (rule_of self.now.braid m (word_at (products self.now.braid m) k)) }
    {
        &self.degrees[m as usize].values[k]
    }

    /// The rule of the block of a degree up to the last one and its product at a place; in the last degree it has what serves the
    /// degree above.
    pub fn rule(&self, m: u32, k: usize) -> &BlockRule
        requires degree { m ≤ self.now.last }
        requires place { k < length (products self.now.braid m) }
        ensures rule { IsRuleOf self.now.braid m (word_at (products self.now.braid m) k) result.now }
        ensures last { m ≡ self.now.last → result.now ≡ rule_of self.now.braid m (word_at (products self.now.braid m) k) }
    {
        match self.value(m, k).get() {
            Some(BlockValue::Rule(rule)) => rule,
            _ => unreachable!(),
        }
    }

    /// The last degree.
    pub fn last(&self) -> u32
        ensures value { result ≡ self.now.last }
        ensures limit { result ≤ MOST_DEGREES }
    {
        (self.degrees.len() - 1) as u32
    }

    /// Whether the last degree has no least word.
    pub fn closed(&self) -> bool
        ensures { IsTrue result ↔ (basis is_killed self.now.braid self.now.last ≡ []) }
    {
        let last = self.last();
        for k in 0..self.products(last).len() {
            if !self.rule(last, k).basis().is_empty() {
                return false;
            }
        }
        true
    }

    /// The braid.
    pub fn braid(&self) -> &Braid
        ensures { result.now ≡ self.now.braid }
    {
        &self.braid
    }
}
