//! What a pass owes, as it is kept.

ghost use Rattle.std.specs.Prelude.{◌≡◌, ◌^◌, ◌<◌, ◌≤◌, ◌||◌, ℕ, true, false, length, replicate, slice_set, slice_index_or, vec_len, IfOk, MatchOption};
ghost use Rattle.nichols_shelf.specs.Owed.{AreStretches};

use std::alloc::{AllocError, Global};
use std::marker::Model;

/// How many blocks a stretch has.
const STRETCH: usize = 64;

/// A mark for each block, the least block that is marked, and for each stretch of blocks whether one of them may be marked.
///
/// The search for the next block begins at the least one and passes over stretches without a mark; one that it searched in vain it
/// passes over from then on, until a block there is marked again.
#[derive(Drop)]
pub(crate) struct Owed {
    marks: Vec<bool>,
    stretches: Vec<bool>,
    least: usize,
}

impl Model for Owed {
    ghost use Rattle.std.specs.Prelude.{List, Bool};
    ghost use Rattle.nichols_shelf.specs.Owed.{IsOwed};

    ghost Value = { List Bool };

    ghost view = { λ o. o.marks.items };

    ghost invariant = { λ o. IsOwed o.marks.items o.stretches.items o.least };
}

impl Owed {
    /// All blocks, or none of them.
    pub fn of(alloc: Global, blocks: usize, all: bool) -> Result<Owed, AllocError>
        requires { blocks < 2 ^ 32 }
        ensures { IfOk result (λ o. o ≡ replicate blocks all) }
    {
        let marks = Vec::from_elem(alloc, all, blocks)?;
        let stretches = Vec::from_elem(alloc, all, blocks / STRETCH + 1)?;
        let least = if all { 0 } else { blocks };
        Ok(Owed {
            marks,
            stretches,
            least,
        })
    }

    /// The least block that is marked.
    pub fn least(&self) -> Option<u32>
        ensures { MatchOption result
            ((b : ℕ) → b < length self.now → slice_index_or self.now b false ≡ false)
            (λ least. (least < length self.now) × (slice_index_or self.now least false ≡ true) × ((b : ℕ) → b < least → slice_index_or self.now b false ≡ false)) }
    {
        if self.least < self.marks.len() {
            Some(self.least as u32)
        } else {
            None
        }
    }

    /// Takes the block's mark away.
    pub fn remove(&mut self, block: u32)
        requires { block < length self.old }
        ensures { self.new ≡ slice_set self.old block false }
    {
        self.marks[block as usize] = false;
        self.least = next(&self.marks, &mut self.stretches, self.least);
    }

    /// Marks the block.
    pub fn add(&mut self, block: u32)
        requires { block < length self.old }
        ensures { self.new ≡ slice_set self.old block true }
    {
        let block = block as usize;
        self.marks[block] = true;
        self.stretches[block / STRETCH] = true;
        if block < self.least {
            self.least = block;
        }
    }

    /// Marks what the other marks.
    pub fn add_all(&mut self, other: &Owed)
        requires { length self.old ≡ length other.now }
        ensures length { length self.new ≡ length self.old }
        ensures marks { (b : ℕ) → slice_index_or self.new b false ≡ (slice_index_or self.old b false || slice_index_or other.now b false) }
    {
        mark_all(&mut self.marks, &other.marks);
        mark_all(&mut self.stretches, &other.stretches);
        if other.least < self.least {
            self.least = other.least;
        }
    }
}

/// The first number from that one on that is marked, or how many there are, where none below it is. A stretch that was searched in
/// vain is passed over from then on.
fn next(marks: &[bool], stretches: &mut Vec<bool>, from: usize) -> usize
    requires from { from ≤ length marks.now }
    requires below { (b : ℕ) → b < from → slice_index_or marks.now b false ≡ false }
    requires stretches { AreStretches marks.now stretches.old.items }
    ensures from { from ≤ result }
    ensures within { result ≤ length marks.now }
    ensures between { (b : ℕ) → from ≤ b → b < result → slice_index_or marks.now b false ≡ false }
    ensures found { result < length marks.now → slice_index_or marks.now result false ≡ true }
    ensures stretches { AreStretches marks.now stretches.new.items }
{
    for stretch in from / STRETCH..stretches.len() {
        if stretches[stretch] {
            let start = from.max(stretch * STRETCH);
            let end = marks.len().min((stretch + 1) * STRETCH);
            let found = first(marks, start, end);
            if found < end {
                return found;
            }
            stretches[stretch] = false;
        }
    }
    marks.len()
}

/// The first number between the two that is marked, or the second one.
fn first(marks: &[bool], start: usize, end: usize) -> usize
    requires start { start ≤ end }
    requires end { end ≤ length marks.now }
    ensures start { start ≤ result }
    ensures end { result ≤ end }
    ensures between { (b : ℕ) → start ≤ b → b < result → slice_index_or marks.now b false ≡ false }
    ensures found { result < end → slice_index_or marks.now result false ≡ true }
{
    for i in start..end {
        if marks[i] {
            return i;
        }
    }
    end
}

/// Marks what the others mark.
fn mark_all(marks: &mut Vec<bool>, others: &[bool])
    requires { vec_len marks.old ≡ length others.now }
    ensures length { vec_len marks.new ≡ vec_len marks.old }
    ensures marks { (b : ℕ) → slice_index_or marks.new.items b false ≡ (slice_index_or marks.old.items b false || slice_index_or others.now b false) }
{
    for i in 0..others.len() {
        marks[i] = marks[i] || others[i];
    }
}
