//! The calls of a player: each is made only where its condition holds.

ghost use Rattle.std.specs.Prelude.{◌≡◌, ◌==◌, ◌&&◌, ◌||◌, ◌-◌, ℕ, ◌<◌, ◌≤◌, true, false, length, IsTrue, IfOk};
ghost use Rattle.std.specs.Int.{bit_at};
ghost use Rattle.nichols_tensor.specs.declared.TheConstants.{LETTER_LIMIT};
ghost use Rattle.nichols_core.specs.Layout.{edge_at};
ghost use Rattle.nichols_core.specs.States.{mark_at};
ghost use Rattle.nichols_shelf.specs.Places.{blocks, edges};
ghost use Rattle.nichols_shelf.specs.Passes.{IsOf, plan_of, view_of};
ghost use Rattle.nichols_shelf.specs.Lists.{is_in};
ghost use Rattle.nichols_shelf.specs.Played.{KeepsNumbers, IsFresh};
ghost use Rattle.nichols_shelf.specs.Settled.{HoldsNothing, ResumesNothing};
ghost use Rattle.nichols_shelf.specs.Views.{askers};

use crate::tests::player::Player;
use crate::{Asked, Pass, Shelf};
use nichols_core::{Edge, Layout};
use nichols_value::Shared;
use std::alloc::{AllocError, Global};

impl Player {
    pub fn of(alloc: Global, shelf: &Shelf, pass: Pass) -> Result<Player, AllocError>
        requires shelf { IsOf shelf.now pass }
        requires fresh { IsFresh (view_of pass) }
        ensures { IfOk result (λ p. IsOf shelf.now p.pass × (view_of p.pass ≡ view_of pass)) }
    {
        let blocks = shelf.block_count();
        let edges = shelf.layout().edges.len();
        Ok(Player {
            held: Vec::from_elem(alloc, false, blocks)?,
            resumed: Vec::from_elem(alloc, false, blocks)?,
            known: Vec::from_elem(alloc, false, blocks)?,
            picked: Vec::from_elem(alloc, false, edges)?,
            laid: Vec::from_elem(alloc, false, edges)?,
            pass,
        })
    }

    /// Whether the pass holds nothing.
    pub fn holds_nothing(&self) -> bool
        ensures { IsTrue result → HoldsNothing (view_of self.now.pass) }
    {
        is_unmarked(&self.held)
    }

    /// Whether the pass resumes nothing.
    pub fn resumes_nothing(&self) -> bool
        ensures { IsTrue result → ResumesNothing (view_of self.now.pass) }
    {
        is_unmarked(&self.resumed)
    }

    pub fn take(&mut self, shelf: &Shelf, block: u32) -> bool
        requires shelf { IsOf shelf.now self.old.pass }
        requires block { block < blocks (plan_of shelf.now) }
        ensures shelf { IsOf shelf.now self.new.pass }
        ensures numbers { KeepsNumbers (view_of self.old.pass) (view_of self.new.pass) }
    {
        let b = block as usize;
        let taken = shelf.take(&mut self.pass, block);
        self.held[b] = taken || self.held[b];
        taken
    }

    pub fn release(&mut self, shelf: &Shelf, block: u32) -> bool
        requires shelf { IsOf shelf.now self.old.pass }
        requires block { block < blocks (plan_of shelf.now) }
        ensures shelf { IsOf shelf.now self.new.pass }
        ensures numbers { KeepsNumbers (view_of self.old.pass) (view_of self.new.pass) }
    {
        let b = block as usize;
        if !self.resumed[b] {
            return false;
        }
        shelf.release(&mut self.pass, block);
        self.resumed[b] = false;
        true
    }

    pub fn ask(&mut self, shelf: &Shelf, block: u32, letter: u8) -> Option<Asked>
        requires shelf { IsOf shelf.now self.old.pass }
        requires block { block < blocks (plan_of shelf.now) }
        ensures shelf { IsOf shelf.now self.new.pass }
        ensures numbers { KeepsNumbers (view_of self.old.pass) (view_of self.new.pass) }
    {
        let layout = shelf.layout();
        layout.meets_its_rules();
        let number = layout.edge_into(block, letter)?;
        if !self.held[block as usize] || !entries_are(layout, &self.picked, block, false) {
            return None;
        }
        let lower = layout.edge(number).lower;
        let asked = shelf.ask(&mut self.pass, block, letter);
        let published = asked.is_published();
        self.held[block as usize] = published;
        let knew = self.known[lower as usize];
        self.known[lower as usize] = either(published, knew);
        Some(asked)
    }

    /// Picks once all lower blocks of the task are known to be published: a task with a picked edge can't ask any more.
    pub fn pick(&mut self, shelf: &Shelf, block: u32, letter: u8) -> Option<Shared>
        requires shelf { IsOf shelf.now self.old.pass }
        requires block { block < blocks (plan_of shelf.now) }
        ensures shelf { IsOf shelf.now self.new.pass }
        ensures numbers { KeepsNumbers (view_of self.old.pass) (view_of self.new.pass) }
    {
        let layout = shelf.layout();
        layout.meets_its_rules();
        let number = layout.edge_into(block, letter)?;
        let lower = layout.edge(number).lower;
        if !self.held[block as usize] || !self.known[lower as usize] || self.picked[number] {
            return None;
        }
        if !all_known(layout, &self.known, block) {
            return None;
        }
        let value = shelf.pick(&mut self.pass, block, letter);
        self.picked[number] = true;
        Some(value)
    }

    pub fn lay(&mut self, shelf: &Shelf, block: u32, letter: u8) -> bool
        requires shelf { IsOf shelf.now self.old.pass }
        requires block { block < blocks (plan_of shelf.now) }
        ensures shelf { IsOf shelf.now self.new.pass }
        ensures numbers { KeepsNumbers (view_of self.old.pass) (view_of self.new.pass) }
    {
        let layout = shelf.layout();
        layout.meets_its_rules();
        let Some(number) = layout.edge_out(block, letter) else {
            return false;
        };
        if !self.held[block as usize]
            || self.laid[number]
            || !entries_are(layout, &self.picked, block, true)
        {
            return false;
        }
        shelf.lay(&mut self.pass, block, letter, Shared::Starved);
        self.laid[number] = true;
        true
    }

    pub fn publish(&mut self, shelf: &Shelf, block: u32) -> Option<u32>
        requires shelf { IsOf shelf.now self.old.pass }
        requires block { block < blocks (plan_of shelf.now) }
        ensures shelf { IsOf shelf.now self.new.pass }
        ensures numbers { KeepsNumbers (view_of self.old.pass) (view_of self.new.pass) }
    {
        let layout = shelf.layout();
        layout.meets_its_rules();
        if !self.held[block as usize]
            || !entries_are(layout, &self.picked, block, true)
            || !all_laid(layout, &self.laid, block)
        {
            return None;
        }
        let bits = shelf.publish(&mut self.pass, block);
        self.held[block as usize] = false;
        mark_askers(layout, &mut self.resumed, block, bits);
        Some(bits)
    }
}

/// Whether no mark stands.
fn is_unmarked(marks: &[bool]) -> bool
    ensures { IsTrue result → (k : ℕ) → mark_at marks.now k ≡ false }
{
    for i in 0..marks.len() {
        if marks[i] {
            return false;
        }
    }
    true
}

/// Whether all edges into the block are marked, or none is.
fn entries_are(layout: &Layout, picked: &[bool], block: u32, marked: bool) -> bool
    requires { length picked.now ≡ length layout.now.edges }
    ensures { IsTrue result → (k : ℕ) → k < length layout.now.edges → (edge_at layout.now.edges k).upper ≡ block → mark_at picked.now k ≡ marked }
{
    for i in 0..layout.edges.len() {
        if layout.edge(i).upper == block && picked[i] != marked {
            return false;
        }
    }
    true
}

/// Whether the lower blocks of all edges into the block are marked.
fn all_known(layout: &Layout, known: &[bool], block: u32) -> bool
    requires { length known.now ≡ length layout.now.degrees }
{
    for i in 0..layout.edges.len() {
        let edge = layout.edge(i);
        if edge.upper == block && !known[edge.lower as usize] {
            return false;
        }
    }
    true
}

/// Whether all edges out of the block are marked.
fn all_laid(layout: &Layout, laid: &[bool], block: u32) -> bool
    requires { length laid.now ≡ length layout.now.edges }
    ensures { IsTrue result → (k : ℕ) → k < length layout.now.edges → (edge_at layout.now.edges k).lower ≡ block → mark_at laid.now k ≡ true }
{
    for i in 0..layout.edges.len() {
        if layout.edge(i).lower == block && !laid[i] {
            return false;
        }
    }
    true
}

/// Marks the tasks whose bits the answer of a publication of the block has.
fn mark_askers(layout: &Layout, resumed: &mut Vec<bool>, block: u32, bits: u32)
    requires { length resumed.old.items ≡ length layout.now.degrees }
    ensures length { length resumed.new.items ≡ length layout.now.degrees }
    ensures marks { (word : ℕ) → ((i : ℕ) → i < LETTER_LIMIT → bit_at bits i ≡ bit_at word i) → (b : ℕ) → mark_at resumed.new.items b ≡ (mark_at resumed.old.items b || is_in b (askers layout.now.edges block word)) }
{
    for i in 0..layout.edges.len() {
        let edge = layout.edge(i);
        let upper = edge.upper as usize;
        let was = resumed[upper];
        resumed[upper] = either(was, asks(bits, edge, block));
    }
}

/// Whether the edge goes out of the block and the bits have that of its letter.
fn asks(bits: u32, edge: Edge, block: u32) -> bool
    requires from { 1 ≤ edge.letter }
    requires to { edge.letter ≤ LETTER_LIMIT }
    ensures { result ≡ ((edge.lower == block) && (bit_at bits (edge.letter - 1) == 1)) }
{
    edge.lower == block && (bits >> (edge.letter - 1)) % 2 == 1
}

fn either(left: bool, right: bool) -> bool
    ensures { result ≡ (left || right) }
{
    left || right
}
