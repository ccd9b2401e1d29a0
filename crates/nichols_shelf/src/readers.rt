//! What shelves and passes show without a step.

ghost use Rattle.std.specs.Prelude.{◌≡◌, ℕ, ◌^◌, ◌<◌, ◌≤◌, true, false, [], MatchOption};
ghost use Rattle.nichols_tensor.specs.declared.TheConstants.{LETTER_LIMIT};
ghost use Rattle.nichols_core.specs.Conditions.{IsInto, IsOutOf};
ghost use Rattle.nichols_shelf.specs.Lists.{is_in};
ghost use Rattle.nichols_shelf.specs.Places.{blocks};
ghost use Rattle.nichols_shelf.specs.Plan.{key_at};
ghost use Rattle.nichols_shelf.specs.Passes.{plan_of, view_of};
ghost use Rattle.nichols_shelf.specs.Settled.{OwesNothing};

use crate::calls::is_published;
use crate::pass::Pass;
use crate::shelf::Shelf;
use crate::tables::letter_place;
use nichols_core::Layout;
use nichols_value::BlockKey;

impl Shelf {
    /// The layout of its blocks.
    pub fn layout(&self) -> &Layout
        ensures { result.now ≡ (plan_of self.now).layout }
    {
        &self.plan.layout
    }

    /// How many blocks there are.
    pub(crate) fn block_count(&self) -> usize
        ensures count { result ≡ blocks (plan_of self.now) }
        ensures few { result < 2 ^ 32 }
    {
        self.plan.layout.meets_its_rules();
        self.plan.layout.degrees.len()
    }

    /// The key of the block.
    pub fn key(&self, block: u32) -> &BlockKey
        requires { block < blocks (plan_of self.now) }
        ensures { result.now ≡ key_at (plan_of self.now) block }
    {
        &self.plan.keys[block as usize]
    }

    /// The number of the edge of that letter into the block, by a look at a table.
    pub fn edge_into(&self, block: u32, letter: u8) -> Option<usize>
        requires block { block < blocks (plan_of self.now) }
        requires from { 1 ≤ letter }
        requires to { letter ≤ LETTER_LIMIT }
        ensures { MatchOption result
            ((k : ℕ) → IsInto (plan_of self.now).layout.edges block letter k → ⊥)
            (λ k. IsInto (plan_of self.now).layout.edges block letter k) }
    {
        self.plan.layout.meets_its_rules();
        let number = self.entries[letter_place(block, letter)];
        if number >= self.plan.layout.edges.len() {
            return None;
        }
        let edge = self.plan.layout.edge(number);
        if edge.upper == block && edge.letter == letter {
            Some(number)
        } else {
            None
        }
    }

    /// The number of the edge of that letter out of the block, by a look at a table.
    pub fn edge_out(&self, block: u32, letter: u8) -> Option<usize>
        requires block { block < blocks (plan_of self.now) }
        requires from { 1 ≤ letter }
        requires to { letter ≤ LETTER_LIMIT }
        ensures { MatchOption result
            ((k : ℕ) → IsOutOf (plan_of self.now).layout.edges block letter k → ⊥)
            (λ k. IsOutOf (plan_of self.now).layout.edges block letter k) }
    {
        self.plan.layout.meets_its_rules();
        let number = self.exits[letter_place(block, letter)];
        if number >= self.plan.layout.edges.len() {
            return None;
        }
        let edge = self.plan.layout.edge(number);
        if edge.lower == block && edge.letter == letter {
            Some(number)
        } else {
            None
        }
    }

    /// Whether the block was ready at a look at its desk word. It is no step, and nothing follows from it.
    pub fn seems_ready(&self, block: u32) -> bool
        requires { block < blocks (plan_of self.now) }
    {
        self.board.shared.peek(1 + block as usize) == 0
    }

    /// Whether the block was published at a look at its wait word. It is no step, and nothing follows from it.
    pub fn seems_published(&self, block: u32) -> bool
        requires { block < blocks (plan_of self.now) }
    {
        let word = 1 + self.block_count() + block as usize;
        is_published(self.board.shared.peek(word))
    }

    /// The rows limit under which values are right.
    pub fn rows_limit(&self) -> u32
        ensures { result ≡ (plan_of self.now).rows_limit }
    {
        self.plan.rows_limit
    }
}

impl Pass {
    /// The worker number.
    pub fn worker(&self) -> u32
        ensures { result ≡ (view_of self.now).worker }
    {
        self.worker
    }

    /// Tells a caller that no edge is drawn between calls: `lay` lays the edge that it draws.
    pub fn has_drawn_nothing(&self)
        ensures { (view_of self.now).drawn ≡ [] }
    {
        let _ = &self.owed;
    }

    /// The least block that the pass owes, if it owes one.
    pub fn owed(&self) -> Option<u32>
        ensures { MatchOption result
            (OwesNothing (view_of self.now))
            (λ b. (b < blocks (view_of self.now).plan) × (is_in b (view_of self.now).owed ≡ true) × ((c : ℕ) → c < b → is_in c (view_of self.now).owed ≡ false)) }
    {
        self.owed.least()
    }
}
