//! The steps that a pass makes on the words of blocks.

ghost use Rattle.std.specs.Prelude.{◌≡◌, ℕ, ◌+◌, ◌-◌, ◌^◌, ◌<◌, ◌≤◌, true};
ghost use Rattle.nichols_tensor.specs.declared.TheConstants.{LETTER_LIMIT};
ghost use Rattle.nichols_core.specs.Layout.{IsPlaced};
ghost use Rattle.nichols_core.specs.Conditions.{IsInto, IsOutOf};
ghost use Rattle.nichols_shelf.specs.Lists.{is_in};
ghost use Rattle.nichols_shelf.specs.Places.{blocks, edge, edges, wait_place};
ghost use Rattle.nichols_shelf.specs.Passes.{IsOf, plan_of, view_of};
ghost use Rattle.nichols_shelf.specs.Calls.{Takes, Releases, MayAsk, AsksFor, asked_of, MayPublish, PublishesWith};
ghost use Rattle.nichols_shelf.specs.Views.{says_published};

use crate::asked::Asked;
use crate::board::{Ask, Publish, Release, Take};
use crate::pass::Pass;
use crate::shelf::Shelf;
use crate::tables::letter_place;
use nichols_core::Edge;
use nichols_tensor::LETTER_LIMIT;

const READY: u64 = 0;

const TAKEN: u64 = 1;

/// The bit of a wait word that says that the block is published.
const PUBLISHED: u64 = 1 << 63;

/// Above the bits of all letters.
const LETTERS_END: u64 = 1 << LETTER_LIMIT;

impl Shelf {
    /// Holds the block, where it is ready: `false` exactly where the step found that it isn't. In both cases the pass no longer
    /// owes it.
    pub fn take(&self, pass: &mut Pass, block: u32) -> bool
        requires pass { IsOf self.now pass.old }
        requires block { block < blocks (plan_of self.now) }
        ensures pass { IsOf self.now pass.new }
        ensures step { Takes block (view_of pass.old) (view_of pass.new) result }
    {
        let desk = 1 + block as usize;
        let shared = &self.board.shared;
        let found = shared.compare_exchange::<Take>(&mut pass.place, desk, READY, TAKEN);
        pass.owed.remove(block);
        found == READY
    }

    /// Makes a block ready that the pass resumed, and owes it.
    pub fn release(&self, pass: &mut Pass, task: u32)
        requires pass { IsOf self.now pass.old }
        requires block { task < blocks (plan_of self.now) }
        requires resumed { is_in task (view_of pass.old).resumed ≡ true }
        ensures pass { IsOf self.now pass.new }
        ensures step { Releases task (view_of pass.old) (view_of pass.new) }
    {
        let desk = 1 + task as usize;
        self.board
            .shared
            .swap::<Release>(&mut pass.place, desk, READY);
        pass.owed.add(task);
    }

    /// Asks for the lower block of the edge of that letter into the task: `Parked` exactly where the step found it unpublished.
    pub fn ask(&self, pass: &mut Pass, task: u32, letter: u8) -> Asked
        requires pass { IsOf self.now pass.old }
        requires may { MayAsk (plan_of self.now) task letter (view_of pass.old) }
        ensures pass { IsOf self.now pass.new }
        ensures step { AsksFor (plan_of self.now) task letter (view_of pass.old) (view_of pass.new) result }
    {
        let number = self.entry(task, letter);
        let edge = self.edge(number);
        let wait = self.wait_word(edge.lower);
        let bit = letter_bit(edge.letter);
        let found = self
            .board
            .shared
            .fetch_or::<Ask>(&mut pass.place, wait, bit);
        answer_of(found)
    }

    /// Publishes the block. The answer has bit `a - 1` for each letter a by which a task was parked on it; the pass resumes these.
    pub fn publish(&self, pass: &mut Pass, block: u32) -> u32
        requires pass { IsOf self.now pass.old }
        requires block { block < blocks (plan_of self.now) }
        requires may { MayPublish (plan_of self.now) block (view_of pass.old) }
        ensures pass { IsOf self.now pass.new }
        ensures step { PublishesWith (plan_of self.now) block (view_of pass.old) (view_of pass.new) result }
    {
        let wait = self.wait_word(block);
        let found = self
            .board
            .shared
            .fetch_or::<Publish>(&mut pass.place, wait, PUBLISHED);
        (found % LETTERS_END) as u32
    }

    /// The place of the block's wait word.
    fn wait_word(&self, block: u32) -> usize
        requires { block < blocks (plan_of self.now) }
        ensures { result ≡ wait_place (plan_of self.now) block }
    {
        1 + self.plan.layout.degrees.len() + block as usize
    }

    /// The edge with this number.
    fn edge(&self, number: usize) -> Edge
        requires { number < edges (plan_of self.now) }
        ensures edge { result ≡ edge (plan_of self.now) number }
        ensures placed { IsPlaced (plan_of self.now).layout.degrees result }
    {
        self.plan.layout.edge(number)
    }

    /// The number of the edge of that letter into the block.
    pub(crate) fn entry(&self, block: u32, letter: u8) -> usize
        requires { (k : ℕ) × IsInto (plan_of self.now).layout.edges block letter k }
        ensures { IsInto (plan_of self.now).layout.edges block letter result }
    {
        self.plan.layout.meets_its_rules();
        self.entries[letter_place(block, letter)]
    }

    /// The number of the edge of that letter out of the block.
    pub(crate) fn exit_(&self, block: u32, letter: u8) -> usize
        requires { (k : ℕ) × IsOutOf (plan_of self.now).layout.edges block letter k }
        ensures { IsOutOf (plan_of self.now).layout.edges block letter result }
    {
        self.plan.layout.meets_its_rules();
        self.exits[letter_place(block, letter)]
    }
}

/// The bit of a letter in a wait word.
fn letter_bit(letter: u8) -> u64
    requires from { 1 ≤ letter }
    requires to { letter ≤ LETTER_LIMIT }
    ensures { result ≡ 2 ^ (letter - 1) }
{
    1 << (letter - 1)
}

/// What a wait word says of its block.
fn answer_of(found: u64) -> Asked
    ensures { result ≡ asked_of (says_published found) }
{
    if is_published(found) {
        Asked::Published
    } else {
        Asked::Parked
    }
}

/// Whether a wait word says that its block is published.
pub(crate) fn is_published(word: u64) -> bool
    ensures { result ≡ says_published word }
{
    word >= PUBLISHED
}
