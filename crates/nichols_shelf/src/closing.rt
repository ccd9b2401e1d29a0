//! How a shelf is closed.

ghost use Rattle.std.specs.Prelude.{◌≡◌, ◌==◌, ℕ, ◌+◌, ◌*◌, ◌^◌, ◌<◌, ◌≤◌, false, vec_len, slice_index, slice_index_or, IfOk};
ghost use Rattle.std.specs.Slots.{slots_items, slots_len, IsFull};
ghost use Rattle.nichols_shelf.specs.Closed.{plan_in, last_view, IsAllPublished};
ghost use Rattle.nichols_shelf.specs.Lists.{times_in};
ghost use Rattle.nichols_shelf.specs.Places.{blocks};
ghost use Rattle.nichols_shelf.specs.Passes.{IsOf, plan_of, view_of};
ghost use Rattle.nichols_shelf.specs.Settled.{HoldsNothing, ResumesNothing, OwesNothing, IsSettled};
ghost use Rattle.nichols_shelf.specs.Views.{says_published};

use crate::board::Slot;
use crate::calls::is_published;
use crate::closed::Closed;
use crate::pass::Pass;
use crate::shelf::Shelf;
use std::alloc::{AllocError, Global};
use std::snapshot::Snapshot;

impl Shelf {
    /// Ends the shelf. Every other pass was joined into this one, which holds and resumes nothing. Where it owed nothing, every block
    /// is published. For want of memory shelf and pass are gone.
    pub fn close(self, alloc: Global, pass: Pass) -> Result<Closed, AllocError>
        requires pass { IsOf self pass }
        requires zeroth { (view_of pass).worker ≡ 0 }
        requires joined { (view_of pass).joined ≡ (view_of pass).passes }
        requires holds { HoldsNothing (view_of pass) }
        requires resumes { ResumesNothing (view_of pass) }
        ensures plan { IfOk result (λ c. plan_in c ≡ plan_of self) }
        ensures view { IfOk result (λ c. last_view c ≡ view_of pass) }
        ensures settled { IfOk result (λ c. IsSettled (plan_of self) (view_of pass)) }
        ensures all { IfOk result (λ c. OwesNothing (view_of pass) → IsAllPublished c) }
    {
        let blocks = self.block_count();
        let Shelf {
            board,
            plan,
            entries: _,
            exits: _,
        } = self;
        let Pass {
            place,
            worker: _,
            passes: _,
            owed: _,
        } = pass;
        let last = Snapshot::of(&place);
        let closed = board.close_with(place);
        let marks = marks(alloc, &closed, blocks);
        empty(closed);
        Ok(Closed {
            plan,
            marks: marks?,
            last,
        })
    }
}

impl Closed {
    /// How many blocks its layout has.
    pub fn blocks(&self) -> u32
        ensures { result ≡ blocks (plan_in self.now) }
    {
        self.plan.layout.meets_its_rules();
        self.plan.layout.degrees.len() as u32
    }

    /// Whether the block is published: exactly where it is one of those that the last pass made, once.
    pub fn published(&self, block: u32) -> bool
        requires { block < blocks (plan_in self.now) }
        ensures { result ≡ (times_in block (last_view self.now).made == 1) }
    {
        self.marks[block as usize]
    }
}

/// Which blocks are published, by the last bits of their wait words.
fn marks(
    alloc: Global,
    closed: &atomic_table::Closed<Slot, Global>,
    blocks: usize,
) -> Result<Vec<bool>, AllocError>
    requires full { IsFull closed.now.words }
    requires wide { 1 + 2 * blocks ≤ slots_len closed.now.words }
    requires few { blocks < 2 ^ 32 }
    ensures length { IfOk result (λ v. vec_len v ≡ blocks) }
    ensures marks { IfOk result (λ v. (b : ℕ) → b < blocks → slice_index_or v.items b false ≡ says_published (slice_index (slots_items closed.now.words) (1 + blocks + b))) }
{
    let mut marks = Vec::with_capacity(alloc, blocks)?;
    for block in 0..blocks {
        marks.push(is_published(closed.word(1 + blocks + block)))?;
    }
    Ok(marks)
}

/// Lets the slots of a table go, with what is in them.
fn empty(mut closed: atomic_table::Closed<Slot, Global>)
    requires { IsFull closed.slots }
{
    let mut slot = 0;
    while slot < closed.slot_count() {
        drop(closed.take(slot));
        slot += 1;
    }
    closed.free();
}
