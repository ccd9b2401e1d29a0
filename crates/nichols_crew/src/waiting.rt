//! How a worker that owes nothing waits for a block that seems ready.
//!
//! A wait only looks at words, which is no step of the shelf: what it sees decides how long the worker waits and where its scan
//! begins, and nothing else.

ghost use Rattle.std.specs.Prelude.{◌≡◌, ◌<◌, ◌≤◌};
ghost use Rattle.nichols_tensor.specs.declared.TheConstants.{LETTER_LIMIT};
ghost use Rattle.nichols_shelf.specs.Passes.{plan_of};
ghost use Rattle.nichols_shelf.specs.Places.{blocks};

use nichols_shelf::Shelf;
use nichols_tensor::LETTER_LIMIT;
use std::thread;

/// The most looks of a wait before a scan: 2 to the power of `MOST_DOUBLINGS`.
const MOST_DOUBLINGS: u32 = 16;

/// How many desk words one look reads at most.
const STRETCH: u32 = 256;

/// Where a worker that waits looks.
#[derive(Clone, Copy)]
pub(crate) struct Outlook {
    /// The blocks below it all seemed published.
    pub open: u32,
    /// The next look for a ready block begins here.
    next: u32,
}

impl Outlook {
    /// Over all blocks.
    pub fn new() -> Outlook {
        Outlook { open: 0, next: 0 }
    }
}

/// What a look at the words of a shelf found.
#[derive(Clone, Copy)]
enum Sight {
    /// A block seems ready.
    Ready,
    /// All blocks seem published.
    Done,
    /// Neither.
    Nothing,
}

/// How many blocks there are.
pub(crate) fn block_count(shelf: &Shelf) -> u32
    ensures { result ≡ blocks (plan_of shelf.now) }
{
    let layout = shelf.layout();
    layout.meets_its_rules();
    layout.degrees.len() as u32
}

/// Whether the block seems ready, and each block that it needs published. So a worker that owes nothing leaves alone what it
/// would only park.
pub(crate) fn seems_open(shelf: &Shelf, block: u32) -> bool
    requires { block < blocks (plan_of shelf.now) }
{
    if !shelf.seems_ready(block) {
        return false;
    }
    for a in 0..LETTER_LIMIT {
        if !lower_seems_published(shelf, block, a + 1) {
            return false;
        }
    }
    true
}

/// Whether the lower block by the letter, where there is one, seems published.
fn lower_seems_published(shelf: &Shelf, block: u32, letter: u8) -> bool
    requires block { block < blocks (plan_of shelf.now) }
    requires from { 1 ≤ letter }
    requires to { letter ≤ LETTER_LIMIT }
{
    shelf.layout().meets_its_rules();
    match shelf.edge_into(block, letter) {
        Some(edge) => shelf.seems_published(shelf.layout().edge(edge).lower),
        None => true,
    }
}

/// Waits until a block seems ready, the longer the more scans have found nothing: `false` where all blocks seem published.
pub(crate) fn wait(shelf: &Shelf, outlook: &mut Outlook, scans: u32) -> bool {
    let looks = 1u32 << u32::min(scans, MOST_DOUBLINGS);
    for _ in 0..looks {
        match look(shelf, outlook) {
            Sight::Ready => return true,
            Sight::Done => return false,
            Sight::Nothing => thread::yield_now(),
        }
    }
    true
}

/// One look: whether all blocks seem published, and whether one of the next few seems ready. The looks that follow go round.
fn look(shelf: &Shelf, outlook: &mut Outlook) -> Sight {
    let count = block_count(shelf);
    outlook.open = first_unpublished(shelf, outlook.open);
    if outlook.open >= count {
        return Sight::Done;
    }
    if outlook.next < outlook.open || outlook.next >= count {
        outlook.next = outlook.open;
    }
    let end = outlook.next + u32::min(STRETCH, count - outlook.next);
    for block in outlook.next..end {
        if seems_open(shelf, block) {
            return Sight::Ready;
        }
    }
    outlook.next = end;
    Sight::Nothing
}

/// The first block from this one on that doesn't seem published; where there is none, the number of blocks.
fn first_unpublished(shelf: &Shelf, from: u32) -> u32 {
    let count = block_count(shelf);
    for block in from..count {
        if !shelf.seems_published(block) {
            return block;
        }
    }
    count
}
