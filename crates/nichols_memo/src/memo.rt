//! The memo and its seats.

ghost use Rattle.std.specs.Prelude.{◌≡◌, ◌≤◌, None, [], true};

use crate::board::{Board, Place};

/// Slots that threads share, each with room for one word and its normal form in one braid. Who would read a slot or write it takes
/// the slot's turn; who finds it held goes on without.
#[derive(Drop)]
pub struct Memo {
    pub(crate) board: Board,
    pub(crate) slots: u32,
    ghost words: { board.shared.table_id.words ≡ slots },
    ghost places: { board.shared.table_id.slots ≡ slots },
    ghost some: { 1 ≤ slots },
}

/// A seat at a memo, with what it knows (`View`), and the number of its hits.
#[derive(Drop)]
pub struct MemoSeat {
    pub(crate) place: Place,
    pub(crate) hits: u64,
    ghost slots: { place.me.1 ≡ [] },
    ghost turn: { place.me.0.out ≡ None },
    ghost live: { place.me.0.live ≡ true },
}
