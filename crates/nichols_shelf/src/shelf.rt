//! The shelf.

ghost use Rattle.std.specs.Prelude.{◌≡◌, ◌^◌, ◌<◌};
ghost use Rattle.nichols_shelf.specs.Places.{blocks, edges, all_words};
ghost use Rattle.nichols_shelf.specs.Tables.{FindsEntries, FindsExits};

use crate::board::Board;
use crate::plan::Plan;

/// The machine on words and slots that threads share.
///
/// Beside its plan it keeps the edges by upper block and letter, and by lower block and letter.
#[derive(Drop)]
pub struct Shelf {
    pub(crate) board: Board,
    pub(crate) plan: Plan,
    pub(crate) entries: Vec<usize>,
    pub(crate) exits: Vec<usize>,
    ghost same_plan: { board.shared.key ≡ plan },
    ghost words: { board.shared.table_id.words ≡ all_words plan },
    ghost few: { blocks plan < 2 ^ 32 },
    ghost fits: { edges plan < 2 ^ 63 },
    ghost into: { FindsEntries entries.items plan.layout },
    ghost out_of: { FindsExits exits.items plan.layout },
}
