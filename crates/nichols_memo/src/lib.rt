//! A memo of normal forms that threads share: slots that take turns, each with room for one word and its form.
//!
//! `AllocError` says that there was no memory.
#![tactic(auto)]

mod board;
mod calls;
mod entry;
mod hash;
pub mod laws;
mod memo;
mod seats;
mod view;

pub use entry::{Entry, Memoized};
pub use memo::{Memo, MemoSeat};
pub use view::View;

/// The most slots of a memo.
pub const MOST_SLOTS: u32 = 65_536;

/// The slots of the memo that the workers share who reduce many elements.
pub const SLOTS_DEFAULT: u32 = 4_096;

#[cfg(test)]
mod tests;
