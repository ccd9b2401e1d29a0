//! The events of the shelf machine.

/// What a worker does to a block. A letter is from 1 to `LETTER_LIMIT`.
#[derive(Clone, Copy, Debug, PartialEq, Eq, Drop)]
pub enum Event {
    /// Holds the block, where it is ready.
    Take { worker: u32, block: u32 },
    /// Asks for the lower block of the edge of that letter into the block, and parks the block where the
    /// lower one isn't published.
    Ask { worker: u32, block: u32, letter: u8 },
    /// Picks the value at the edge of that letter into the block.
    Pick { worker: u32, block: u32, letter: u8 },
    /// Lays the block's value at the edge of that letter out of it.
    Lay { worker: u32, block: u32, letter: u8 },
    /// Publishes the block, and resumes every block that is parked on it.
    Publish { worker: u32, block: u32 },
    /// Makes a resumed block ready, so that the worker owes it.
    Release { worker: u32, block: u32 },
}
