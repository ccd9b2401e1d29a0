//! What a seat knows. It is for contracts alone.

use crate::Entry;
use nichols_braid::Braid;
use std::collections::LinkedList;

/// What a seat knows of the memo. No value of it is ever made: a seat has one for contracts alone.
pub struct View {
    /// Whether the seat still is one: not once it was joined into another.
    pub live: bool,
    /// The braid in which the forms are normal.
    pub braid: Braid,
    /// The slot that is out with the seat, whose turn it holds.
    pub out: Option<usize>,
    /// What was in the slots that came out, the last one first.
    pub took: LinkedList<Option<Entry>>,
    /// What was in the slots that went home, the last one first.
    pub put: LinkedList<Option<Entry>>,
    /// Its steps on words, the last one first: the word's place, and the number that the step found.
    pub seen: LinkedList<(usize, u64)>,
}
