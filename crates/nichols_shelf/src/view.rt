//! What a pass knows. It is for contracts alone.

use crate::plan::Plan;
use nichols_value::BlockValue;
use std::collections::LinkedList;

/// What a pass knows of the shelf. No value of it is ever made: a seat has one for contracts alone.
///
/// The lists of blocks are without order, but for `made`, which is in the order of the publications: after a join those of the pass
/// that was kept come first, and then those of the other.
pub struct View {
    /// Whether the pass still is one: not once it was joined into another.
    pub live: bool,
    /// Its worker number.
    pub worker: u32,
    /// How many passes there have been. Only worker 0's is kept.
    pub passes: u32,
    /// Worker 0 stands for the worker numbers below this one.
    pub joined: u32,
    /// Braid, layout, keys and rows limit.
    pub plan: Plan,
    pub held: LinkedList<u32>,
    pub resumed: LinkedList<u32>,
    pub owed: LinkedList<u32>,
    /// Blocks that it knows as published.
    pub known: LinkedList<u32>,
    pub made: LinkedList<u32>,
    /// Edges whose slot it took out, to write a value into it.
    pub drawn: LinkedList<usize>,
    /// Edges that it picked, each with the value that it found.
    pub picked: LinkedList<(usize, BlockValue)>,
    /// Edges that it laid, each with the value that it laid.
    pub laid: LinkedList<(usize, BlockValue)>,
    /// Its steps on words, the last one first: the word's place, and the number that the step found.
    pub seen: LinkedList<(usize, u64)>,
}
