//! Layouts: blocks with their degrees, the edges between them, and the search for an edge at a block.

ghost use Rattle.std.specs.Prelude.{◌≡◌, ◌+◌, ◌*◌, ◌^◌, ◌<◌, ◌≤◌, ◌↔◌, ℕ, length, vec_len, IsTrue, IsSome, IfSome, IfOk, All, IsPermutation};
ghost use Rattle.nichols_core.specs.Layout.{IsPlaced, CanLayOut, IsLayout, edge_at, edge_into, edge_out, entry_place};

use crate::edge::{Edge, enter_apart, entry_place, leave_apart, sort_by_entry, sort_by_exit};
use nichols_tensor::LETTER_LIMIT;
use std::alloc::{AllocError, Global};
use std::marker::Model;

/// The degree of each block, and the edges, which rise by upper block and then by letter. Of each letter at
/// most one edge goes out of a block, and at most one into it.
#[derive(Drop)]
pub struct Layout {
    pub degrees: Vec<u32>,
    pub edges: Vec<Edge>,
}

impl Model for Layout {
    ghost use Rattle.nichols_core.specs.Layout.{LayoutValue, IsLayout};

    ghost Value = { LayoutValue };

    ghost view = { λ l. record { degrees = l.degrees.items; edges = l.edges.items } };

    ghost invariant = { λ l. IsLayout (record { degrees = l.degrees.items; edges = l.edges.items }) };
}

impl Layout {
    /// The layout of these blocks and edges, which may be given in any order. `None` where an edge names a
    /// block that isn't there, its letter is outside 1 to `LETTER_LIMIT` or its upper block isn't of the next degree, and
    /// where two edges share their lower block and letter, or their upper block and letter.
    pub fn new(degrees: Vec<u32>, mut edges: Vec<Edge>) -> Option<Layout>
        requires { vec_len degrees < 2 ^ 32 }
        ensures some { IsSome result ↔ CanLayOut degrees.items edges.items }
        ensures layout { IfSome result (λ l. (l.degrees ≡ degrees.items) × IsPermutation edges.items l.edges × IsLayout l) }
    {
        if !are_placed(&degrees, &edges) {
            return None;
        }
        sort_by_exit(&mut edges);
        if !leave_apart(&edges) {
            return None;
        }
        sort_by_entry(&mut edges);
        if !enter_apart(&edges) {
            return None;
        }
        Some(Layout { degrees, edges })
    }

    /// A layout with the same blocks and edges.
    pub fn copy(&self, alloc: Global) -> Result<Layout, AllocError>
        ensures { IfOk result (λ l. l ≡ self.now) }
    {
        let degrees = Vec::from_slice(alloc, &self.degrees)?;
        let edges = Vec::from_slice(alloc, &self.edges)?;
        Ok(Layout { degrees, edges })
    }

    /// Tells a caller that this is a layout: that its edges are placed, apart and in their order.
    pub fn meets_its_rules(&self)
        ensures { IsLayout self.now }
    {
        let _ = &self.edges;
    }

    /// The edge with this number.
    pub fn edge(&self, number: usize) -> Edge
        requires { number < length self.now.edges }
        ensures edge { result ≡ edge_at self.now.edges number }
        ensures placed { IsPlaced self.now.degrees result }
    {
        self.edges[number]
    }

    /// The number of the edge of that letter into the block.
    pub fn edge_into(&self, block: u32, letter: u8) -> Option<usize>
        ensures { result ≡ edge_into self.now.edges block letter }
    {
        let number = self.entries_before(block, letter);
        if number == self.edges.len() {
            return None;
        }
        let edge = self.edges[number];
        if edge.upper == block && edge.letter == letter {
            Some(number)
        } else {
            None
        }
    }

    /// The number of the edge of that letter out of the block.
    pub fn edge_out(&self, block: u32, letter: u8) -> Option<usize>
        ensures { result ≡ edge_out self.now.edges block letter }
    {
        self.edges
            .iter()
            .position(|edge| edge.lower == block && edge.letter == letter)
    }

    /// The numbers of the edges into the block, which stand together: the first of them, and the first one
    /// past them.
    pub fn entries(&self, block: u32) -> (usize, usize)
        ensures bound { result.1 ≤ length self.now.edges }
        ensures entries { (k : ℕ) → k < length self.now.edges → ((edge_at self.now.edges k).upper ≡ block) ↔ ((result.0 ≤ k) × (k < result.1)) }
    {
        let first = self.edges.partition_point(|edge| edge.upper < block);
        let end = self.edges.partition_point(|edge| edge.upper <= block);
        (first, end)
    }

    /// How many edges stand before the place of the edge of that letter into the block.
    fn entries_before(&self, block: u32, letter: u8) -> usize
        ensures bound { result ≤ length self.now.edges }
        ensures before { (k : ℕ) → k < result → entry_place (edge_at self.now.edges k) < block * 256 + letter }
        ensures rest { (k : ℕ) → result ≤ k → k < length self.now.edges → block * 256 + letter ≤ entry_place (edge_at self.now.edges k) }
    {
        let place = u64::from(block) * 256 + u64::from(letter);
        self.edges.partition_point(|edge| entry_place(edge) < place)
    }
}

fn are_placed(degrees: &[u32], edges: &[Edge]) -> bool
    ensures { IsTrue result ↔ All (IsPlaced degrees.now) edges.now }
{
    edges.iter().all(|edge| is_placed(degrees, edge))
}

/// Whether both ends are blocks, the upper one of the next degree, and the letter is from 1 to `LETTER_LIMIT`.
fn is_placed(degrees: &[u32], edge: &Edge) -> bool
    ensures { IsTrue result ↔ IsPlaced degrees.now edge.now }
{
    let lower = edge.lower as usize;
    let upper = edge.upper as usize;
    if lower >= degrees.len() || upper >= degrees.len() {
        return false;
    }
    let rises = degrees[lower] < degrees[upper] && degrees[upper] - degrees[lower] == 1;
    rises && 1 <= edge.letter && edge.letter <= LETTER_LIMIT
}
