//! Shelves of pairs of blocks: block k of degree 1, block n + k of degree 2, and edge k with the letter 1 between them.

ghost use Rattle.std.specs.Prelude.{◌≡◌, ◌*◌, ◌<◌, ◌^◌, length, vec_len, IsTrue, IfOk, IfSome};
ghost use Rattle.nichols_shelf.specs.Passes.{IsOf, plan_of, view_of};
ghost use Rattle.nichols_shelf.specs.Views.{first_view};
ghost use Rattle.nichols_steps.specs.Pairs.{ArePairs, JoinsPair};

use nichols_block::Levels;
use nichols_braid::{Braid, Product};
use nichols_core::{Edge, Layout};
use nichols_shelf::{Pass, Shelf};
use nichols_value::BlockKey;
use std::alloc::{AllocError, Global};

/// The letter of every edge.
pub(crate) const LETTER: u8 = 1;

/// A shelf of so many pairs. Each pair is apart from all others, so that no pass waits for another.
#[derive(Drop)]
pub(crate) struct Pairs {
    pub shelf: Shelf,
    pub count: u32,
    ghost pairs: { ArePairs count (plan_of shelf).layout },
}

impl Pairs {
    /// A shelf of so many pairs, with its first pass. `None` where there are too many. No rule is made, so any braid and keys serve.
    pub fn start(alloc: Global, count: u32) -> Result<Option<(Pairs, Pass)>, AllocError>
        ensures count { IfOk result (λ o. IfSome o (λ r. r.0.count ≡ count)) }
        ensures pass { IfOk result (λ o. IfSome o (λ r. IsOf r.0.shelf r.1 × (view_of r.1 ≡ first_view (plan_of r.0.shelf)))) }
    {
        let Some(layout) = layout_of_pairs(alloc, count)? else {
            return Ok(None);
        };
        let levels = Levels::start(alloc, Braid::points(alloc, 3)?)?;
        let keys = keys(alloc, &layout)?;
        let (shelf, pass) = Shelf::start(alloc, layout, keys, 1024, &levels)?;
        let pairs = Pairs { shelf, count };
        Ok(Some((pairs, pass)))
    }
}

/// A key for each block.
fn keys(alloc: Global, layout: &Layout) -> Result<Vec<BlockKey>, AllocError>
    ensures { IfOk result (λ v. vec_len v ≡ length layout.now.degrees) }
{
    let mut keys = Vec::new(alloc);
    for degree in layout.degrees.iter() {
        keys.push(BlockKey {
            degree: *degree,
            product: Product::identity(3),
        })?;
    }
    Ok(keys)
}

/// The layout of the pairs.
fn layout_of_pairs(alloc: Global, count: u32) -> Result<Option<Layout>, AllocError>
    ensures { IfOk result (λ o. IfSome o (λ l. ArePairs count l)) }
{
    let Some(blocks) = count.checked_mul(2) else {
        return Ok(None);
    };
    let degrees = degrees(alloc, count, blocks)?;
    let mut edges = Vec::with_capacity(alloc, count as usize)?;
    for pair in 0..count {
        edges.push(edge_of(count, pair))?;
    }
    let Some(layout) = Layout::new(degrees, edges) else {
        return Ok(None);
    };
    if are_pairs(&layout, count) {
        Ok(Some(layout))
    } else {
        Ok(None)
    }
}

/// The degree of each block: half of them have degree 1, and the others degree 2.
fn degrees(alloc: Global, count: u32, blocks: u32) -> Result<Vec<u32>, AllocError>
    ensures { IfOk result (λ v. vec_len v ≡ blocks) }
{
    let mut degrees = Vec::with_capacity(alloc, blocks as usize)?;
    for block in 0..blocks {
        degrees.push(if block < count { 1 } else { 2 })?;
    }
    Ok(degrees)
}

/// The edge of a pair.
fn edge_of(count: u32, pair: u32) -> Edge
    requires few { count * 2 < 2 ^ 32 }
    requires pair { pair < count }
{
    Edge {
        lower: pair,
        letter: LETTER,
        upper: count + pair,
    }
}

/// Whether the edges are those of the pairs, in their order.
fn are_pairs(layout: &Layout, count: u32) -> bool
    requires { count * 2 < 2 ^ 32 }
    ensures { IsTrue result → ArePairs count layout.now }
{
    if layout.degrees.len() != count as usize * 2 || layout.edges.len() != count as usize {
        return false;
    }
    for pair in 0..count {
        if !joins_pair(layout.edge(pair as usize), count, pair) {
            return false;
        }
    }
    true
}

/// Whether the edge is that of the pair.
fn joins_pair(edge: Edge, count: u32, pair: u32) -> bool
    requires few { count * 2 < 2 ^ 32 }
    requires pair { pair < count }
    ensures { IsTrue result → JoinsPair count pair edge }
{
    edge.lower == pair && edge.letter == LETTER && edge.upper == count + pair
}
