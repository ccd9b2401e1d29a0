//! Shelves over small layouts, beside the pure machine.

ghost use Rattle.std.specs.Prelude.{◌≡◌, ◌<◌, IfOk, IfSome, length};
ghost use Rattle.nichols_core.specs.States.{IsInRange};
ghost use Rattle.nichols_shelf.specs.Alone.{one_edge};
ghost use Rattle.nichols_shelf.specs.Passes.{IsOf, plan_of, view_of};
ghost use Rattle.nichols_shelf.specs.Views.{first_view};

use crate::{Pass, Shelf};
use nichols_block::Levels;
use nichols_braid::{Braid, Product};
use nichols_core::{Edge, Event, Layout, Stage, State};
use nichols_value::BlockKey;
use std::alloc::{AllocError, Global};

/// A shelf over this layout. No test asks for a block's rule, so any braid and keys serve.
pub(crate) fn shelf_over(alloc: Global, layout: Layout) -> Result<(Shelf, Pass), AllocError>
    ensures { IfOk result (λ r. IsOf r.0 r.1 × (view_of r.1 ≡ first_view (plan_of r.0)) × ((plan_of r.0).layout ≡ layout)) }
{
    let base = Levels::start(alloc, Braid::points(alloc, 3)?)?;
    let mut keys = Vec::new(alloc);
    for degree in layout.degrees.iter() {
        keys.push(BlockKey {
            degree: *degree,
            product: Product::identity(3),
        })?;
    }
    Shelf::start(alloc, layout, keys, 1024, &base)
}

/// Blocks 0 and 1 of degrees 1 and 2, and an edge of letter 1 between them.
pub(crate) fn two_blocks(alloc: Global) -> Result<Option<Layout>, AllocError>
    ensures { IfOk result (λ o. IfSome o (λ l. (length l.degrees ≡ 2) × (l.edges ≡ one_edge))) }
{
    let degrees = Vec::from_slice(alloc, &[1, 2])?;
    let edge = Edge {
        lower: 0,
        letter: 1,
        upper: 1,
    };
    let edges = Vec::from_slice(alloc, &[edge])?;
    Ok(Layout::new(degrees, edges))
}

/// Numbers without pattern, by a linear congruence.
#[derive(Drop)]
pub(crate) struct Dice {
    pub seed: u64,
}

impl Dice {
    pub fn below(&mut self, end: u32) -> u32
        requires { 0 < end }
        ensures { result < end }
    {
        self.seed = self
            .seed
            .wrapping_mul(6364136223846793005)
            .wrapping_add(1442695040888963407);
        ((self.seed >> 33) % u64::from(end)) as u32
    }
}

/// Three blocks of each of the degrees 1 to 3. By each of three letters each block has one lower block at most, turned by some places.
pub(crate) fn random_layout(alloc: Global, dice: &mut Dice) -> Result<Option<Layout>, AllocError>
    ensures { IfOk result (λ o. IfSome o (λ l. length l.degrees ≡ 9)) }
{
    let degrees = Vec::from_slice(alloc, &[1, 1, 1, 2, 2, 2, 3, 3, 3])?;
    let mut edges = Vec::new(alloc);
    for row in 0..2u32 {
        for letter in 1..4u8 {
            let turn = dice.below(3);
            for place in 0..3u32 {
                if dice.below(4) > 0 {
                    edges.push(Edge {
                        lower: 3 * row + (place + turn) % 3,
                        letter,
                        upper: 3 * row + 3 + place,
                    })?;
                }
            }
        }
    }
    Ok(Layout::new(degrees, edges))
}

/// The pure machine with two workers, over the layout of a shelf.
#[derive(Drop)]
pub(crate) struct Pure {
    pub layout: Layout,
    pub state: State,
    ghost same: { state.layout ≡ layout },
    ghost two: { state.workers ≡ 2 },
}

impl Pure {
    pub fn over(alloc: Global, layout: &Layout) -> Result<Pure, AllocError>
        ensures { IfOk result (λ p. p.layout ≡ layout.now) }
    {
        Ok(Pure {
            layout: layout.copy(alloc)?,
            state: State::start(alloc, layout, 2)?,
        })
    }

    pub fn apply(&mut self, event: Event) -> bool
        requires { IsInRange self.old.state event }
        ensures { self.new.layout ≡ self.old.layout }
    {
        self.state.apply(&self.layout, event)
    }

    pub fn stage(&self, block: u32) -> Stage
        requires { block < length self.now.layout.degrees }
    {
        self.state.stage(block)
    }
}
