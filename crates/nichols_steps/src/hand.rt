//! A pass with marks of what it knows.

ghost use Rattle.std.specs.Prelude.{◌≡◌, ℕ, false, IsTrue, IfOk};
ghost use Rattle.nichols_core.specs.States.{mark_at};
ghost use Rattle.nichols_shelf.specs.Passes.{IsOf, view_of};
ghost use Rattle.nichols_shelf.specs.Played.{Mirrors, IsFresh};
ghost use Rattle.nichols_shelf.specs.Settled.{HoldsNothing, ResumesNothing};

use crate::pairs::Pairs;
use nichols_shelf::Pass;
use std::alloc::{AllocError, Global};

/// A pass, with marks of what it knows: they say whether a call is allowed. It lays want of memory alone.
#[derive(Drop)]
pub(crate) struct Hand {
    pub pass: Pass,
    pub held: Vec<bool>,
    pub resumed: Vec<bool>,
    pub known: Vec<bool>,
    pub picked: Vec<bool>,
    pub laid: Vec<bool>,
    ghost mirrors: { Mirrors held.items resumed.items known.items picked.items laid.items (view_of pass) },
}

impl Hand {
    /// A fresh pass, of which no mark stands.
    pub fn of(alloc: Global, pairs: &Pairs, pass: Pass) -> Result<Hand, AllocError>
        requires pass { IsOf pairs.now.shelf pass }
        requires fresh { IsFresh (view_of pass) }
        ensures { IfOk result (λ h. IsOf pairs.now.shelf h.pass × (view_of h.pass ≡ view_of pass)) }
    {
        let edges = pairs.count as usize;
        let blocks = 2 * edges;
        Ok(Hand {
            held: Vec::from_elem(alloc, false, blocks)?,
            resumed: Vec::from_elem(alloc, false, blocks)?,
            known: Vec::from_elem(alloc, false, blocks)?,
            picked: Vec::from_elem(alloc, false, edges)?,
            laid: Vec::from_elem(alloc, false, edges)?,
            pass,
        })
    }

    /// Whether the pass holds and resumes nothing, as far as its marks say.
    pub fn is_idle(&self) -> bool
        ensures holds { IsTrue result → HoldsNothing (view_of self.now.pass) }
        ensures resumes { IsTrue result → ResumesNothing (view_of self.now.pass) }
    {
        is_unmarked(&self.held) && is_unmarked(&self.resumed)
    }

    /// The pass alone.
    pub fn pass(self) -> Pass
        ensures { result ≡ self.pass }
    {
        let Hand {
            pass,
            held: _,
            resumed: _,
            known: _,
            picked: _,
            laid: _,
        } = self;
        pass
    }
}

/// Whether no mark stands.
fn is_unmarked(marks: &[bool]) -> bool
    ensures { IsTrue result → (k : ℕ) → mark_at marks.now k ≡ false }
{
    for i in 0..marks.len() {
        if marks[i] {
            return false;
        }
    }
    true
}
