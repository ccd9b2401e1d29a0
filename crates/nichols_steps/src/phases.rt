//! The phases: each takes one kind of step on all pairs of a pass.

ghost use Rattle.std.specs.Prelude.{◌≡◌, ◌<◌, ◌≤◌, IfOk};
ghost use Rattle.nichols_shelf.specs.Passes.{IsOf, view_of};
ghost use Rattle.nichols_shelf.specs.Played.{IsFresh, StaysOf};

use crate::hand::Hand;
use crate::pairs::Pairs;
use nichols_shelf::{Asked, Pass};
use std::alloc::{AllocError, Global};

/// How many phases there are: one without a step, and ten steps.
pub(crate) const PHASES: u32 = 11;

/// One of the phases, taken by so many passes.
#[derive(Clone, Copy)]
pub(crate) struct Phase {
    pub number: u32,
    pub passes: u32,
}

/// The pairs of a pass.
#[derive(Clone, Copy)]
struct Stretch {
    start: u32,
    end: u32,
}

impl Stretch {
    /// As many pairs for each worker number, rounded up; the last ones have what is left.
    fn of(pairs: u32, passes: u32, worker: u32) -> Stretch
        ensures { result.end ≤ pairs }
    {
        let share = pairs.div_ceil(passes.max(1));
        let start = worker.saturating_mul(share);
        let end = start.saturating_add(share).min(pairs);
        Stretch { start, end }
    }
}

/// Takes the step of a phase on a pair, and answers whether it found what it should. Phase 0 takes none: what it costs is in each
/// of the others, too.
fn step(pairs: &Pairs, hand: &mut Hand, phase: u32, pair: u32) -> bool
    requires pass { IsOf pairs.now.shelf hand.old.pass }
    requires pair { pair < pairs.now.count }
    ensures { StaysOf pairs.now.shelf hand.old.pass hand.new.pass }
{
    match phase {
        0 => true,
        1 | 7 => hand.take_upper(pairs, pair),
        2 => hand.ask(pairs, pair) == Some(Asked::Parked),
        3 => hand.take_lower(pairs, pair),
        4 => hand.lay(pairs, pair),
        5 => hand.publish_lower(pairs, pair),
        6 => hand.release(pairs, pair),
        8 => hand.ask(pairs, pair) == Some(Asked::Published),
        9 => hand.pick(pairs, pair),
        _ => hand.publish_upper(pairs, pair),
    }
}

/// Takes the step of a phase on each pair of the stretch, and answers how many found what they should.
fn phase_over(pairs: &Pairs, hand: &mut Hand, phase: u32, stretch: Stretch) -> u64
    requires pass { IsOf pairs.now.shelf hand.old.pass }
    requires stretch { stretch.end ≤ pairs.now.count }
    ensures { StaysOf pairs.now.shelf hand.old.pass hand.new.pass }
{
    let mut found: u64 = 0;
    for pair in stretch.start..stretch.end {
        if step(pairs, hand, phase, pair) {
            found = found.wrapping_add(1);
        }
    }
    found
}

/// A pass after a phase, with the number of pairs on which it found what it should.
#[derive(Drop)]
pub(crate) struct Worked {
    pub hand: Hand,
    pub found: u64,
}

impl Worked {
    /// A fresh pass, before all phases.
    pub fn fresh(alloc: Global, pairs: &Pairs, pass: Pass) -> Result<Worked, AllocError>
        requires pass { IsOf pairs.now.shelf pass }
        requires fresh { IsFresh (view_of pass) }
        ensures { IfOk result (λ w. IsOf pairs.now.shelf w.hand.pass × (view_of w.hand.pass ≡ view_of pass)) }
    {
        let hand = Hand::of(alloc, pairs, pass)?;
        Ok(Worked { hand, found: 0 })
    }
}

/// Takes the step of a phase on each pair of the pass.
pub(crate) fn work(pairs: &Pairs, mut hand: Hand, phase: Phase) -> Worked
    requires { IsOf pairs.now.shelf hand.pass }
    ensures { StaysOf pairs.now.shelf hand.pass result.hand.pass }
{
    let stretch = Stretch::of(pairs.count, phase.passes, hand.pass.worker());
    let found = phase_over(pairs, &mut hand, phase.number, stretch);
    Worked { hand, found }
}
