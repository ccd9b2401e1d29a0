//! Passes on threads, and what they did.

ghost use Rattle.std.specs.Prelude.{◌≡◌, All, IfOk, vec_len};
ghost use Rattle.nichols_shelf.specs.Passes.{IsOf, plan_of, view_of};
ghost use Rattle.nichols_shelf.specs.Played.{StaysOf};
ghost use Rattle.nichols_shelf.specs.Views.{first_view};
ghost use Rattle.nichols_steps.specs.Crew.{IsZeroth};

use crate::pairs::Pairs;
use crate::phases::{Phase, Worked, work};
use nichols_shelf::{Closed, Pass};
use std::alloc::{AllocError, Global};
use std::thread::{self, Threads};

/// The passes of a shelf of pairs, that of worker 0 and the others, each after its last phase.
#[derive(Drop)]
pub(crate) struct Crew {
    pairs: Pairs,
    passes: u32,
    zero: Worked,
    others: Vec<Worked>,
    ghost zeroth: { IsZeroth pairs.shelf (vec_len others) zero.hand.pass },
    ghost of_shelf: { All (λ w. IsOf pairs.shelf w.hand.pass) others.items },
}

impl Crew {
    /// So many passes over so many pairs. `None` where there are no passes, or too many pairs.
    pub fn start(alloc: Global, pairs: u32, passes: u32) -> Result<Option<Crew>, AllocError> {
        if passes == 0 {
            return Ok(None);
        }
        let Some((pairs, pass)) = Pairs::start(alloc, pairs)? else {
            return Ok(None);
        };
        let (zero, others) = split(alloc, &pairs, pass, passes)?;
        Ok(Some(Crew {
            pairs,
            passes,
            zero,
            others,
        }))
    }

    /// The passes after one more phase.
    pub fn after<R: Threads + Sync>(self, rt: &R, number: u32) -> Result<Crew, AllocError> {
        let Crew {
            pairs,
            passes,
            zero,
            others,
        } = self;
        let phase = Phase { number, passes };
        let (zero, others) = on_threads(rt, &pairs, zero, others, phase)?;
        Ok(Crew {
            pairs,
            passes,
            zero,
            others,
        })
    }

    /// On how many pairs the last phase found what it should.
    pub fn found(&self) -> u64 {
        let mut found = self.zero.found;
        for other in self.others.iter() {
            found = found.wrapping_add(other.found);
        }
        found
    }

    /// Joins all passes, closes the shelf and counts the published blocks. `None` where a pass still holds or resumes a block, or
    /// has a worker number out of order.
    pub fn published(self, alloc: Global) -> Result<Option<u32>, AllocError> {
        let Crew {
            pairs,
            passes: _,
            zero,
            others,
        } = self;
        match closed(alloc, pairs, zero, others)? {
            Some(closed) => Ok(Some(published_in(&closed))),
            None => Ok(None),
        }
    }
}

/// So many passes of a shelf, before any phase: that of worker 0, and the others.
fn split(
    alloc: Global,
    pairs: &Pairs,
    mut pass: Pass,
    passes: u32,
) -> Result<(Worked, Vec<Worked>), AllocError>
    requires pass { IsOf pairs.now.shelf pass }
    requires first { view_of pass ≡ first_view (plan_of pairs.now.shelf) }
    ensures zero { IfOk result (λ r. IsZeroth pairs.now.shelf (vec_len r.1) r.0.hand.pass) }
    ensures others { IfOk result (λ r. All (λ w. IsOf pairs.now.shelf w.hand.pass) r.1.items) }
{
    let mut others = Vec::new(alloc);
    for _worker in 1..passes {
        let other = pairs.shelf.split(alloc, &mut pass)?;
        others.push(Worked::fresh(alloc, pairs, other)?)?;
    }
    let zero = Worked::fresh(alloc, pairs, pass)?;
    Ok((zero, others))
}

/// A phase by each of these passes, each on a thread of its own.
fn on_threads<R: Threads + Sync>(
    rt: &R,
    pairs: &Pairs,
    zero: Worked,
    others: Vec<Worked>,
    phase: Phase,
) -> Result<(Worked, Vec<Worked>), AllocError>
    requires zero { IsZeroth pairs.now.shelf (vec_len others) zero.hand.pass }
    requires others { All (λ w. IsOf pairs.now.shelf w.hand.pass) others.items }
    ensures zero { IfOk result (λ r. IsZeroth pairs.now.shelf (vec_len r.1) r.0.hand.pass) }
    ensures others { IfOk result (λ r. All (λ w. IsOf pairs.now.shelf w.hand.pass) r.1.items) }
{
    let (zero, others) = thread::join(
        rt,
        move || -> Worked
            requires { IsOf pairs.now.shelf zero.hand.pass }
            ensures { StaysOf pairs.entry.now.shelf zero.hand.pass result.hand.pass }
        { work(pairs, zero.hand, phase) },
        move || -> Result<Vec<Worked>, AllocError>
            requires { All (λ w. IsOf pairs.now.shelf w.hand.pass) others.items }
            ensures { IfOk result (λ r. (vec_len r ≡ vec_len others) × All (λ w. IsOf pairs.entry.now.shelf w.hand.pass) r.items) }
        { all_worked(rt, pairs, others, phase) },
    );
    Ok((zero, others?))
}

/// A phase by each of these passes, each on a thread of its own.
fn all_worked<R: Threads + Sync>(
    rt: &R,
    pairs: &Pairs,
    others: Vec<Worked>,
    phase: Phase,
) -> Result<Vec<Worked>, AllocError>
    requires { All (λ w. IsOf pairs.now.shelf w.hand.pass) others.items }
    ensures count { IfOk result (λ r. vec_len r ≡ vec_len others) }
    ensures worked { IfOk result (λ r. All (λ w. IsOf pairs.now.shelf w.hand.pass) r.items) }
{
    thread::map_vec(
        rt,
        others,
        &|other: Worked| -> Worked
            requires { IsOf pairs.now.shelf other.hand.pass }
            ensures { IsOf pairs.entry.now.shelf result.hand.pass }
        { work(pairs, other.hand, phase) },
    )
}

/// Joins all passes, and closes the shelf. `None` where one of them still holds or resumes a block.
fn closed(
    alloc: Global,
    pairs: Pairs,
    zero: Worked,
    others: Vec<Worked>,
) -> Result<Option<Closed>, AllocError>
    requires zero { IsZeroth pairs.shelf (vec_len others) zero.hand.pass }
    requires others { All (λ w. IsOf pairs.shelf w.hand.pass) others.items }
{
    if !zero.hand.is_idle() {
        return Ok(None);
    }
    let mut pass = zero.hand.pass();
    let mut next: usize = 1;
    for other in others {
        if !other.hand.is_idle() || other.hand.pass.worker() as usize != next {
            return Ok(None);
        }
        pairs.shelf.join(&mut pass, other.hand.pass());
        next += 1;
    }
    let Pairs { shelf, count: _ } = pairs;
    let closed = shelf.close(alloc, pass)?;
    Ok(Some(closed))
}

/// How many blocks are published.
fn published_in(closed: &Closed) -> u32 {
    let mut published: u32 = 0;
    for block in 0..closed.blocks() {
        if closed.published(block) {
            published = published.wrapping_add(1);
        }
    }
    published
}
