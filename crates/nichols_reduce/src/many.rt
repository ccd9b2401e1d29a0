//! Normal forms of many combinations, by workers who share a memo.

ghost use Rattle.std.specs.Prelude.{◌≡◌, ◌≤◌, IfOk, length, map};
ghost use Rattle.std.specs.List.{AllByRecursion};
ghost use Rattle.nichols_tensor.specs.Combination.{AllElements};
ghost use Rattle.nichols_tensor.specs.Words.{IsOver};
ghost use Rattle.nichols_memo.specs.Seats.{IsOf, braid_of};
ghost use Rattle.nichols_reduce.specs.Normal.{normal_of};
ghost use Rattle.nichols_reduce.specs.Shares.{AreAnswers, AreShares, IsAnswer};

use crate::answer::Normal;
use crate::pace::Pace;
use crate::reduced::normal_at_pace;
use nichols_block::Levels;
use nichols_memo::{Memo, MemoSeat, SLOTS_DEFAULT};
use nichols_words::Comb;
use std::alloc::{AllocError, Global};
use std::thread::{self, Threads};

/// What one worker answers: the combinations from one place on up to another, with a seat of its own at the memo.
#[derive(Drop)]
struct Share {
    seat: MemoSeat,
    start: usize,
    end: usize,
}

/// Shares for so many workers, of one size but for the last ones: each combination is in one of them, and they are in order.
fn shares(
    alloc: Global,
    memo: &Memo,
    seat: &mut MemoSeat,
    combs: &[Comb],
    workers: u32,
) -> Result<Vec<Share>, AllocError>
    requires seat { IsOf memo.now seat.old }
    requires some_workers { 1 ≤ workers }
    ensures { IfOk result (λ ss. AreShares memo.now 0 ss.items (length combs.now)) }
{
    let size = combs.len() / workers as usize + 1;
    let mut shares = Vec::new(alloc);
    let mut start = 0;
    while start < combs.len() {
        let end = start + usize::min(size, combs.len() - start);
        let seat = memo.split(alloc, seat)?;
        shares.push(Share { seat, start, end })?;
        start = end;
    }
    Ok(shares)
}

/// The answers of the combinations of a share.
fn answer(
    alloc: Global,
    levels: &Levels,
    memo: &Memo,
    combs: &[Comb],
    share: Share,
) -> Result<Vec<Normal>, AllocError>
    requires memo { braid_of memo.now ≡ levels.now.braid }
    requires seat { IsOf memo.now share.seat }
    requires order { share.start ≤ share.end }
    requires within { share.end ≤ length combs.now }
    requires letters { AllByRecursion (IsOver levels.now.braid.letters) combs.now }
    requires elements { AllByRecursion (AllElements levels.now.braid.field) combs.now }
    ensures { IfOk result (λ ns. IsAnswer levels.now.braid levels.now.last combs.now share ns.items) }
{
    let Share {
        mut seat,
        start,
        end,
    } = share;
    let mut answers = Vec::new(alloc);
    let mut pace = Pace::new();
    for k in start..end {
        answers.push(normal_at_pace(alloc, levels, memo, &mut seat, &mut pace, &combs[k])?)?;
    }
    Ok(answers)
}

/// All answers, from those of each share.
fn joined(
    alloc: Global,
    levels: &Levels,
    combs: &[Comb],
    parts: Vec<Result<Vec<Normal>, AllocError>>,
) -> Result<Vec<Normal>, AllocError>
    requires { AreAnswers levels.now.braid levels.now.last combs.now parts.items }
    ensures { IfOk result (λ ns. ns.items ≡ map (normal_of levels.now.braid levels.now.last) combs.now) }
{
    let mut answers = Vec::new(alloc);
    for part in parts {
        let mut part = part?;
        answers.append(&mut part)?;
    }
    Ok(answers)
}

/// The normal forms of combinations in order, each as [`normal`](crate::normal) answers, by so many workers.
///
/// Each worker takes a share of the combinations, and has a seat of its own at a memo that all of them share: what one found, the
/// others don't make again.
pub fn normal_all<R: Threads + Sync>(
    rt: &R,
    alloc: Global,
    levels: &Levels,
    combs: &[Comb],
    workers: u32,
) -> Result<Vec<Normal>, AllocError>
    requires some_workers { 1 ≤ workers }
    requires letters { AllByRecursion (IsOver levels.now.braid.letters) combs.now }
    requires elements { AllByRecursion (AllElements levels.now.braid.field) combs.now }
    ensures { IfOk result (λ ns. ns.items ≡ map (normal_of levels.now.braid levels.now.last) combs.now) }
{
    let (memo, mut seat) = Memo::start(alloc, levels.braid(), SLOTS_DEFAULT)?;
    let shares = shares(alloc, &memo, &mut seat, combs, workers)?;
    let parts = thread::map_vec(
        rt,
        shares,
        &|share: Share| -> Result<Vec<Normal>, AllocError>
            requires { (braid_of memo ≡ levels.now.braid) × IsOf memo share.seat × (share.start ≤ share.end) × (share.end ≤ length combs.now) × AllByRecursion (IsOver levels.now.braid.letters) combs.now × AllByRecursion (AllElements levels.now.braid.field) combs.now }
            ensures { IfOk result (λ ns. IsAnswer levels.entry.now.braid levels.entry.now.last combs.entry.now share ns.items) }
        { answer(alloc, levels, &memo, combs, share) },
    )?;
    joined(alloc, levels, combs, parts)
}
