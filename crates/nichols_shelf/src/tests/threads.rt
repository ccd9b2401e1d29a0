//! Random steps on threads, each with a pass of its own.

ghost use Rattle.std.specs.Prelude.{◌≡◌, ◌<◌, length};
ghost use Rattle.nichols_shelf.specs.Passes.{IsOf, plan_of, view_of};
ghost use Rattle.nichols_shelf.specs.Played.{KeepsNumbers, StaysOf};

use crate::Shelf;
use crate::tests::closed_by_four;
use crate::tests::player::Player;
use crate::tests::setting::{Dice, Pure, random_layout, shelf_over};
use nichols_core::{Event, Stage};
use std::alloc::{AllocError, Global};
use std::process::Abort;
use std::test::Fail;
use std::thread::{self, Threads};

/// Four passes, each on a thread of its own, make 4,000 steps that the dice choose, over one layout after another; some of these find
/// something. Then one thread goes on with all of them to the end. There a block is published exactly where it is in the pure machine.
#[test]
fn random_steps_on_threads(rt: HostRuntime) -> Result<(), Fail> {
    for seed in 11..31 {
        over_one_layout(&rt, rt.alloc(), seed)?;
    }
    Ok(())
}

/// A player after the steps of its thread, and how many of these found something.
#[derive(Drop)]
struct Outcome {
    player: Player,
    found: u32,
}

fn over_one_layout<R: Abort + Threads + Sync>(
    rt: &R,
    alloc: Global,
    seed: u64,
) -> Result<(), AllocError> {
    let mut dice = Dice { seed };
    let Some(layout) = random_layout(alloc, &mut dice)? else {
        panic!(rt; "no layout");
    };
    let mut pure = Pure::over(alloc, &layout)?;
    run_out(&mut pure, &mut dice);
    let (shelf, mut pass) = shelf_over(alloc, layout)?;
    let first = shelf.split(alloc, &mut pass)?;
    let second = shelf.split(alloc, &mut pass)?;
    let third = shelf.split(alloc, &mut pass)?;
    let zero = Player::of(alloc, &shelf, pass)?;
    let one = Player::of(alloc, &shelf, first)?;
    let two = Player::of(alloc, &shelf, second)?;
    let three = Player::of(alloc, &shelf, third)?;
    let ((zero, one), (two, three)) = on_four_threads(rt, &shelf, zero, one, two, three, seed);
    assert!(rt;
        zero.found > 0 || one.found > 0 || two.found > 0 || three.found > 0,
        "no step on the threads of {seed} found anything"
    );
    let mut zero = zero.player;
    let mut one = one.player;
    let mut two = two.player;
    let mut three = three.player;
    play_out(&shelf, &mut zero, &mut one, &mut two, &mut three, &mut dice);
    let closed = closed_by_four(rt, alloc, shelf, zero, one, two, three)?;
    for block in 0..9 {
        let published = pure.stage(block) == Stage::Published;
        assert!(rt;
            published && closed.published(block),
            "block {block} of the layout of {seed}"
        );
    }
    Ok(())
}

/// Four players, each on a thread of its own with dice of its own.
fn on_four_threads<R: Threads + Sync>(
    rt: &R,
    shelf: &Shelf,
    zero: Player,
    one: Player,
    two: Player,
    three: Player,
    seed: u64,
) -> ((Outcome, Outcome), (Outcome, Outcome))
    requires zero { IsOf shelf.now zero.pass }
    requires one { IsOf shelf.now one.pass }
    requires two { IsOf shelf.now two.pass }
    requires three { IsOf shelf.now three.pass }
    requires blocks { length (plan_of shelf.now).layout.degrees ≡ 9 }
    ensures zero { StaysOf shelf.now zero.pass result.0.0.player.pass }
    ensures one { StaysOf shelf.now one.pass result.0.1.player.pass }
    ensures two { StaysOf shelf.now two.pass result.1.0.player.pass }
    ensures three { StaysOf shelf.now three.pass result.1.1.player.pass }
{
    thread::join(
        rt,
        move || -> (Outcome, Outcome)
            requires { IsOf shelf.now zero.pass × IsOf shelf.now one.pass × (length (plan_of shelf.now).layout.degrees ≡ 9) }
            ensures { StaysOf shelf.entry.now zero.pass result.0.player.pass × StaysOf shelf.entry.now one.pass result.1.player.pass }
        { on_threads(rt, shelf, zero, one, seed) },
        move || -> (Outcome, Outcome)
            requires { IsOf shelf.now two.pass × IsOf shelf.now three.pass × (length (plan_of shelf.now).layout.degrees ≡ 9) }
            ensures { StaysOf shelf.entry.now two.pass result.0.player.pass × StaysOf shelf.entry.now three.pass result.1.player.pass }
        { on_threads(rt, shelf, two, three, seed.wrapping_add(1000)) },
    )
}

/// Both players, each on a thread of its own with dice of its own.
fn on_threads<R: Threads>(
    rt: &R,
    shelf: &Shelf,
    zero: Player,
    one: Player,
    seed: u64,
) -> (Outcome, Outcome)
    requires zero { IsOf shelf.now zero.pass }
    requires one { IsOf shelf.now one.pass }
    requires blocks { length (plan_of shelf.now).layout.degrees ≡ 9 }
    ensures zero { StaysOf shelf.now zero.pass result.0.player.pass }
    ensures one { StaysOf shelf.now one.pass result.1.player.pass }
{
    thread::join(
        rt,
        move || -> Outcome
            requires { IsOf shelf.now zero.pass × (length (plan_of shelf.now).layout.degrees ≡ 9) }
            ensures { StaysOf shelf.entry.now zero.pass result.player.pass }
        { played(shelf, zero, seed.wrapping_add(100)) },
        move || -> Outcome
            requires { IsOf shelf.now one.pass × (length (plan_of shelf.now).layout.degrees ≡ 9) }
            ensures { StaysOf shelf.entry.now one.pass result.player.pass }
        { played(shelf, one, seed.wrapping_add(200)) },
    )
}

/// The player after 4,000 steps. It pauses after each, so that the other thread starts before all is done.
fn played(shelf: &Shelf, mut player: Player, seed: u64) -> Outcome
    requires shelf { IsOf shelf.now player.pass }
    requires blocks { length (plan_of shelf.now).layout.degrees ≡ 9 }
    ensures shelf { IsOf shelf.now result.player.pass }
    ensures numbers { KeepsNumbers (view_of player.pass) (view_of result.player.pass) }
{
    let mut dice = Dice { seed };
    let mut found: u32 = 0;
    for _ in 0..4000 {
        if step(shelf, &mut player, &mut dice) {
            found = found.saturating_add(1);
        }
        pause();
    }
    Outcome { player, found }
}

fn pause() {
    for _ in 0..20 {
        thread::yield_now();
    }
}

/// Steps of all players by turns, more than enough for all blocks.
fn play_out(
    shelf: &Shelf,
    zero: &mut Player,
    one: &mut Player,
    two: &mut Player,
    three: &mut Player,
    dice: &mut Dice,
)
    requires zero { IsOf shelf.now zero.old.pass }
    requires one { IsOf shelf.now one.old.pass }
    requires two { IsOf shelf.now two.old.pass }
    requires three { IsOf shelf.now three.old.pass }
    requires blocks { length (plan_of shelf.now).layout.degrees ≡ 9 }
    ensures zero { StaysOf shelf.now zero.old.pass zero.new.pass }
    ensures one { StaysOf shelf.now one.old.pass one.new.pass }
    ensures two { StaysOf shelf.now two.old.pass two.new.pass }
    ensures three { StaysOf shelf.now three.old.pass three.new.pass }
{
    for _ in 0..20000 {
        let _ = step(shelf, zero, dice);
        let _ = step(shelf, one, dice);
        let _ = step(shelf, two, dice);
        let _ = step(shelf, three, dice);
    }
}

/// One step that the dice choose, if it is allowed: whether it was made, and for a take whether the block is held now.
fn step(shelf: &Shelf, player: &mut Player, dice: &mut Dice) -> bool
    requires shelf { IsOf shelf.now player.old.pass }
    requires blocks { length (plan_of shelf.now).layout.degrees ≡ 9 }
    ensures shelf { IsOf shelf.now player.new.pass }
    ensures numbers { KeepsNumbers (view_of player.old.pass) (view_of player.new.pass) }
{
    let block = dice.below(9);
    let letter = 1 + dice.below(3) as u8;
    match dice.below(6) {
        0 => player.take(shelf, block),
        1 => player.ask(shelf, block, letter).is_some(),
        2 => player.pick(shelf, block, letter).is_some(),
        3 => player.lay(shelf, block, letter),
        4 => player.publish(shelf, block).is_some(),
        _ => player.release(shelf, block),
    }
}

/// Events of the pure machine, more than enough for all blocks.
fn run_out(pure: &mut Pure, dice: &mut Dice)
    requires { length pure.old.layout.degrees ≡ 9 }
    ensures { pure.new.layout ≡ pure.old.layout }
{
    for _ in 0..40000 {
        let block = dice.below(9);
        let letter = 1 + dice.below(3) as u8;
        let worker = dice.below(2);
        let event = match dice.below(6) {
            0 => Event::Take { worker, block },
            1 => Event::Ask {
                worker,
                block,
                letter,
            },
            2 => Event::Pick {
                worker,
                block,
                letter,
            },
            3 => Event::Lay {
                worker,
                block,
                letter,
            },
            4 => Event::Publish { worker, block },
            _ => Event::Release { worker, block },
        };
        let _ = pure.apply(event);
    }
}
