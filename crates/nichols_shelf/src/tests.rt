mod lockstep;
mod play;
mod player;
mod ruled;
mod setting;
mod threads;

ghost use Rattle.std.specs.Prelude.{◌≡◌, ◌+◌, ◌<◌, suc, IfOk};
ghost use Rattle.nichols_shelf.specs.Closed.{plan_in};
ghost use Rattle.nichols_shelf.specs.Settled.{HoldsNothing, ResumesNothing};
ghost use Rattle.nichols_shelf.specs.Passes.{IsOf, plan_of, view_of};
ghost use Rattle.nichols_shelf.specs.Places.{blocks};
ghost use Rattle.nichols_shelf.specs.Alone.{one_edge};
ghost use Rattle.nichols_shelf.specs.Plan.{IsRightFor};
ghost use Rattle.nichols_shelf.specs.Views.{first_view};
ghost use Rattle.nichols_value.specs.Worth.{worth};

use crate::tests::lockstep::step_with;
use crate::tests::player::Player;
use crate::tests::ruled::{
    find_taken, is_rule_of_letter, make_first, make_second, park_second, products_of_letters,
    products_of_pairs, shelf_of_two, value_of_first,
};
use crate::tests::setting::{Dice, Pure, random_layout, shelf_over, two_blocks};
use crate::{Asked, Closed, Pass, Shelf};
use nichols_block::Levels;
use nichols_core::Stage;
use nichols_testing::one_letter;
use nichols_value::Shared;
use std::alloc::{AllocError, Global};
use std::process::Abort;
use std::test::Fail;

/// One pass asks for a block that isn't published, is parked, makes that block, and then its own.
#[test]
fn one_pass_makes_both(rt: HostRuntime) -> Result<(), Fail> {
    let Some(layout) = two_blocks(rt.alloc())? else {
        panic!(rt; "no layout");
    };
    let (shelf, pass) = shelf_over(rt.alloc(), layout)?;
    let mut player = Player::of(rt.alloc(), &shelf, pass)?;
    assert!(rt; player.take(&shelf, 1));
    assert!(rt; player.ask(&shelf, 1, 1) == Some(Asked::Parked));
    assert!(rt; player.take(&shelf, 0));
    assert!(rt; player.lay(&shelf, 0, 1));
    assert!(rt; player.publish(&shelf, 0) == Some(1));
    assert!(rt; !player.take(&shelf, 1));
    assert!(rt; player.release(&shelf, 1));
    assert!(rt; player.pass.owed() == Some(1));
    assert!(rt; player.take(&shelf, 1));
    assert!(rt; player.ask(&shelf, 1, 1) == Some(Asked::Published));
    let Some(Shared::Starved) = player.pick(&shelf, 1, 1) else {
        panic!(rt; "not the value that was laid");
    };
    assert!(rt; player.publish(&shelf, 1) == Some(0));
    assert!(rt; player.pass.owed().is_none() && player.pass.worker() == 0);
    assert!(rt; player.holds_nothing());
    assert!(rt; player.resumes_nothing());
    let closed = closed_by_one(rt.alloc(), shelf, player)?;
    assert!(rt; closed.blocks() == 2);
    assert!(rt; closed.published(0) && closed.published(1));
    Ok(())
}

fn closed_by_one(alloc: Global, shelf: Shelf, player: Player) -> Result<Closed, AllocError>
    requires shelf { IsOf shelf player.pass }
    requires zeroth { (view_of player.pass).worker ≡ 0 }
    requires joined { (view_of player.pass).joined ≡ (view_of player.pass).passes }
    requires holds { HoldsNothing (view_of player.pass) }
    requires resumes { ResumesNothing (view_of player.pass) }
    ensures { IfOk result (λ c. plan_in c ≡ plan_of shelf) }
{
    shelf.close(alloc, pass_of(player))
}

/// Joins worker 1 into worker 0, and closes the shelf.
fn closed_by_two<R: Abort>(
    rt: &R,
    alloc: Global,
    shelf: Shelf,
    zero: Player,
    one: Player,
) -> Result<Closed, AllocError>
    requires zero { IsOf shelf zero.pass }
    requires one { IsOf shelf one.pass }
    requires zeroth { (view_of zero.pass).worker ≡ 0 }
    requires first { (view_of one.pass).worker ≡ (view_of zero.pass).joined }
    requires two { (view_of zero.pass).joined + 1 ≡ (view_of zero.pass).passes }
    ensures { IfOk result (λ c. plan_in c ≡ plan_of shelf) }
{
    assert!(rt; zero.holds_nothing());
    assert!(rt; zero.resumes_nothing());
    assert!(rt; one.holds_nothing());
    assert!(rt; one.resumes_nothing());
    settled_by_two(alloc, shelf, pass_of(zero), pass_of(one))
}

fn settled_by_two(alloc: Global, shelf: Shelf, zero: Pass, one: Pass) -> Result<Closed, AllocError>
    requires zero { IsOf shelf zero }
    requires one { IsOf shelf one }
    requires zeroth { (view_of zero).worker ≡ 0 }
    requires first { (view_of one).worker ≡ (view_of zero).joined }
    requires two { (view_of zero).joined + 1 ≡ (view_of zero).passes }
    requires holds { HoldsNothing (view_of zero) × HoldsNothing (view_of one) }
    requires resumes { ResumesNothing (view_of zero) × ResumesNothing (view_of one) }
    ensures { IfOk result (λ c. plan_in c ≡ plan_of shelf) }
{
    let mut others = Vec::new(alloc);
    others.push(one)?;
    shelf.settle(alloc, zero, others)
}

/// Joins the workers 1, 2 and 3 into worker 0, and closes the shelf.
fn closed_by_four<R: Abort>(
    rt: &R,
    alloc: Global,
    shelf: Shelf,
    zero: Player,
    one: Player,
    two: Player,
    three: Player,
) -> Result<Closed, AllocError>
    requires zero { IsOf shelf zero.pass }
    requires one { IsOf shelf one.pass }
    requires two { IsOf shelf two.pass }
    requires three { IsOf shelf three.pass }
    requires zeroth { (view_of zero.pass).worker ≡ 0 }
    requires first { (view_of one.pass).worker ≡ (view_of zero.pass).joined }
    requires second { (view_of two.pass).worker ≡ suc (view_of zero.pass).joined }
    requires third { (view_of three.pass).worker ≡ suc (suc (view_of zero.pass).joined) }
    requires four { (view_of zero.pass).joined + 3 ≡ (view_of zero.pass).passes }
    ensures { IfOk result (λ c. plan_in c ≡ plan_of shelf) }
{
    assert!(rt; zero.holds_nothing());
    assert!(rt; zero.resumes_nothing());
    assert!(rt; one.holds_nothing());
    assert!(rt; one.resumes_nothing());
    assert!(rt; two.holds_nothing());
    assert!(rt; two.resumes_nothing());
    assert!(rt; three.holds_nothing());
    assert!(rt; three.resumes_nothing());
    let mut others = Vec::new(alloc);
    others.push(pass_of(one))?;
    others.push(pass_of(two))?;
    others.push(pass_of(three))?;
    shelf.settle(alloc, pass_of(zero), others)
}

fn pass_of(player: Player) -> Pass
    ensures { result ≡ player.pass }
{
    let Player {
        pass,
        held: _,
        resumed: _,
        known: _,
        picked: _,
        laid: _,
    } = player;
    pass
}

/// Two passes of one thread make steps by turns that the dice choose. Each answer is that of the pure machine, and so is the end.
#[test]
fn random_steps_as_the_machine(rt: HostRuntime) -> Result<(), Fail> {
    let mut dice = Dice { seed: 7 };
    let Some(layout) = random_layout(rt.alloc(), &mut dice)? else {
        panic!(rt; "no layout");
    };
    let mut pure = Pure::over(rt.alloc(), &layout)?;
    let (shelf, mut pass) = shelf_over(rt.alloc(), layout)?;
    let other = shelf.split(rt.alloc(), &mut pass)?;
    let mut zero = Player::of(rt.alloc(), &shelf, pass)?;
    let mut one = Player::of(rt.alloc(), &shelf, other)?;
    for _ in 0..6000 {
        step_with(&rt, &shelf, &mut zero, &mut pure, 0, &mut dice);
        step_with(&rt, &shelf, &mut one, &mut pure, 1, &mut dice);
    }
    let closed = closed_by_two(&rt, rt.alloc(), shelf, zero, one)?;
    for block in 0..9 {
        assert!(rt; pure.stage(block) == Stage::Published, "block {block}");
        assert!(rt; closed.published(block), "block {block}");
    }
    Ok(())
}

/// One letter with the scalar 2 in the field with 7 elements: a shelf over the blocks 0 and 1 of the degrees 1 and 2 with the pass of
/// worker 0, and the value of block 0.
#[tactic(auto, unfolding(crate::specs::Plan::IsRightFor))]
fn shelf_of_rules<R: Abort>(rt: &R, alloc: Global) -> Result<(Shelf, Pass, Shared), Fail>
    ensures pass { IfOk result (λ r. IsOf r.0 r.1 × (view_of r.1 ≡ first_view (plan_of r.0))) }
    ensures edges { IfOk result (λ r. (plan_of r.0).layout.edges ≡ one_edge) }
    ensures blocks { IfOk result (λ r. blocks (plan_of r.0) ≡ 2) }
    ensures right { IfOk result (λ r. IsRightFor (plan_of r.0) 0 (worth r.2)) }
{
    let braid = one_letter(alloc)?;
    let first = products_of_letters(alloc, &braid)?;
    let second = products_of_pairs(alloc, &braid, &first)?;
    let levels = Levels::start(alloc, braid)?;
    assert!(rt; first.len() == 1 && second.len() == 1);
    let Some(layout) = two_blocks(alloc)? else {
        panic!(rt; "no layout");
    };
    let (shelf, pass) = shelf_of_two(alloc, layout, &levels, &first, &second, 1024)?;
    let value = value_of_first(alloc, &levels, &first, 1024);
    Ok((shelf, pass, value))
}

/// One pass asks for a block that isn't published, is parked, makes that block, whose value is the rule of the letter, then picks
/// the rule and makes its own block.
#[test]
fn a_rule_changes_hands(rt: HostRuntime) -> Result<(), Fail> {
    let (shelf, mut pass, value) = shelf_of_rules(&rt, rt.alloc())?;
    assert!(rt; shelf.key(0).degree == 1 && shelf.key(1).degree == 2);
    assert!(rt; shelf.rows_limit() == 1024);
    park_second(&rt, &shelf, &mut pass);
    make_first(&rt, &shelf, &mut pass, value);
    find_taken(&rt, &shelf, &mut pass, 1);
    let picked = make_second(&rt, &shelf, &mut pass);
    assert!(rt; is_rule_of_letter(&picked));
    let copy = picked.copy()?;
    assert!(rt; is_rule_of_letter(&copy));
    assert!(rt; pass.owed().is_none());
    pass.has_drawn_nothing();
    let closed = shelf.close(rt.alloc(), pass)?;
    assert!(rt; closed.published(0) && closed.published(1));
    Ok(())
}

/// The same by two passes of one thread: worker 0 is parked, and worker 1 makes both blocks.
#[test]
fn two_passes_of_one_thread(rt: HostRuntime) -> Result<(), Fail> {
    let (shelf, mut zero, value) = shelf_of_rules(&rt, rt.alloc())?;
    let mut one = shelf.split(rt.alloc(), &mut zero)?;
    assert!(rt; one.worker() == 1 && one.owed().is_none());
    park_second(&rt, &shelf, &mut zero);
    make_first(&rt, &shelf, &mut one, value);
    let picked = make_second(&rt, &shelf, &mut one);
    assert!(rt; is_rule_of_letter(&picked));
    assert!(rt; zero.owed() == Some(0));
    find_taken(&rt, &shelf, &mut zero, 0);
    assert!(rt; zero.owed().is_none() && one.owed().is_none());
    let closed = settled_by_two(rt.alloc(), shelf, zero, one)?;
    assert!(rt; closed.published(0) && closed.published(1));
    Ok(())
}

fn may_be_shared<T: Send + Sync + Drop>(_value: T) {}

fn may_be_sent<T: Send + Drop>(_value: T) {}

/// A shelf may be shared with other threads, and a pass may go to another.
#[test]
fn shelves_and_passes_cross_threads(rt: HostRuntime) -> Result<(), Fail> {
    let Some(layout) = two_blocks(rt.alloc())? else {
        panic!(rt; "no layout");
    };
    let (shelf, pass) = shelf_over(rt.alloc(), layout)?;
    may_be_shared(shelf);
    may_be_sent(pass);
    Ok(())
}
