//! Two blocks whose values are rules.

ghost use Rattle.std.specs.Prelude.{◌≡◌, ◌<◌, ◌≤◌, length, IfOk};
ghost use Rattle.nichols_tensor.specs.Positions.{word_at};
ghost use Rattle.nichols_braid.specs.declared.TheConstants.{MOST_ROWS};
ghost use Rattle.nichols_braid.specs.Products.{products};
ghost use Rattle.nichols_value.specs.Value.{IsRight};
ghost use Rattle.nichols_value.specs.Worth.{worth};
ghost use Rattle.nichols_shelf.specs.Alone.{one_edge, ResumesSecond, KeepsBlocks};
ghost use Rattle.nichols_shelf.specs.Passes.{IsOf, plan_of, view_of};
ghost use Rattle.nichols_shelf.specs.Places.{blocks};
ghost use Rattle.nichols_shelf.specs.Plan.{IsRightFor, key_at};
ghost use Rattle.nichols_shelf.specs.Played.{IsFresh, KeepsNumbers};
ghost use Rattle.nichols_shelf.specs.Settled.{HoldsNothing, ResumesNothing};
ghost use Rattle.nichols_shelf.specs.Views.{first_view};

use crate::{Asked, Pass, Shelf};
use nichols_block::{Levels, lower_values, make};
use nichols_braid::{Braid, Products};
use nichols_core::Layout;
use nichols_value::{BlockKey, BlockValue, Shared};
use nichols_words::Word;
use std::alloc::{AllocError, Global};
use std::process::Abort;
use std::test::Fail;

/// The value of the block of the first product of degree 1.
pub(crate) fn value_of_first(alloc: Global, levels: &Levels, first: &Products, limit: u32) -> Shared
    requires lowest { levels.now.last ≡ 0 }
    requires next { first.now ≡ products levels.now.braid 1 }
    requires some { 0 < length first.now }
    requires some_rows { 1 ≤ limit }
    requires few_rows { limit ≤ MOST_ROWS }
    ensures { IsRight levels.now.braid limit 1 (word_at first.now 0) (worth result) }
{
    let key = BlockKey {
        degree: 1,
        product: *first.at(0),
    };
    match lower_values(alloc, levels, &key) {
        Ok(lower) => Shared::of(
            alloc,
            make(alloc, levels.braid(), &key, lower.as_slice(), limit),
        ),
        Err(_) => Shared::Starved,
    }
}

/// A shelf over two blocks, of the first products of the degrees 1 and 2.
pub(crate) fn shelf_of_two(
    alloc: Global,
    layout: Layout,
    base: &Levels,
    first: &Products,
    second: &Products,
    limit: u32,
) -> Result<(Shelf, Pass), AllocError>
    requires two { length layout.degrees ≡ 2 }
    requires first { 0 < length first.now }
    requires second { 0 < length second.now }
    ensures pass { IfOk result (λ r. IsOf r.0 r.1 × (view_of r.1 ≡ first_view (plan_of r.0))) }
    ensures layout { IfOk result (λ r. (plan_of r.0).layout ≡ layout) }
    ensures key { IfOk result (λ r. ((plan_of r.0).braid ≡ base.now.braid) × ((plan_of r.0).rows_limit ≡ limit) × (key_at (plan_of r.0) 0 ≡ record { degree = 1; product = word_at first.now 0 })) }
{
    let mut keys = Vec::new(alloc);
    keys.push(BlockKey {
        degree: 1,
        product: *first.at(0),
    })?;
    keys.push(BlockKey {
        degree: 2,
        product: *second.at(0),
    })?;
    Shelf::start(alloc, layout, keys, limit, base)
}

/// The products of degree 1.
pub(crate) fn products_of_letters(alloc: Global, braid: &Braid) -> Result<Products, Fail>
    ensures { IfOk result (λ ps. ps ≡ products braid.now 1) }
{
    let none = Products::first(alloc, braid)?;
    let letters = none.next(alloc, braid).map_err(|_| "too many products")?;
    Ok(letters)
}

/// The products of degree 2, from those of degree 1.
pub(crate) fn products_of_pairs(
    alloc: Global,
    braid: &Braid,
    letters: &Products,
) -> Result<Products, Fail>
    requires { letters.now ≡ products braid.now 1 }
{
    let pairs = letters.next(alloc, braid).map_err(|_| "too many products")?;
    Ok(pairs)
}

/// Whether a value is a rule with the letter 1 as its one least word.
pub(crate) fn is_rule_of_letter(value: &Shared) -> bool {
    let Some(BlockValue::Rule(rule)) = value.get() else {
        return false;
    };
    let mut letter = Word::empty();
    letter.push(1) && rule.basis().len() == 1 && rule.basis()[0] == letter
}

/// A pass takes the upper block, asks for the lower one and is parked.
pub(crate) fn park_second<R: Abort>(rt: &R, shelf: &Shelf, pass: &mut Pass)
    requires of { IsOf shelf.now pass.old }
    requires fresh { IsFresh (view_of pass.old) }
    requires edges { (plan_of shelf.now).layout.edges ≡ one_edge }
    requires blocks { blocks (plan_of shelf.now) ≡ 2 }
    ensures of { IsOf shelf.now pass.new }
    ensures fresh { IsFresh (view_of pass.new) }
    ensures numbers { KeepsNumbers (view_of pass.old) (view_of pass.new) }
{
    assert!(rt; shelf.take(pass, 1));
    let Asked::Parked = shelf.ask(pass, 1, 1) else {
        panic!(rt; "not parked");
    };
}

/// A pass makes the lower block, with this value of it, and by its publication resumes the upper one.
pub(crate) fn make_first<R: Abort>(rt: &R, shelf: &Shelf, pass: &mut Pass, value: Shared)
    requires of { IsOf shelf.now pass.old }
    requires fresh { IsFresh (view_of pass.old) }
    requires edges { (plan_of shelf.now).layout.edges ≡ one_edge }
    requires blocks { blocks (plan_of shelf.now) ≡ 2 }
    requires right { IsRightFor (plan_of shelf.now) 0 (worth value) }
    ensures of { IsOf shelf.now pass.new }
    ensures resumes { ResumesSecond (view_of pass.new) }
    ensures numbers { KeepsNumbers (view_of pass.old) (view_of pass.new) }
{
    assert!(rt; shelf.take(pass, 0));
    shelf.lay(pass, 0, 1, value);
    assert!(rt; shelf.publish(pass, 0) == 1);
}

/// A pass finds that a block isn't ready.
pub(crate) fn find_taken<R: Abort>(rt: &R, shelf: &Shelf, pass: &mut Pass, block: u32)
    requires of { IsOf shelf.now pass.old }
    requires block { block < blocks (plan_of shelf.now) }
    ensures of { IsOf shelf.now pass.new }
    ensures blocks { KeepsBlocks (view_of pass.old) (view_of pass.new) }
    ensures numbers { KeepsNumbers (view_of pass.old) (view_of pass.new) }
{
    assert!(rt; !shelf.take(pass, block));
}

/// A pass releases the upper block, takes it, is told that the lower one is published, picks its value, and publishes the block: the
/// value that it picked.
pub(crate) fn make_second<R: Abort>(rt: &R, shelf: &Shelf, pass: &mut Pass) -> Shared
    requires of { IsOf shelf.now pass.old }
    requires resumes { ResumesSecond (view_of pass.old) }
    requires edges { (plan_of shelf.now).layout.edges ≡ one_edge }
    requires blocks { blocks (plan_of shelf.now) ≡ 2 }
    ensures of { IsOf shelf.now pass.new }
    ensures holds { HoldsNothing (view_of pass.new) }
    ensures resumes { ResumesNothing (view_of pass.new) }
    ensures numbers { KeepsNumbers (view_of pass.old) (view_of pass.new) }
{
    shelf.release(pass, 1);
    assert!(rt; shelf.take(pass, 1));
    let Asked::Published = shelf.ask(pass, 1, 1) else {
        panic!(rt; "not published");
    };
    let value = shelf.pick(pass, 1, 1);
    assert!(rt; shelf.publish(pass, 1) == 0);
    value
}
