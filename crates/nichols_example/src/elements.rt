//! A normal form, and a product of two elements.

ghost use Rattle.std.specs.Prelude.{◌≡◌, ◌∷◌, [], codes, IfOk, OnOk};
ghost use Rattle.std.specs.Io.KnownBytes.{Appends};
ghost use Rattle.nichols_tensor.specs.Combination.{AllElements};
ghost use Rattle.nichols_tensor.specs.Words.{IsOver, up_to};
ghost use Rattle.nichols_memo.specs.Seats.{IsOf, braid_of};
ghost use Rattle.nichols_product.specs.Products.{normal_of_product};
ghost use Rattle.nichols_reduce.specs.Normal.{normal_of};
ghost use Rattle.nichols_example.specs.Lines.{answer_line};

use crate::failure::Failure;
use nichols_block::Levels;
use nichols_braid::{Braid, Order};
use nichols_expression::read_expression;
use nichols_field::Field;
use nichols_io::{Sink, put_all};
use nichols_memo::{Memo, MemoSeat, SLOTS_DEFAULT};
use nichols_product::times;
use nichols_reduce::{Normal, normal};
use nichols_text::{push_form, push_number};
use nichols_words::Comb;
use std::alloc::{AllocError, Global};

/// Writes the normal form of `3.1`, and that of its product with `2`.
pub fn put_elements<K: Sink>(alloc: Global, levels: &Levels, sink: &mut K) -> Result<(), Failure> {
    let braid = levels.braid();
    let (memo, mut seat) = Memo::start(alloc, braid, SLOTS_DEFAULT)?;
    let f = element(alloc, braid, "3.1")?;
    let g = element(alloc, braid, "2")?;
    put_normal(alloc, levels, &memo, &mut seat, &f, sink)?;
    put_product(alloc, levels, &memo, &mut seat, &f, &g, sink)
}

/// The element that a text spells.
#[tactic(auto, using(nichols_tensor::proofs::Letters::up_to_length))]
fn element(alloc: Global, braid: &Braid, text: &str) -> Result<Comb, Failure>
    ensures letters { IfOk result (IsOver braid.now.letters) }
    ensures elements { IfOk result (AllElements braid.now.field) }
{
    let _field = braid.field();
    let order = Order::plain(braid.letters());
    let element = read_expression(alloc, braid, &order, text)?;
    Ok(element)
}

/// Writes the normal form of an element.
fn put_normal<K: Sink>(
    alloc: Global,
    levels: &Levels,
    memo: &Memo,
    seat: &mut MemoSeat,
    f: &Comb,
    sink: &mut K,
) -> Result<(), Failure>
    requires memo { braid_of memo.now ≡ levels.now.braid }
    requires seat { IsOf memo.now seat.old }
    requires letters { IsOver levels.now.braid.letters f.now }
    requires elements { AllElements levels.now.braid.field f.now }
    ensures seat { IsOf memo.now seat.new }
    ensures written { OnOk result (Appends (K.taken sink.old) (K.taken sink.new) (answer_line levels.now.braid.field (up_to levels.now.braid.letters) (codes "normal form") (normal_of levels.now.braid levels.now.last f.now))) }
{
    let answer = normal(alloc, levels, memo, seat, f)?;
    put_answer(alloc, levels.braid(), "normal form", &answer, sink)
}

/// Writes the product of two elements.
fn put_product<K: Sink>(
    alloc: Global,
    levels: &Levels,
    memo: &Memo,
    seat: &mut MemoSeat,
    f: &Comb,
    g: &Comb,
    sink: &mut K,
) -> Result<(), Failure>
    requires memo { braid_of memo.now ≡ levels.now.braid }
    requires seat { IsOf memo.now seat.old }
    requires left_letters { IsOver levels.now.braid.letters f.now }
    requires left_elements { AllElements levels.now.braid.field f.now }
    requires right_letters { IsOver levels.now.braid.letters g.now }
    requires right_elements { AllElements levels.now.braid.field g.now }
    ensures seat { IsOf memo.now seat.new }
    ensures written { OnOk result (Appends (K.taken sink.old) (K.taken sink.new) (answer_line levels.now.braid.field (up_to levels.now.braid.letters) (codes "product") (normal_of_product levels.now.braid levels.now.last (f.now ∷ g.now ∷ [])))) }
{
    let answer = times(alloc, levels, memo, seat, f, g)?;
    put_answer(alloc, levels.braid(), "product", &answer, sink)
}

/// Writes what is known of a normal form.
fn put_answer<K: Sink>(
    alloc: Global,
    braid: &Braid,
    name: &str,
    answer: &Normal,
    sink: &mut K,
) -> Result<(), Failure>
    ensures { OnOk result (Appends (K.taken sink.old) (K.taken sink.new) (answer_line braid.now.field (up_to braid.now.letters) name.now answer.now)) }
{
    let field = braid.field();
    let order = Order::plain(braid.letters());
    let text = answer_text(alloc, field, &order, name, answer)?;
    if put_all(sink, text.as_slice()) {
        Ok(())
    } else {
        Err(Failure::Unwritten)
    }
}

/// The line of a normal form.
#[tactic(auto, unfolding(crate::specs::Lines::answer_line))]
fn answer_text(
    alloc: Global,
    field: Field,
    order: &Order,
    name: &str,
    answer: &Normal,
) -> Result<Vec<u8>, AllocError>
    ensures { IfOk result (λ text. text.items ≡ answer_line field order.now name.now answer.now) }
{
    let mut out = Vec::from_slice(alloc, name.as_bytes())?;
    match answer {
        Normal::Form(form) => {
            out.extend_from_slice(b" = ")?;
            push_form(&mut out, field, order, form)?;
        }
        Normal::Beyond(last) => {
            out.extend_from_slice(b" is beyond degree ")?;
            push_number(&mut out, u64::from(*last))?;
        }
    }
    out.extend_from_slice(b"\n")?;
    Ok(out)
}
