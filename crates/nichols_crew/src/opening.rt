//! The hands of a crew, before the first take.

ghost use Rattle.std.specs.Prelude.{◌≡◌, ◌≤◌, IfOk};
ghost use Rattle.nichols_shelf.specs.Passes.{IsOf, plan_of, view_of};
ghost use Rattle.nichols_shelf.specs.Views.{first_view};
ghost use Rattle.nichols_crew.specs.Hands.{AreFresh, HasMadeNothing, IsReadyHand};

use crate::hand::Hand;
use nichols_shelf::{Pass, Shelf};
use std::alloc::{AllocError, Global};

/// So many hands: those of the workers from 1 on, in order, and behind them that of worker 0.
pub(crate) fn open_hands(
    alloc: Global,
    shelf: &Shelf,
    mut pass: Pass,
    workers: u32,
) -> Result<Vec<Hand>, AllocError>
    requires pass { IsOf shelf.now pass }
    requires first { view_of pass ≡ first_view (plan_of shelf.now) }
    requires some { 1 ≤ workers }
    ensures { IfOk result (λ hs. AreFresh shelf.now workers hs.items) }
{
    let mut hands = Vec::with_capacity(alloc, workers as usize)?;
    for worker in 1..workers {
        let _number = worker;
        let other = shelf.split(alloc, &mut pass)?;
        hands.push(fresh(alloc, shelf, other)?)?;
    }
    hands.push(fresh(alloc, shelf, pass)?)?;
    Ok(hands)
}

/// A hand whose pass has made nothing, with room for every block.
fn fresh(alloc: Global, shelf: &Shelf, pass: Pass) -> Result<Hand, AllocError>
    requires pass { IsOf shelf.now pass }
    requires nothing { HasMadeNothing (view_of pass) }
    ensures ready { IfOk result (λ h. IsReadyHand shelf.now h) }
    ensures view { IfOk result (λ h. view_of h.pass ≡ view_of pass) }
{
    let count = shelf.layout().degrees.len();
    let made = Vec::with_capacity(alloc, count)?;
    Ok(Hand { pass, made })
}
