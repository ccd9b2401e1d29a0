//! Random steps, beside the pure machine.

ghost use Rattle.std.specs.Prelude.{◌≡◌, ◌<◌, length};
ghost use Rattle.nichols_shelf.specs.Passes.{IsOf, plan_of, view_of};
ghost use Rattle.nichols_shelf.specs.Played.{KeepsNumbers};

use crate::tests::player::Player;
use crate::tests::setting::{Dice, Pure};
use crate::{Asked, Shelf};
use nichols_core::{Event, Stage};
use std::process::Abort;

/// One step that the dice choose, if it is allowed; each answer is that of the pure machine.
pub(crate) fn step_with<R: Abort>(
    rt: &R,
    shelf: &Shelf,
    player: &mut Player,
    pure: &mut Pure,
    worker: u32,
    dice: &mut Dice,
)
    requires shelf { IsOf shelf.now player.old.pass }
    requires layout { pure.old.layout ≡ (plan_of shelf.now).layout }
    requires blocks { length pure.old.layout.degrees ≡ 9 }
    requires worker { worker < 2 }
    ensures shelf { IsOf shelf.now player.new.pass }
    ensures numbers { KeepsNumbers (view_of player.old.pass) (view_of player.new.pass) }
    ensures layout { pure.new.layout ≡ pure.old.layout }
{
    let block = dice.below(9);
    let letter = 1 + dice.below(3) as u8;
    match dice.below(6) {
        0 => {
            let ready = pure.stage(block) == Stage::Ready;
            assert!(rt; player.take(shelf, block) == ready, "take {block}");
            assert!(rt; pure.apply(Event::Take { worker, block }));
        }
        1 => {
            if let Some(asked) = player.ask(shelf, block, letter) {
                let event = Event::Ask {
                    worker,
                    block,
                    letter,
                };
                assert!(rt; pure.apply(event), "ask {block}");
                let held = pure.stage(block) == Stage::Held(worker);
                assert!(rt; (asked == Asked::Published) == held, "ask {block}");
            }
        }
        2 => {
            if player.pick(shelf, block, letter).is_some() {
                let event = Event::Pick {
                    worker,
                    block,
                    letter,
                };
                assert!(rt; pure.apply(event), "pick {block}");
            }
        }
        3 => {
            if player.lay(shelf, block, letter) {
                let event = Event::Lay {
                    worker,
                    block,
                    letter,
                };
                assert!(rt; pure.apply(event), "lay {block}");
            }
        }
        4 => {
            if player.publish(shelf, block).is_some() {
                assert!(rt;
                    pure.apply(Event::Publish { worker, block }),
                    "publish {block}"
                );
            }
        }
        _ => {
            let was = pure.stage(block) == Stage::Resumed(worker);
            assert!(rt; player.release(shelf, block) == was, "release {block}");
            if was {
                assert!(rt; pure.apply(Event::Release { worker, block }));
            }
        }
    }
}
