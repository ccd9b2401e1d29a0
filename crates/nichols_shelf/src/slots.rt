//! The steps that a pass makes on the words of edges, by which values change hands.

ghost use Rattle.std.specs.Prelude.{◌≡◌, ℕ, ◌<◌, ◌∷◌, Some, None};
ghost use Rattle.nichols_value.specs.Worth.{worth};
ghost use Rattle.nichols_shelf.specs.Plan.{IsRightFor};
ghost use Rattle.nichols_shelf.specs.Places.{edges, edge, edge_place};
ghost use Rattle.nichols_shelf.specs.Views.{draw_view, lay_view, pick_view};
ghost use Rattle.nichols_shelf.specs.Passes.{IsOf, plan_of, view_of};
ghost use Rattle.nichols_shelf.specs.Moves.{CanPick, CanLay};
ghost use Rattle.nichols_shelf.specs.Calls.{MayPick, PicksUp, MayLay, LaysDown};

use crate::board::{Draw, Lay, Pick, Place};
use crate::pass::Pass;
use crate::shelf::Shelf;
use nichols_value::Shared;

const DRAWN: u64 = 1;

const LAID: u64 = 2;

const PICKED: u64 = 3;

impl Shelf {
    /// The value of the lower block of the edge of that letter into the task, which changes hands: it is at the edge no longer.
    pub fn pick(&self, pass: &mut Pass, task: u32, letter: u8) -> Shared
        requires pass { IsOf self.now pass.old }
        requires may { MayPick (plan_of self.now) task letter (view_of pass.old) }
        ensures pass { IsOf self.now pass.new }
        ensures step { PicksUp (plan_of self.now) task letter (view_of pass.old) (view_of pass.new) (worth result) }
    {
        let number = self.entry(task, letter);
        self.pick_up(&mut pass.place, number)
    }

    /// Lays the block's value at the edge of that letter out of it. It is two steps: the first takes the edge's slot out, and the
    /// second puts it home with the value.
    pub fn lay(&self, pass: &mut Pass, block: u32, letter: u8, value: Shared)
        requires pass { IsOf self.now pass.old }
        requires may { MayLay (plan_of self.now) block letter (worth value) (view_of pass.old) }
        ensures pass { IsOf self.now pass.new }
        ensures step { LaysDown (plan_of self.now) block letter (view_of pass.old) (view_of pass.new) (worth value) }
    {
        let number = self.exit_(block, letter);
        self.lay_down(&mut pass.place, number, value);
    }

    fn pick_up(&self, place: &mut Place, number: usize) -> Shared
        requires table { place.old.table_id ≡ self.now.board.shared.table_id }
        requires plan { place.old.me.0.plan ≡ plan_of self.now }
        requires number { number < edges (plan_of self.now) }
        requires can { CanPick (plan_of self.now) number place.old.me.0 }
        ensures table { place.new.table_id ≡ place.old.table_id }
        ensures me { (found : ℕ) × (place.new.me ≡ (pick_view (plan_of self.now) number (worth result) found place.old.me.0, (number, None) ∷ place.old.me.1)) }
        ensures right { IsRightFor (plan_of self.now) (edge (plan_of self.now) number).lower (worth result) }
    {
        let shared = &self.board.shared;
        shared.swap::<Pick>(place, self.edge_word(number), PICKED);
        let Some(value) = shared.exchange(place, number, None) else {
            unreachable!();
        };
        value
    }

    fn lay_down(&self, place: &mut Place, number: usize, value: Shared)
        requires table { place.old.table_id ≡ self.now.board.shared.table_id }
        requires plan { place.old.me.0.plan ≡ plan_of self.now }
        requires number { number < edges (plan_of self.now) }
        requires can { CanLay (plan_of self.now) number (worth value) place.old.me.0 }
        ensures table { place.new.table_id ≡ place.old.table_id }
        ensures me { (first : ℕ) × ((second : ℕ) × (place.new.me ≡ (lay_view (plan_of self.now) number (worth value) second (draw_view (plan_of self.now) number first place.old.me.0), place.old.me.1))) }
    {
        let word = self.edge_word(number);
        let shared = &self.board.shared;
        shared.swap::<Draw>(place, word, DRAWN);
        drop(shared.exchange(place, number, Some(value)));
        shared.swap::<Lay>(place, word, LAID);
    }

    /// The place of the edge's word.
    fn edge_word(&self, number: usize) -> usize
        requires { number < edges (plan_of self.now) }
        ensures { result ≡ edge_place (plan_of self.now) number }
    {
        1 + 2 * self.block_count() + number
    }
}
