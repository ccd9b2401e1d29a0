//! The table, its rule and the kinds of step.

use crate::plan::Plan;
use crate::view::View;
use atomic_table::{Join, Play, Seat, Split, Table, TableRule};
use nichols_value::Shared;
use std::alloc::Global;

/// What the slot of an edge holds: the value that was laid there, or none.
pub(crate) type Slot = Option<Shared>;

/// Between any two steps the table stands for a state of the machine that meets the six laws.
pub(crate) struct StandsForAState;

impl TableRule<Slot, View, Plan> for StandsForAState {
    ghost use Rattle.nichols_shelf.specs.Stands.{Holds};
    ghost use Rattle.nichols_shelf.specs.Views.{first_view};

    ghost holds = { Holds };

    ghost first = { first_view };
}

pub(crate) type Board = Table<Slot, View, Plan, StandsForAState, Global>;

pub(crate) type Place = Seat<Slot, View>;

/// A compare and exchange of a desk word, from ready to taken.
pub(crate) struct Take;

impl Play<Slot, View> for Take {
    ghost use Rattle.nichols_shelf.specs.Steps.{take_step};

    ghost then = { take_step };
}

/// A swap of a desk word, from taken to ready.
pub(crate) struct Release;

impl Play<Slot, View> for Release {
    ghost use Rattle.nichols_shelf.specs.Steps.{release_step};

    ghost then = { release_step };
}

/// A bit that is set in the wait word of the lower block of an edge.
pub(crate) struct Ask;

impl Play<Slot, View> for Ask {
    ghost use Rattle.nichols_shelf.specs.Steps.{ask_step};

    ghost then = { ask_step };
}

/// The last bit, set in the wait word of a block.
pub(crate) struct Publish;

impl Play<Slot, View> for Publish {
    ghost use Rattle.nichols_shelf.specs.Steps.{publish_step};

    ghost then = { publish_step };
}

/// A swap of an edge's word by which its empty slot comes out.
pub(crate) struct Draw;

impl Play<Slot, View> for Draw {
    ghost use Rattle.nichols_shelf.specs.Steps.{draw_step};

    ghost then = { draw_step };
}

/// A swap of an edge's word by which its slot goes home with a value.
pub(crate) struct Lay;

impl Play<Slot, View> for Lay {
    ghost use Rattle.nichols_shelf.specs.Steps.{lay_step};

    ghost then = { lay_step };
}

/// A swap of an edge's word by which its slot comes out with a value.
pub(crate) struct Pick;

impl Play<Slot, View> for Pick {
    ghost use Rattle.nichols_shelf.specs.Steps.{pick_step};

    ghost then = { pick_step };
}

/// A new worker beside worker 0.
pub(crate) struct Newcomer;

impl Split<View> for Newcomer {
    ghost use Rattle.nichols_shelf.specs.Views.{one_more, newcomer};

    ghost left = { one_more };

    ghost right = { newcomer };
}

/// Another worker, whom worker 0 then stands for.
pub(crate) struct Return;

impl Join<View> for Return {
    ghost use Rattle.nichols_shelf.specs.Views.{joined_view, spent_view};

    ghost both = { joined_view };

    ghost spent = { spent_view };
}
