//! The table, its rule and the kinds of step.

use crate::Entry;
use crate::view::View;
use atomic_table::{Join, Play, Seat, Split, Table, TableRule};
use nichols_braid::Braid;
use std::alloc::Global;

/// What a slot holds: a word with its form, or nothing.
pub(crate) type Slot = Option<Entry>;

/// Between any two steps each slot is at home under a free turn, or out with the one seat that holds its turn; what is at home is
/// a word with its normal form.
pub(crate) struct TakesTurns;

impl TableRule<Slot, View, Braid> for TakesTurns {
    ghost use Rattle.nichols_memo.specs.Rule.{Holds};
    ghost use Rattle.nichols_memo.specs.Views.{first_view};

    ghost holds = { Holds };

    ghost first = { first_view };
}

pub(crate) type Board = Table<Slot, View, Braid, TakesTurns, Global>;

pub(crate) type Place = Seat<Slot, View>;

/// A compare and exchange of a slot's turn, from free to held, by which the slot comes out.
pub(crate) struct Try;

impl Play<Slot, View> for Try {
    ghost use Rattle.nichols_memo.specs.Steps.{try_step};

    ghost then = { try_step };
}

/// A swap of a slot's turn, from held to free, by which the slot goes home.
pub(crate) struct Back;

impl Play<Slot, View> for Back {
    ghost use Rattle.nichols_memo.specs.Steps.{back_step};

    ghost then = { back_step };
}

/// A new seat beside one that stays as it is.
pub(crate) struct Newcomer;

impl Split<View> for Newcomer {
    ghost use Rattle.nichols_memo.specs.Views.{newcomer};

    ghost left = { λ v. v };

    ghost right = { newcomer };
}

/// Another seat, which is then no seat any more.
pub(crate) struct Return;

impl Join<View> for Return {
    ghost use Rattle.nichols_memo.specs.Views.{spent_view};

    ghost both = { λ v _. v };

    ghost spent = { spent_view };
}
