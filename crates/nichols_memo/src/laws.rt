//! The laws of the memo, each the contract of a function that does nothing. The first three say what its table shows between any two
//! steps, however the steps of several seats follow each other; the others that a new table meets its rule, and that each kind of step
//! keeps it.

ghost use Rattle.nichols_memo.specs.Laws.{LiveSeatsHoldOneBraid, EntriesAtHomeAreNormalForms, ATurnIsHeldWhereOneSeatHasTheSlot, ANewMemoIsEmpty, ATryKeepsTheRule, ABackKeepsTheRule, ASplitKeepsTheRule, AJoinKeepsTheRule};

/// All live seats know one braid, that of the memo.
pub fn live_seats_hold_one_braid()
    ensures { LiveSeatsHoldOneBraid }
{}

/// An entry in a slot at home is a word with its normal form.
pub fn entries_at_home_are_normal_forms()
    ensures { EntriesAtHomeAreNormalForms }
{}

/// A turn is free or held; it is held exactly where one live seat has its slot out.
pub fn a_turn_is_held_where_one_seat_has_the_slot()
    ensures { ATurnIsHeldWhereOneSeatHasTheSlot }
{}

/// A new table, whose turns are free and whose slots are empty, meets the rule.
pub fn a_new_memo_is_empty()
    ensures { ANewMemoIsEmpty }
{}

/// A try keeps the rule: the slot comes out where its turn was free, and nothing but what the seat knows changes where it wasn't.
pub fn a_try_keeps_the_rule()
    ensures { ATryKeepsTheRule }
{}

/// A back keeps the rule: the slot goes home, and its turn is free.
pub fn a_back_keeps_the_rule()
    ensures { ABackKeepsTheRule }
{}

/// A split keeps the rule: the new seat has no slot out.
pub fn a_split_keeps_the_rule()
    ensures { ASplitKeepsTheRule }
{}

/// A join keeps the rule: the other seat is one no more.
pub fn a_join_keeps_the_rule()
    ensures { AJoinKeepsTheRule }
{}
