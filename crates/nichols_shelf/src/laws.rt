//! The laws of the shelf, each the contract of a function that does nothing. The first three say that words and views stand for
//! one state, that all live passes hold one plan, and each worker numbers of its own; the next says what a new table stands for, and
//! the nine after it what each kind of step does to that state; the others what words, slots and views show in every such state.

ghost use Rattle.nichols_shelf.specs.Laws.{ATableStandsForOneState, LiveViewsHoldThePlan, WorkerNumbersAreApart, ANewTableStandsForTheStart, ATakeIsItsEvent, AReleaseIsItsEvent, AnAskIsItsEvent, APublicationIsItsEvent, APickIsItsEvent, ADrawLeavesTheState, ALayingIsItsEvent, ASplitLeavesTheState, AJoinPassesDebts, ValuesAreRight, ABlockHasOneValue, APublishedBlockWasMadeOnce, NothingElseWasMade};

/// Words and views stand for one state alone of those that meet the six laws, wherever the slots are: each block has one stage by them.
pub fn a_table_stands_for_one_state()
    ensures { ATableStandsForOneState }
{}

/// All live passes hold one plan, that of the shelf: its braid, layout, keys and rows limit.
pub fn live_views_hold_the_plan()
    ensures { LiveViewsHoldThePlan }
{}

/// Two live passes never stand for the same worker number.
pub fn worker_numbers_are_apart()
    ensures { WorkerNumbersAreApart }
{}

/// The words, slots and views of a new table stand for the start of the machine: every block is ready and owed by worker 0, and no
/// edge is laid or picked.
pub fn a_new_table_stands_for_the_start()
    ensures { ANewTableStandsForTheStart }
{}

/// A take changes the state as the event Take does.
pub fn a_take_is_its_event()
    ensures { ATakeIsItsEvent }
{}

/// A release changes the state as the event Release does.
pub fn a_release_is_its_event()
    ensures { AReleaseIsItsEvent }
{}

/// An ask changes the state as the event Ask does.
pub fn an_ask_is_its_event()
    ensures { AnAskIsItsEvent }
{}

/// A publication changes the state as the event Publish does. Any empty slots of edges that the pass picked go home.
pub fn a_publication_is_its_event()
    ensures { APublicationIsItsEvent }
{}

/// A pick changes the state as the event Pick does.
pub fn a_pick_is_its_event()
    ensures { APickIsItsEvent }
{}

/// A draw leaves the state.
pub fn a_draw_leaves_the_state()
    ensures { ADrawLeavesTheState }
{}

/// A laying changes the state as the event Lay does.
pub fn a_laying_is_its_event()
    ensures { ALayingIsItsEvent }
{}

/// A split leaves the state.
pub fn a_split_leaves_the_state()
    ensures { ASplitLeavesTheState }
{}

/// A join gives worker 0 what the other worker owed, and leaves all else.
pub fn a_join_passes_debts()
    ensures { AJoinPassesDebts }
{}

/// Every value in a slot at home, and every value that a live pass notes, is right for its block.
pub fn values_are_right()
    ensures { ValuesAreRight }
{}

/// The value at home at an edge, the value that was picked from one and the value that was laid at one are equal, where the edges go
/// out of the same block.
pub fn a_block_has_one_value()
    ensures { ABlockHasOneValue }
{}

/// A published block stands once in what one live pass made, and in what no other did.
pub fn a_published_block_was_made_once()
    ensures { APublishedBlockWasMadeOnce }
{}

/// A block that a live pass made is published.
pub fn nothing_else_was_made()
    ensures { NothingElseWasMade }
{}
