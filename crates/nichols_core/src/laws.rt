//! The laws of the machine, each the contract of a function that does nothing. Those on runs are for every layout
//! and every list of events from the start. The first two say what the tests of the definitions mean, and the
//! third what an event changes, in any state. That events keep the six laws, that debts may pass and be taken
//! over, and the last law are for every state that meets the six laws.

ghost use Rattle.nichols_core.specs.Conditions.{AnEdgeIsFoundByItsLetter, AConditionIsWhatItAsks};
ghost use Rattle.nichols_core.specs.Changes.{AnEventChangesThisAlone, DebtsMayPass, AWorkerMayTakeOverDebts};
ghost use Rattle.nichols_core.specs.Runs.{EveryEventKeepsTheSixLaws, EveryRunMeetsTheSixLaws, ABlockHasOneHolder, ABlockIsPublishedOnce, APublishedBlockStaysSo, EachParkingIsResumedOnce, EachResumptionIsReleasedOnce, APublicationResumesWhatWaits, APickerHoldsUntilPublication, AnEdgeIsPickedOnce, AnEdgeIsLaidOnce, WhereNothingIsOwedAllIsPublished};

/// An edge is the one of its letter into its upper block, and the one of its letter out of its lower block.
pub fn an_edge_is_found_by_its_letter()
    ensures { AnEdgeIsFoundByItsLetter }
{}

/// The test of an event's condition passes exactly where the stages and edges are as the condition asks.
pub fn a_condition_is_what_it_asks()
    ensures { AConditionIsWhatItAsks }
{}

/// Where the condition of an event holds, this is all that it changes, and all else stays. Take: a ready block
/// is held by the worker, who in either case no longer owes the block. Ask: where the lower block isn't
/// published, the block is parked on it. Pick: the edge is picked. Lay: the edge is laid. Publish: the block is
/// published, and every block that is parked on it is resumed by the worker. Release: the block is ready, and
/// the worker owes it. Where the condition doesn't hold, nothing changes.
pub fn an_event_changes_this_alone()
    ensures { AnEventChangesThisAlone }
{}

/// Every event keeps the six laws: ready is owed; parked waits for an unpublished block; picked is laid below
/// a published block; laid by a holder that picked everything; published is complete; untouched before it is
/// held.
pub fn every_event_keeps_the_six_laws()
    ensures { EveryEventKeepsTheSixLaws }
{}

/// A state that meets the six laws still does once debts passed from worker to worker, if whatever was owed is
/// owed by somebody and all else stayed.
pub fn debts_may_pass()
    ensures { DebtsMayPass }
{}

/// A worker may take over all that another one owes: that keeps the six laws.
pub fn a_worker_may_take_over_debts()
    ensures { AWorkerMayTakeOverDebts }
{}

/// The six laws hold after every list of events.
pub fn every_run_meets_the_six_laws()
    ensures { EveryRunMeetsTheSixLaws }
{}

/// At most one worker holds a block. This follows from the form of a state alone, in which a block has one
/// stage.
pub fn a_block_has_one_holder()
    ensures { ABlockHasOneHolder }
{}

/// As many events publish a block as it is published: one or none.
pub fn a_block_is_published_once()
    ensures { ABlockIsPublishedOnce }
{}

/// A published block stays published, whatever events follow.
pub fn a_published_block_stays_so()
    ensures { APublishedBlockStaysSo }
{}

/// A block is parked as often as it is resumed, and once more where it is parked.
pub fn each_parking_is_resumed_once()
    ensures { EachParkingIsResumedOnce }
{}

/// A block is resumed as often as it is released, and once more where it is resumed.
pub fn each_resumption_is_released_once()
    ensures { EachResumptionIsReleasedOnce }
{}

/// The publication of a block resumes every block that is parked on it.
pub fn a_publication_resumes_what_waits()
    ensures { APublicationResumesWhatWaits }
{}

/// From the first pick of a block to its publication the worker who picked holds it.
pub fn a_picker_holds_until_publication()
    ensures { APickerHoldsUntilPublication }
{}

/// As many events pick an edge as it is picked: one or none.
pub fn an_edge_is_picked_once()
    ensures { AnEdgeIsPickedOnce }
{}

/// As many events lay an edge as it is laid: one or none.
pub fn an_edge_is_laid_once()
    ensures { AnEdgeIsLaidOnce }
{}

/// In every state that meets the six laws, also in one that no list of events gives: where no block is held or
/// resumed and no worker owes a block, every block is published. So no resumption is lost.
pub fn where_nothing_is_owed_all_is_published()
    ensures { WhereNothingIsOwedAllIsPublished }
{}
