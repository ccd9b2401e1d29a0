//! Closed shelves.

ghost use Rattle.nichols_shelf.specs.Ended.{AreMarked};

use crate::board::Place;
use crate::plan::Plan;
use std::snapshot::Snapshot;

/// A shelf that was closed, with what its last pass knew. `Shelf::close` alone makes one.
#[derive(Drop)]
pub struct Closed {
    pub(crate) plan: Plan,
    pub(crate) marks: Vec<bool>,
    pub(crate) last: Snapshot<Place>,
    ghost marked: { AreMarked plan marks.items last.value.me.0 },
}
