//! Passes: each is one worker's seat at the shelf.

ghost use Rattle.nichols_shelf.specs.Stored.{IsStored};

use crate::board::Place;
use crate::owed::Owed;

/// A worker's seat at a shelf, with what it knows (`View`).
///
/// It keeps its worker number, what it owes, and, for worker 0, how many passes there have been. All else that it knows is for
/// contracts alone.
#[derive(Drop)]
pub struct Pass {
    pub(crate) place: Place,
    pub(crate) worker: u32,
    pub(crate) passes: u32,
    pub(crate) owed: Owed,
    ghost stored: { IsStored worker passes owed place.me.0 place.me.1 },
}
