//! A pass with marks of what it knows.

ghost use Rattle.nichols_shelf.specs.Played.{Mirrors};

use crate::Pass;

/// A pass, with marks of what it knows, so that a test can ask at run time whether a call is allowed. It lays want of memory alone.
#[derive(Drop)]
pub(crate) struct Player {
    pub pass: Pass,
    pub held: Vec<bool>,
    pub resumed: Vec<bool>,
    pub known: Vec<bool>,
    pub picked: Vec<bool>,
    pub laid: Vec<bool>,
    ghost mirrors: { Mirrors held.items resumed.items known.items picked.items laid.items pass.place.me.0 },
}
