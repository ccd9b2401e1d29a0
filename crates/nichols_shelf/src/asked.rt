//! Answers to an ask.

ghost use Rattle.std.specs.Prelude.{◌≡◌};
ghost use Rattle.nichols_shelf.specs.Calls.{asked_of};

/// What a pass is told of the lower block that it asked for.
#[derive(Clone, Copy, Debug, PartialEq, Eq, Drop)]
pub enum Asked {
    /// It is published.
    Published,
    /// It isn't, and the task is parked: the pass holds it no longer.
    Parked,
}

impl Asked {
    /// Whether the lower block is published.
    pub fn is_published(self) -> bool
        ensures { self ≡ asked_of result }
    {
        match self {
            Asked::Published => true,
            Asked::Parked => false,
        }
    }
}
