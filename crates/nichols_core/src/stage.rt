//! The stages of a block.

ghost use Rattle.std.specs.Prelude.{◌≡◌};
ghost use Rattle.nichols_core.specs.Machine.{is_held_by, is_resumed_by, is_published, stage_after_take, stage_after_publication};

/// Where a block stands.
#[derive(Clone, Copy, Debug, PartialEq, Eq, Drop)]
pub enum Stage {
    /// Some worker owes it and may take it.
    Ready,
    /// The worker is making it.
    Held(u32),
    /// Its holder found that this lower block isn't published, and let it go.
    Parked(u32),
    /// The block that it waited for was published by this worker, who has to release it.
    Resumed(u32),
    /// It is made, and its value is at all edges out of it.
    Published,
}

impl Stage {
    /// Whether this worker holds the block.
    pub fn is_held_by(self, worker: u32) -> bool
        ensures { result ≡ is_held_by worker self }
    {
        match self {
            Stage::Held(holder) => holder == worker,
            _ => false,
        }
    }

    /// Whether this worker has to release the block.
    pub fn is_resumed_by(self, worker: u32) -> bool
        ensures { result ≡ is_resumed_by worker self }
    {
        match self {
            Stage::Resumed(resumer) => resumer == worker,
            _ => false,
        }
    }

    /// Whether the block is published.
    pub fn is_published(self) -> bool
        ensures { result ≡ is_published self }
    {
        match self {
            Stage::Published => true,
            _ => false,
        }
    }

    /// The stage once the worker took the block.
    pub(crate) fn after_take(self, worker: u32) -> Stage
        ensures { result ≡ stage_after_take worker self }
    {
        match self {
            Stage::Ready => Stage::Held(worker),
            other => other,
        }
    }

    /// The stage once the worker published that block, which may be the one that this one waits for.
    pub(crate) fn after_publication(self, worker: u32, published: u32) -> Stage
        ensures { result ≡ stage_after_publication worker published self }
    {
        match self {
            Stage::Parked(lower) if lower == published => Stage::Resumed(worker),
            other => other,
        }
    }
}
