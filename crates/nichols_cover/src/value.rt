//! What is known of a quadratic cover.

use std::marker::Model;

/// The dimensions of a cover, and where it stopped.
#[derive(Drop)]
pub struct Cover {
    /// The dimension of each degree from 0 on: up to the last one asked for, or to the one before the stop.
    pub dimensions: Vec<u64>,
    /// The first degree that has more candidates than the limit allows.
    pub stop: Option<CoverStop>,
}

/// A degree with too many candidates.
#[derive(Clone, Copy, Debug, PartialEq, Eq)]
pub struct CoverStop {
    pub degree: u32,
    /// The number of its candidates: the least words of the degree below, each with a letter behind.
    pub count: u64,
}

impl Model for CoverStop {
    ghost use Rattle.nichols_cover.specs.Cover.{StopValue};

    ghost Value = { StopValue };

    ghost view = { λ s. record { degree = s.degree; count = s.count } };

    ghost inverse = { λ s. record { degree = s.degree; count = s.count } };
}

impl Model for Cover {
    ghost use Rattle.nichols_cover.specs.Cover.{CoverValue};

    ghost Value = { CoverValue };

    ghost view = { λ c. record { dimensions = c.dimensions.items; stop = c.stop } };
}
