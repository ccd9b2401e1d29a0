//! Waves that have ended.

use nichols_shelf::Closed;
use nichols_value::Shared;

/// The values of a wave's blocks, in block order, and the closed shelf through which they went.
#[derive(Drop)]
pub struct Wave {
    pub values: Vec<Shared>,
    pub closed: Closed,
}
