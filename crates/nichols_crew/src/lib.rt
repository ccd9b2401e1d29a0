//! The blocks of a wave of degrees, made by several workers who share a shelf.
//!
//! Want of memory inside a worker is always a value; elsewhere `AllocError` says that there was no memory.
#![tactic(auto)]

mod asking;
mod ended;
mod gate;
mod gathering;
mod hand;
mod laying;
mod made;
mod making;
mod opening;
mod picking;
mod publishing;
mod releasing;
mod running;
mod seeking;
mod tending;
mod waiting;
mod waving;
mod working;

pub use ended::Wave;
pub use gate::{Gate, OpenGate};
pub use made::Made;
pub use nichols_shelf::Closed;
pub use waving::wave;
pub use working::work;

#[cfg(test)]
mod tests;
