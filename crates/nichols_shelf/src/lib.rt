//! The shelf: the machine on words and slots that threads share, changed in single atomic steps.
#![tactic(auto)]

mod asked;
mod board;
mod calls;
mod closed;
mod closing;
mod joining;
pub mod laws;
mod opening;
mod owed;
mod pass;
mod plan;
mod readers;
mod seats;
mod shelf;
mod slots;
mod tables;
mod view;

pub use asked::Asked;
pub use closed::Closed;
pub use pass::Pass;
pub use plan::Plan;
pub use shelf::Shelf;
pub use view::View;

#[cfg(test)]
mod tests;
