//! The shelf machine: blocks that workers take, park, pick from, lay and publish, with no thread in sight.
#![tactic(auto)]

mod around;
pub mod edge;
pub mod event;
pub mod laws;
pub mod layout;
mod marks;
pub mod stage;
pub mod state;

pub use edge::Edge;
pub use event::Event;
pub use layout::Layout;
pub use stage::Stage;
pub use state::State;
