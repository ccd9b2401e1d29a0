//! Sources of bytes and sinks for them, with the reading of a whole source and the writing of a whole piece.
#![tactic(auto)]

pub use memory_sink::MemorySink;
pub use memory_source::MemorySource;
pub use sinks::{Put, Sink};
pub use sources::{Got, Source};
pub use standard::{StdSink, StdSource};
pub use steady_source::SteadySource;
pub use whole_source::{ReadFault, read_all};
pub use writing::put_all;

pub mod memory_sink;
pub mod memory_source;
pub mod sinks;
pub mod sources;
pub mod standard;
pub mod steady_source;
#[cfg(test)]
mod tests;
pub mod whole_source;
pub mod writing;
