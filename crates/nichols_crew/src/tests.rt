use super::*;
use nichols_block::Shared;
use std::test::Fail;

/// What may move to another thread and be shared with it.
fn may_cross_threads<T: Send + Sync + Drop>(_value: T) {}

/// A check of the types alone: no thread is started.
#[test]
fn gates_and_entries_may_cross_threads(_rt: HostRuntime) -> Result<(), Fail> {
    may_cross_threads(OpenGate::new());
    may_cross_threads(Made {
        block: 0,
        value: Shared::Starved,
    });
    Ok(())
}
