//! Who is handed the events of a run: the trait of recorders, one that keeps nothing, one that keeps the events and one that
//! compares them with those that are expected.
#![tactic(auto)]

mod compare;
mod memory;
mod quiet;
mod recorder;
mod same;

pub use compare::CompareRecorder;
pub use memory::{MemoryRecorder, keep};
pub use quiet::QuietRecorder;
pub use recorder::{Phase, RecordError, Recorder};
pub use same::same_event;
