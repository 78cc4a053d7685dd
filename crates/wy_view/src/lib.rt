//! The records of a trace, one at a time by their numbers, wherever they are kept; and the counter of steps.
//! Nothing here reads a file.
#![tactic(auto)]

mod memory;
pub mod steps;
mod tally;
pub mod view;

pub use memory::MemoryView;
pub use steps::Steps;
pub use tally::TallyView;
pub use view::{EventView, ViewError};
