//! Time travel: the frames at an event of a trace, their locals, and what a slot held, all as they stood just before it.
//! Nothing here reads a text or names a line of one.
#![tactic(auto)]

mod first;
pub mod frames;
mod locals;
pub mod slots;

pub use frames::{Frame, State, state_at};
pub use locals::frame_body;
pub use slots::held;
