//! What the frames of a trace hold, read field by field from left to right, up to the first rule that is broken.
//! Nothing here knows where a frame lies or what stands behind it.
#![tactic(auto)]

pub mod closing;
pub mod event;
pub mod fault;
pub mod field;
pub mod known;
mod newline;
pub mod print;
pub mod ranges;
mod reads;
mod rules;
pub mod slot;
pub mod value;

pub use reads::ranges_of_program;
