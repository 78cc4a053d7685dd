//! Reads the frame of one event back from bytes of a trace that was read before, without the program and without
//! the events before it: only the spelling and the bounds of numbers are looked at.
#![tactic(auto)]

mod event;
mod field;
mod frame;
mod slot;
mod value;

pub use frame::read_event;
