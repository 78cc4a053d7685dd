//! The outside as a program sees it: named files to read, an input to take, an output to write to.
//! Each is a trait whose clauses are all that the layers above rest on. The forms in memory tell
//! every byte, but for the shelf of which a file changes, and fail at the calls that they are told to;
//! the real forms are the trusted edge.
#![tactic(auto)]

pub mod count;
pub mod failing;
pub mod memory;
mod piece;
pub mod real;
pub mod shelf;
pub mod sink;
pub mod source;
