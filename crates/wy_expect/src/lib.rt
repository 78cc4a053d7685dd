//! What a run printed beside what was expected of it: the first print that is another, with all that it comes from, or the prints that
//! never ran and why. Nothing here reads a trace or works out an answer.
#![tactic(auto)]

pub mod laws;
mod line;
mod missing;
mod plain;
mod printers;
mod text;
mod walk;

pub use text::expect_text;
