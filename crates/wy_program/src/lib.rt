//! A program that keeps in its type what holds of every program of a text.
#![tactic(auto)]

mod laws;
pub mod opening;
pub mod source;
mod typed;

pub use laws::texts_are_programs;
pub use opening::{OpenTrace, OpeningError, trace_of_bytes};
pub use source::{SourceError, program_of_source};
pub use typed::{TypedProgram, typed_program};
