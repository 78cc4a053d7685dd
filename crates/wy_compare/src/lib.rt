//! Two runs of one source: where they part in all that is recorded, where their paths part, and what is written of it.
//! Nothing here reads a trace or works out an answer.
#![tactic(auto)]

pub mod laws;
mod line;
mod look;
mod parting;
mod text;

pub use look::Look;
pub use parting::first_part;
pub use text::{diff_text, ends_alike};
