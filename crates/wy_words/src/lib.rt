//! The words of the command line, as what they ask.
#![tactic(auto)]

mod asking;
mod commands;
pub mod laws;
mod number;
mod table;
mod words;

pub use commands::{Asked, Command, Request};
pub use words::command;
