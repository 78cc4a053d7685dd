//! A session of questions to one trace: an event that is looked at, steps through an answer, and steps
//! back. Nothing here reads or writes a text but the lines of commands.
#![tactic(auto)]

mod apply;
mod command;
pub mod explorer;
pub mod laws;
pub mod reply;
mod search;

pub use explorer::{Answered, Change, Explorer};
pub use reply::Reply;
