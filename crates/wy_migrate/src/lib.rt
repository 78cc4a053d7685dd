//! A trace that was read is handed to a recorder as the run that it is of was: its head, its events in order, and its end.
//! So it is written anew, as the recorder spells it. Nothing here reads a file or knows how a trace is spelled.
#![tactic(auto)]

mod error;
mod migrating;

pub use error::MigrationError;
pub use migrating::migrate;
