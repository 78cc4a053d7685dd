//! The whole program: from the words and the files to the bytes that are written and the status.
//! The real files and streams are handed in by the caller; nothing here opens one.
#![tactic(auto)]

mod answer;
mod checking;
mod delivery;
mod exploring;
mod files;
pub mod laws;
mod migrating;
mod opening;
mod paged;
mod recorders;
pub mod rewritten;
mod shelved;
mod source;
pub mod top;
mod trace;

pub use recorders::Recorders;
pub use top::whyline;
