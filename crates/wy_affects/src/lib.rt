//! What an event of a trace affects: the later events that come from it, and those that come from it by data.
//! Nothing here names a line of the text.
#![tactic(auto)]

pub mod affected;
mod given;
mod pass;

pub use affected::{Affected, affects};
