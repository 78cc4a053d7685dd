//! Why the guards around a statement were not passed within one call: regions of the program, the links between them, and
//! which of them the events of the call's scope passed. Nothing here reads what is known of the whole run's statements.
#![tactic(auto)]

mod answer;
mod evidence;
mod graph;
pub mod item;
pub mod laws;
mod passed;
mod passing;
mod region;
mod scope;

pub use answer::scoped;
pub use item::{ScopeError, ScopeItem};
