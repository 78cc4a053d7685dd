//! What stands of the calls of a run: the bodies that run with their locals, the events that are active, and the method that a
//! class runs. Nothing here reads a form or records an event.
#![tactic(auto)]

mod calls;
mod entry;
mod error;
mod frame;
mod lookup;
mod parts;
mod signature;

pub use calls::{Calls, Scope};
pub use error::CallError;
pub use lookup::Dispatcher;
