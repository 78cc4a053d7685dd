//! The records of a trace that stays on its shelf: a block of it is read when an event of the block is asked for, and
//! the blocks asked for last are kept.
#![tactic(auto)]

mod block;
mod error;
mod front;
mod marks;
mod noting;
mod opening;
mod pages;
mod view;

pub use error::PageError;
pub use front::fronts_begin_traces;
pub use pages::Pages;
pub use view::{Over, PagedView};
