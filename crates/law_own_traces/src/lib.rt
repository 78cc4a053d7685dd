//! The trace of a run keeps every rule of a reader, and the program of a text is as that asks: so a run's own trace is read, and
//! never refused, and its bytes tell all of its events; and it keeps the library. The functions do nothing: their contracts are the laws.
#![tactic(auto)]

mod library;
mod texts;
mod traces;

pub use library::programs_keep_the_library;
pub use texts::{trees_fit_their_texts, trees_have_few_statements};
pub use traces::{
    own_events_are_told, own_traces_are_read, own_traces_are_short, own_traces_keep_rules,
};
