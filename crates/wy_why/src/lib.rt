//! Why: all that an event of a trace comes from, and what it comes from by data; and the sources of an event.
//! Nothing here names a line of the text.
#![tactic(auto)]

pub mod answer;
mod mark;
pub mod source;
mod walk;

pub use answer::{Answer, first_marks, why};
pub use mark::Mark;
pub use source::{Role, Source, sources};
