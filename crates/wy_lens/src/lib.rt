//! The second program: what it is asked, and what it writes. It tells of a source, or of a trace, what `whyline` finds,
//! in the words of people and by the lines of the source; nothing here decides what that is.
#![tactic(auto)]

mod answer;
mod delivery;
mod fixed;
mod pair;
mod refusal;
mod status;
mod table;
pub mod top;
mod traced;
mod words;

pub use status::Status;
pub use top::whylens;
pub use words::{Request, Telling, asked_by};
