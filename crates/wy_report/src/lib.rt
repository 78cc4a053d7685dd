//! The answer to a question as one page in HTML, without scripts and without a file beside it: the lines of the source with those of the
//! answer marked, and the events of the answer, each with a link to its line and to the events that it comes from.
//! Nothing here works out an answer.
#![tactic(auto)]

mod entries;
mod escape;
mod event;
pub mod laws;
mod line;
mod piece;
mod report;
mod template;

pub use piece::{Piece, Target};
pub use report::report_text;
