//! What is told of a trace, line by line: what its run wrote and how it ended, all that an event comes from and all that comes
//! from it, what can be asked about it, why a statement never began, and why not in one call. Nothing here reads a trace's bytes.
#![tactic(auto)]

mod affects;
mod asking;
mod caught;
mod item;
pub mod laws;
mod listed;
mod look;
mod marked;
mod memory;
mod print;
mod report;
mod scoped;
mod thrown;
mod untold;
mod why;
mod whynot;

pub use affects::affects_text;
pub use asking::asked_event;
pub use item::put_items;
pub use listed::{listed_line, questions_text};
pub use memory::want_of_memory;
pub use print::{LineEnds, put_printed};
pub use report::{ends_its_line, output_text, whole_report};
pub use scoped::{Unscoped, scope_text};
pub use untold::Untold;
pub use why::{answer_lines, why_text};
pub use whynot::{Unanswered, whynot_lines, whynot_text};
