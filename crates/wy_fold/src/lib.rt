//! What is told of an answer by the lines of the source: the events of each line folded to one row, or opened to their own lines; the
//! lines of the source on which some of them stand; and all events of a trace, or those of a line.
//! Nothing here works out an answer.
#![tactic(auto)]

mod asking;
mod fold;
mod group;
pub mod laws;
mod lines;
mod listed;
mod place;
mod row;
mod slice;
mod table;

pub use asking::{asked_event, stop_event};
pub use fold::{Showing, show_text};
pub use group::Group;
pub use lines::source_lines;
pub use listed::{all_events_text, line_events_text};
pub use place::line_of_site;
pub use row::event_text;
pub use slice::{slice_text, stands_on};
pub use table::{Table, tabled};
