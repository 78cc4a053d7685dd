//! What a command answers once its program is there: a status, and the text that is written with it.
#![tactic(auto)]

pub mod answer;
mod certified;
pub mod generating;
pub mod laws;
pub mod lines;
pub mod migrating;
pub mod recording;
pub mod running;
mod sizes;
mod source;
pub mod status;
pub mod telling;
mod viewed;

pub use answer::Answer;
pub use generating::answer_to_generated;
pub use lines::Refusal;
pub use migrating::answer_to_migration;
pub use recording::answer_to_recording;
pub use running::answer_to_program;
pub use status::Status;
pub use telling::{Inquiry, Wanted, answer_to_trace, answer_to_trace_error};
pub use viewed::{answer_to_opened, answer_to_view};
