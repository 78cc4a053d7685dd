//! A trace that is opened, the words of questions about it, the event that each asks about, the words of statements, and
//! what can be asked about it.
//! Nothing here works out an answer.
#![tactic(auto)]

pub mod askable;
pub mod asking;
mod field;
mod names;
pub mod naming;
pub mod never;
pub mod opened;
mod parts;
pub mod question;
pub mod resolving;
mod stored;

pub use asking::{Listed, questions};
pub use names::number;
pub use naming::{NamedStatement, statement};
pub use opened::Opened;
pub use question::{AskError, Question, read_question};
pub use resolving::resolve;
