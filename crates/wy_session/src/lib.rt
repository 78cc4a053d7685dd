//! A session at a terminal or a pipe: its lines as they come, each answered before more is read, and their limits.
#![tactic(auto)]

mod desk;
pub mod ending;
mod frames;
pub mod laws;
mod line;
pub mod respond;
pub mod session;

pub use desk::explore;
pub use ending::Ending;
pub use respond::Respond;
pub use session::talk;
