//! Runs a program from its start to its end. Each event is handed to a recorder, in order; of a recorded run, head and tail are, too.
//! An audit runs the program of a trace again, and compares.
#![tactic(auto)]

mod auditing;
mod ended;
mod finish;
mod made;
mod recording;
mod refusal;
mod start;
mod thrown;
mod whole;

pub use auditing::{Verdict, audit, one_audit_is_due};
pub use ended::Ended;
pub use recording::record;
pub use refusal::RunError;
pub use whole::run;
