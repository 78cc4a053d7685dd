//! The records of a run: events with what they used, the coverage of statements, and the end of the run.
//! What is recorded is defined by the meaning of a run; what follows from records alone is defined here.
#![tactic(auto)]

pub mod record;
pub mod sequence;
