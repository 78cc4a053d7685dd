//! What a run's covers count of each statement is what it did, and each active entry is so from its event to the end of its reach.
//! The functions do nothing: their contracts are the laws.
#![tactic(auto)]

mod active;
mod counted;

pub use active::{control_is_of_the_body, entries_are_active_to_the_end_of_their_reach};
pub use counted::{covers_balance, each_start_counts_once};
