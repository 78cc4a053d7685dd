//! What the values of a run carried: backward equals forward, and whatever is carried changes nothing else in a run.
//! The functions do nothing: their contracts are the laws.
#![tactic(auto)]

mod backward;
mod carriers;

pub use backward::{
    backward_is_forward, closures_are_of_sources, states_agree_with_records, uses_determine_sets,
};
pub use carriers::carrying_changes_nothing;
