//! The budget of a run: the step limit stops a run only when it is taken, and a larger one goes on where a smaller one stopped.
//! The functions do nothing: their contracts are the laws.
#![tactic(auto)]

mod budget;
mod longer;

pub use budget::the_step_limit_is_the_budget;
pub use longer::a_smaller_budget_gives_a_prefix;
