//! Why a statement never began: the links that a run reached and did not cross on the ways to it,
//! with their evidence. Nothing here runs a program.
#![tactic(auto)]

pub mod answer;
mod blocked;
pub mod evidence;
mod executed;
pub mod item;
pub mod laws;

pub use answer::whynot;
pub use item::{Item, Made, WhynotError};
