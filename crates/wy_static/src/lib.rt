//! The points of a program, the ways between them, and its links. A way is where control may go from one point to the next, by the
//! statements, the arms of expressions, the calls and the initializations; the links are the ways, each once and in order, and for
//! each call that the class of its receiver decides the methods that it may run. Nothing here reads a run.
#![tactic(auto)]

mod answer;
mod class;
pub mod form;
pub mod links;
mod order;
pub mod point;
mod rows;
pub mod rule;
pub mod standing;
pub mod way;

pub use answer::Links;
pub use point::{Link, LinkKind, Point};
