//! What the forms of the language do with values that are there: exceptions, operators, casts, places, assignment, arrays, tests, and the
//! ends of bodies. Nothing here evaluates a part of a form, calls a method of the program or knows how the work that is left is kept.
#![tactic(auto)]

pub mod array;
pub mod binding;
pub mod clause;
pub mod ending;
pub mod exception;
pub mod operand;
pub mod operator;
pub mod place;
pub mod test_event;
pub mod texts;
pub mod types;
pub mod update;
