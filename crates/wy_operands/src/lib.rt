//! The values that the forms of a body have found so far, each with what it uses. Nothing here reads a form or takes a step.
#![tactic(auto)]

mod operands;

pub use operands::Operands;
