//! What a program declares, before its bodies: its rows, what is above each class, and where names stand.
//! Nothing here reads a tree or chooses a method.
#![tactic(auto)]

mod above;
pub mod hierarchy;
pub mod methods;
pub mod names;
mod numbering;
mod order;
pub mod spans;
pub mod table;
