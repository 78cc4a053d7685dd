//! The state of a run in memory: one method for each step that a run is made of. What a form does with them stands above.
//! Nothing here reads a form. Each method is tied to its step by what holds of every state of the definition that agrees.
#![tactic(auto)]

mod above;
pub mod below;
mod body;
mod cover;
mod event;
mod make;
pub mod name;
pub mod parts;
pub mod register;
mod slot;
pub mod state;
