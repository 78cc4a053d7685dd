//! Which types are below which, by the classes that are declared, and the method that a call means.
//! Nothing here reads a declaration.
#![tactic(auto)]

pub mod candidates;
pub mod choice;
pub mod counting;
pub mod laws;
mod likely;
pub mod lineage;
pub mod member;
pub mod signature;
pub mod subtyping;

pub use choice::choose;
pub use subtyping::subtype;
