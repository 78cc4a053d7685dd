//! Programs: from a tree and its tokens to the kernel forms of all its bodies, by the definition in specs (JLS 7, 8, 12).
#![tactic(auto)]

mod assembly;
mod class_body;
mod fields;
mod growth;
pub mod laws;
mod main_method;
mod order;
mod whole;

pub use assembly::elaborate_unit;
pub use class_body::{ClassBodies, class_bodies};
pub use whole::elaborate;
