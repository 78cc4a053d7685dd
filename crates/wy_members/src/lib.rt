//! Classes and their members: the table of a program, and the rules on declarations.
//! Nothing here reads a body.
#![tactic(auto)]

mod broken;
mod class_row;
mod constant_field;
mod field_row;
mod initializer;
pub mod laws;
mod method_row;
mod names;
mod program_table;
pub mod rows;
mod tree_table;
mod unit_table;
mod written_type;

pub use method_row::{initializes_objects, is_constructor};
pub use tree_table::class_table;
pub use unit_table::class_table_of;
pub use written_type::has as has_modifier;
pub use wy_constant::{Rule, TypeError};
