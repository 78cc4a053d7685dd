//! The declarations that a tree is: classes, interfaces and their members, each production by the roles of its parts
//! (JLS 7, 8, 9). Statements and expressions are read by the crate below.
#![tactic(auto)]

mod class;
mod constructor;
mod header;
mod member;
mod modifier;
mod names;
mod part;
mod program;
mod shape;

pub use program::unit;
