//! Tokens and trees of the Java subset: what they are, and which tokens a tree has.
//! Nothing here reads a text.
#![tactic(auto)]

pub mod grammar;
pub mod kind;
pub mod laws;
pub mod line;
pub mod measure;
pub mod token;
pub mod tree;
pub mod word;
