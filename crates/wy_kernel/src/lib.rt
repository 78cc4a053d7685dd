//! The kernel forms: the core that a Java program is elaborated to, its types, and a program of them by its numbered parts.
//! Nothing here reads a text or runs a program.
#![tactic(auto)]

pub mod builtin;
pub mod closure;
pub mod code;
pub mod form;
pub mod limit;
pub mod operator;
pub mod program;
mod search;
pub mod statements;
pub mod substatement;
pub mod types;
