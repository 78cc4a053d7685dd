//! Each refusal is right, in one of the ways that specs/ lists in the words of the Java Language Specification, and what is
//! accepted breaks no rule in any of these ways. The functions do nothing: their contracts are the laws.
#![tactic(auto)]

mod accepted;
mod due;

pub use accepted::{
    accepted_bodies_are_unbroken, accepted_expressions_are_unbroken,
    accepted_programs_are_unbroken, accepted_statements_are_unbroken, tables_know_the_library,
};
pub use due::{
    body_refusals_are_due, fields_given_nothing_break_nothing, operands_are_exact,
    program_refusals_are_due, quiet_forms_break_nothing, refusals_are_due,
    refusals_of_trees_are_due, statement_refusals_are_due, what_is_found_is_one, written_is_whole,
};
