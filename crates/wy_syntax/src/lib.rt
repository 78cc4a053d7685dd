//! The abstract syntax of a program: what each production says, by the roles of its parts, with the numbers of the
//! tokens that rules and records speak of (JLS 18). Parentheses are kept; commas, keywords and brackets are gone.
#![tactic(auto)]

pub mod declaration;
pub mod expression;
pub mod lower;
pub mod name;
pub mod operator;
pub mod part;
pub mod statement;
