//! What the expressions and statements of a body become fits the types of the body, and the library's bodies those of every program.
//! The functions do nothing: their contracts are the laws.
#![tactic(auto)]

mod expressions;
mod library;
mod statements;

pub use expressions::what_is_elaborated_has_its_type;
pub use library::the_library_fits_its_types;
pub use statements::{what_a_block_becomes_fits_its_body, what_a_body_becomes_fits_its_header};
