//! Texts: string conversion, `+`, what is printed, and the operations of the library, on values that are there.
//! Nothing here evaluates an operand or calls a method of the program.

pub mod found;
mod number;
mod one;
mod operation;
mod printing;
mod text;
mod three;
mod two;

pub use found::Found;
pub use operation::library;
pub use printing::{print_nothing, print_text};
pub use text::{join_texts, make_text, spelling_units, text_equals};
