//! Expressions of a body: the kernel forms that they become, by the definition in specs (JLS 15).
#![tactic(auto)]

mod allowed;
mod arguments;
mod array;
mod assignable;
mod assignment;
mod bring;
pub mod build;
mod call;
mod call_on;
mod cast;
mod choice;
mod elaboration;
mod fields;
mod kinds;
mod library;
mod library_call;
mod literal;
mod meaning;
mod names;
mod operand;
mod operation;
mod own;
mod printing;
mod refusal;
mod sizes;
mod spot;
mod texts;
mod tree;
mod typed;

pub use allowed::is_below;
pub use arguments::{brought_all, method_for, some_void};
pub use assignable::is_assignable;
pub use assignment::{assigned_value, element_of};
pub use bring::{brought, brought_in, class, formed, primitive, type_of};
pub use elaboration::{elaborated, elaborated_all, initialized};
pub use kinds::{is_boolean, is_text, is_void, number_type};
pub use meaning::Meaning;
pub use names::{class_for_new, stream_in, type_written, with_brackets};
pub use printing::{Printed, Stream, print_operand};
pub use refusal::refused;
pub use texts::Texts;
pub use tree::{constant, expr};
pub use typed::{Typed, typed_expression};
