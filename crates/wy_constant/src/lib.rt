//! The rules that a program may break, why a source is none, the variables in scope in a body, and the values of constant expressions
//! (JLS 6, 15.28). Nothing here makes a form or chooses a method.
#![tactic(auto)]

mod arithmetic;
mod assignment;
mod constant;
mod fields;
mod fold;
mod names;
mod refusal_name;
mod rule;
mod scope;
mod simple;
pub mod source_refusal;
mod variable;
mod variables;

pub use arithmetic::cast;
pub use assignment::{constant_variable, does_constant_fit, widens};
pub use constant::constant_of;
pub use fields::{class_above, class_by_name, field_by_name};
pub use fold::{
    choice_value, conjunction, disjunction, fold_binary, fold_unary, has_int, literal_value,
    type_of_choice,
};
pub use names::{may_be_class, value_of_member, value_of_name};
pub use refusal_name::{fault_name, rule_name};
pub use rule::{Rule, TypeError};
pub use scope::Scope;
pub use simple::{constant_in, copied, truth_of, units_in, value_of};
pub use source_refusal::{LexFault, SourceRefusal};
pub use variable::{FixedText, Variable};
