//! The operations of the Java subset on values and on texts, each exactly its definition in `specs/`.
//! Nothing here evaluates an expression, knows an object or takes a step.
#![tactic(auto)]

mod conversion;
mod encoding;
pub mod law;
mod numeral;
mod operator;
mod text;
mod value;
mod word;

pub use conversion::convert;
pub use encoding::to_utf8;
pub use numeral::{BadNumber, digits, parse_int};
pub use operator::{binary, unary};
pub use text::{BadIndex, PartError, compare, part, same, unit_at};
pub use value::{ByZero, Value};
