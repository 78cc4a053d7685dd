//! Statements and the blocks of methods, constructors and initializers: the kernel forms that they become, with their numbers, their
//! targets and how far their tests reach, by the definition in specs (JLS 8, 12, 14).
#![tactic(auto)]

mod around;
pub mod body;
mod calls;
pub mod class_places;
mod declare;
pub mod field;
mod found;
mod leaf;
pub mod make;
pub mod making;
pub mod numbers;
mod on_this;
mod parts;
pub mod place;
mod places;
pub mod setting;
mod site;
mod statement;
mod targets;

pub use around::{Around, Outcome};
pub use body::{constructor_block, implied_constructor_block, method_block};
pub use class_places::places_of;
pub use field::{field_initial, initializer_block};
pub use making::{Making, begun};
pub use numbers::{Numbers, numbers_of};
pub use place::{Place, Role};
pub use setting::Setting;
pub use statement::block;
