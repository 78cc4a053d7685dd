//! The bodies of the library's methods, as kernel forms. What its classes declare is no part of this: that is `wy_kernel::builtin`.
#![tactic(auto)]

mod bodies;
mod constructors;
mod form;
mod make;
mod object;
mod throwable;

pub use bodies::{library_bodies, library_init_bodies};
