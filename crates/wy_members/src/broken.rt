//! Which rules the declarations of a program break, and where (JLS 8, 9).
//! Nothing here reads a body.

mod again;
mod bodies;
pub mod breach;
mod compared;
mod cycle;
mod duplicate;
mod extended;
mod first;
mod fitting;
mod inheriting;
mod judging;
mod key;
mod known;
mod least;
mod methods;
mod overriding;
pub mod refusal;
mod supertypes;
mod text;
mod unknown;
