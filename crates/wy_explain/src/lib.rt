//! What a refusal of a text is in a student's words: where it stands, what its rule says, and the
//! feature of Java that stands there and is left out. Nothing here decides what is refused.
#![tactic(auto)]

mod feature;
mod line;
mod sample;
mod table;
mod text;
mod window;

pub use text::{Place, Refusal, explain, program_line};
