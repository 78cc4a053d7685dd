//! The check of a certificate over a trace: whether it is the whole answer to why, and nothing else.
//! It takes no index and makes none: it reads the listed events, and then each event once up to the last of them.
#![tactic(auto)]

pub mod answer;
mod asking;
pub mod error;
mod fault;
mod flow;
mod history;
mod key;
pub mod laws;
mod marks;
mod weighing;

pub use answer::check;
pub use error::CertError;
