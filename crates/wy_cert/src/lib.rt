//! Certificates of answers to why: the events of one with their sources, as bytes that a small checker can follow.
//! When a certificate is good for a trace is said here, how it is made, spelled and read; the check itself is not here.
#![tactic(auto)]

pub mod certificate;
pub mod error;
pub mod making;
mod number;
pub mod reader;
mod spell;

pub use certificate::{Certificate, Listed};
pub use error::ReadError;
pub use making::certify;
pub use reader::read;
