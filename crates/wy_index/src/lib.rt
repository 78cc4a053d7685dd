//! Where to look in the records of a trace: who wrote a slot last, what happened at a site, what was printed, called and made.
//! Nothing here follows a dependence.
#![tactic(auto)]

pub mod build;
pub mod found;
pub mod index;
pub mod posting;
pub mod recent;
mod slot;

pub use found::{Hit, Made};
pub use index::Index;
pub use posting::{Posting, Postings};
pub use recent::Recent;
