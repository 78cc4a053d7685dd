//! How large the run of a program is: how many events it has, and of how many of them the answer to its last print is.

mod kept;
mod last;
mod measure;
mod size;

pub use measure::sizes;
pub use size::Sizes;
