//! Paths of links between points: which points links lead to, and the links at which what was met ends on the ways to a
//! point. Nothing here knows what it is to meet a point.
#![tactic(auto)]

mod graph;
pub mod order;
pub mod points;
pub mod search;

pub use order::point_key;
pub use points::points_of;
pub use search::frontier;
