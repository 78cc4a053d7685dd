//! What a run leaves.

use wy_event::record::{Tail, Thrown};

/// A run that ended: what it printed, what is kept of the whole of it, and what it threw last, if that ended it.
#[derive(Drop)]
pub struct Ended {
    pub output: Vec<u8>,
    pub tail: Tail,
    pub thrown: Thrown,
}
