//! How far a trace was read.

use wy_event::record::{Coverage, Event, Tail};

/// Which frames stand behind the head: events alone, then the coverage, the end and the seal of them.
#[derive(Drop)]
pub enum Stage {
    Open,
    Covered(Coverage),
    Ended(Tail),
    Sealed(Tail, [u8; 32]),
}

/// An event that was read, and the place behind its frame.
#[derive(Drop)]
pub struct ReadEvent {
    pub event: Event,
    pub end: u32,
}
