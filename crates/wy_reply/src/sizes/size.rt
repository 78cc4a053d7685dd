//! What is counted of a run.

/// The sizes of a run: its events, and those that its last print comes from, in all and by data.
#[derive(Clone, Copy, Debug, PartialEq, Eq)]
pub struct Sizes {
    pub events: u32,
    pub answer: usize,
    pub data: usize,
}
