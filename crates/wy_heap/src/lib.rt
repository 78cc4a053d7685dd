//! The memory of a run: static fields, objects, arrays and texts, each by the number of the event that made it (JLS 4.12, 10, 12.5).
//! What a heap holds is said slot by slot in `specs/`, not by how it lies in memory. Nothing here takes a step or records.
#![tactic(auto)]

mod block;
mod first;
mod heap;
pub mod law;
mod layout;
mod plan;

pub use heap::{Heap, HeapError};
