//! The outside in memory, for tests. Every byte is told, and exactly the listed calls fail; but of the
//! shelf of which a file changes nothing is told.
mod files;
mod shelf;
mod sink;
mod source;
mod swap;

pub use shelf::MemoryShelf;
pub use sink::MemorySink;
pub use source::MemorySource;
pub use swap::SwapShelf;
