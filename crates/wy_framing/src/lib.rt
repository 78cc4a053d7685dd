//! A recorder that writes a trace, each event as its frame and at the end the seal, to each of its mirrors, which are of any
//! kinds; and where a trace is written: the trait of trace sinks, a boxed one, one in memory that tells every byte and fails at the
//! calls that it is told to, and a real file, the trusted edge. Nothing here reads a trace.
#![tactic(auto)]

mod boxed;
mod file;
mod memory;
mod open;
mod piece;
mod recorder;
mod serve;
mod sink;

pub use file::{FileTraceSink, put_through, write_block};
pub use memory::MemoryTraceSink;
pub use open::{make_room, may_be_replaced};
pub use recorder::FrameRecorder;
pub use sink::TraceSink;
