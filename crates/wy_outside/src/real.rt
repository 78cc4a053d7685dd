//! The real outside: the system's files, standard input and standard output. It is the trusted
//! edge: no clause says which bytes the system gives or takes, so nothing is told of them. The loops
//! over the system's reads and writes are proved at readers and writers whose bytes are known.
mod shelf;
mod sink;
mod source;

pub use shelf::{FileShelf, read_prefix};
pub use sink::{StdoutSink, write_whole};
pub use source::{StdinSource, read_some};
