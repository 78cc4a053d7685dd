//! A boxed trace sink is one: each call goes to the sink inside.
use crate::sink::TraceSink;
use std::alloc::AllocError;
use wy_outside::sink::SinkError;

impl TraceSink for Box<dyn TraceSink> {
    ghost bytes = { λ b. (TraceSink-box b).bytes b.value };

    ghost faults = { λ b. (TraceSink-box b).faults b.value };

    fn open(&mut self, name: &str) -> Result<(), SinkError> {
        (**self).open(name)
    }

    fn put(&mut self, piece: &[u8]) -> Result<(), SinkError> {
        (**self).put(piece)
    }

    fn close(&mut self) -> Result<(), SinkError> {
        (**self).close()
    }

    fn told(&self) -> Result<Option<Vec<u8>>, AllocError> {
        (**self).told()
    }
}
