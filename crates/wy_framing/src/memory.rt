//! A trace sink in memory: it tells what was put, and exactly the listed calls fail.
ghost use Rattle.std.specs.Prelude.{◌≡◌, ◌≤◌, [], Some, IfOk, option_map};
ghost use Rattle.wy_outside.specs.Counts.{RoseAt};
ghost use Rattle.wy_outside.specs.Failing.{uncalled, fails_next, after_call, FailsExactly};
ghost use Rattle.wy_outside.specs.Sink.{is_failed, Appends};
ghost use Rattle.wy_framing.specs.Told.{emptied};

use crate::sink::TraceSink;
use std::alloc::{AllocError, Global};
use wy_outside::count::one_more;
use wy_outside::failing::FailingCalls;
use wy_outside::sink::SinkError;

/// A trace in memory. The calls of `open`, `put` and `close` are counted together. A `put` that
/// fails appends the first half of its bytes, if there is memory for them.
#[derive(Drop)]
pub struct MemoryTraceSink {
    bytes: Vec<u8>,
    script: FailingCalls,
    faults: u64,
}

impl MemoryTraceSink {
    /// Without a byte, and the numbers of the calls that fail, counted from 1.
    pub fn new(alloc: Global, fails: Vec<u32>) -> Self
        ensures bytes { ⟦<MemoryTraceSink as TraceSink>⟧.bytes result ≡ Some [] }
        ensures script { result.script ≡ uncalled fails }
        ensures faults { ⟦<MemoryTraceSink as TraceSink>⟧.faults result ≡ 0 }
    {
        MemoryTraceSink {
            bytes: Vec::new(alloc),
            script: FailingCalls::new(fails),
            faults: 0,
        }
    }

    /// Counts a call, and fails it where it is listed.
    fn count_call(&mut self) -> Result<(), SinkError>
        ensures fails { FailsExactly is_failed (fails_next self.old.script) result }
        ensures script { self.new.script ≡ after_call self.old.script }
        ensures bytes { self.new.bytes ≡ self.old.bytes }
        ensures failed { RoseAt is_failed result self.old.faults self.new.faults }
        ensures faults_kept { self.old.faults ≤ self.new.faults }
    {
        if self.script.count_call() {
            self.faults = one_more(self.faults);
            return Err(SinkError::Failed);
        }
        Ok(())
    }
}

impl TraceSink for MemoryTraceSink {
    ghost bytes = { λ s. Some s.bytes.items };

    ghost faults = { λ s. s.faults };

    fn open(&mut self, _name: &str) -> Result<(), SinkError>
        ensures fails { FailsExactly is_failed (fails_next self.old.script) result }
        ensures script { self.new.script ≡ after_call self.old.script }
        ensures content { Some self.new.bytes.items ≡ emptied (Some self.old.bytes.items) }
        ensures failed { RoseAt is_failed result self.old.faults self.new.faults }
        ensures faults_kept { self.old.faults ≤ self.new.faults }
    {
        self.bytes.clear();
        self.count_call()
    }

    fn put(&mut self, piece: &[u8]) -> Result<(), SinkError>
        ensures fails { FailsExactly is_failed (fails_next self.old.script) result }
        ensures script { self.new.script ≡ after_call self.old.script }
        ensures content { Appends (Some self.old.bytes.items) (Some self.new.bytes.items)
            piece.now result }
        ensures failed { RoseAt is_failed result self.old.faults self.new.faults }
        ensures faults_kept { self.old.faults ≤ self.new.faults }
    {
        if let Err(error) = self.count_call() {
            let _ = self.bytes.extend_from_slice(&piece[..piece.len() / 2]);
            return Err(error);
        }
        self.bytes
            .extend_from_slice(piece)
            .map_err(|_| SinkError::NoMemory)
    }

    fn close(&mut self) -> Result<(), SinkError>
        ensures fails { FailsExactly is_failed (fails_next self.old.script) result }
        ensures script { self.new.script ≡ after_call self.old.script }
        ensures content { Some self.new.bytes.items ≡ Some self.old.bytes.items }
        ensures failed { RoseAt is_failed result self.old.faults self.new.faults }
        ensures faults_kept { self.old.faults ≤ self.new.faults }
    {
        self.count_call()
    }

    fn told(&self) -> Result<Option<Vec<u8>>, AllocError>
        ensures { IfOk result (λ copy. option_map (λ b. b.items) copy ≡ Some self.now.bytes.items) }
    {
        Ok(Some(self.bytes.clone()?))
    }
}
