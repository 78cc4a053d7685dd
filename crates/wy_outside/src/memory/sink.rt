//! A sink in memory: it tells what was written, and exactly the listed calls fail.
ghost use Rattle.std.specs.Prelude.{◌≡◌, ◌≤◌, [], Some};
ghost use Rattle.wy_outside.specs.Counts.{RoseAt};
ghost use Rattle.wy_outside.specs.Failing.{uncalled, fails_next, after_call, FailsExactly};
ghost use Rattle.wy_outside.specs.Sink.{is_failed, Appends};

use crate::count::one_more;
use crate::failing::FailingCalls;
use crate::sink::{Sink, SinkError};
use std::alloc::Global;

/// An output in memory. A call that fails appends the first half of its bytes, if there is memory
/// for them.
#[derive(Drop)]
pub struct MemorySink {
    written: Vec<u8>,
    script: FailingCalls,
    faults: u64,
}

impl MemorySink {
    /// An empty output, and the numbers of the calls that fail, counted from 1.
    pub fn new(alloc: Global, fails: Vec<u32>) -> Self
        ensures written { ⟦<MemorySink as Sink>⟧.written result ≡ Some [] }
        ensures script { result.script ≡ uncalled fails }
        ensures faults { ⟦<MemorySink as Sink>⟧.faults result ≡ 0 }
    {
        MemorySink {
            written: Vec::new(alloc),
            script: FailingCalls::new(fails),
            faults: 0,
        }
    }

    /// What was written.
    pub fn bytes(&self) -> &[u8]
        ensures { ⟦<MemorySink as Sink>⟧.written self.now ≡ Some result.now }
    {
        self.written.as_slice()
    }
}

impl Sink for MemorySink {
    ghost written = { λ s. Some s.written.items };

    ghost faults = { λ s. s.faults };

    fn write(&mut self, bytes: &[u8]) -> Result<(), SinkError>
        ensures fails { FailsExactly is_failed (fails_next self.old.script) result }
        ensures script { self.new.script ≡ after_call self.old.script }
        ensures content { Appends (Some self.old.written.items) (Some self.new.written.items)
            bytes.now result }
        ensures failed { RoseAt is_failed result self.old.faults self.new.faults }
        ensures faults_kept { self.old.faults ≤ self.new.faults }
    {
        if self.script.count_call() {
            let _ = self.written.extend_from_slice(&bytes[..bytes.len() / 2]);
            self.faults = one_more(self.faults);
            return Err(SinkError::Failed);
        }
        self.written
            .extend_from_slice(bytes)
            .map_err(|_| SinkError::NoMemory)
    }
}
