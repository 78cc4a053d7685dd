//! What every trace sink promises.
ghost use Rattle.std.specs.Prelude.{◌≡◌, ℕ, ◌≤◌, List, Option, IfOk, option_map};
ghost use Rattle.wy_outside.specs.Counts.{RoseAt};

use std::alloc::AllocError;
use wy_outside::sink::SinkError;

/// Where one trace is written. Opened by a name, it takes bytes until it is closed.
///
/// A count never falls; where it is raised at its last value it stays, and counts as having risen.
pub trait TraceSink: Drop {
    ghost use Rattle.wy_outside.specs.Sink.{is_failed, Appends};
    ghost use Rattle.wy_framing.specs.Told.{emptied};

    /// The bytes that were put since it was opened, where they are told.
    ghost bytes: { Self → Option (List ℕ) };

    /// The calls that failed.
    ghost faults: { Self → ℕ };

    /// Begins a trace of this name, without a byte of an earlier one, after an error too.
    fn open(&mut self, name: &str) -> Result<(), SinkError>
        ensures content { bytes self.new ≡ emptied (bytes self.old) }
        ensures failed { RoseAt is_failed result (faults self.old) (faults self.new) }
        ensures faults_kept { faults self.old ≤ faults self.new };

    /// Appends the bytes. After an error some first part of them was appended.
    fn put(&mut self, piece: &[u8]) -> Result<(), SinkError>
        ensures content { Appends (bytes self.old) (bytes self.new) piece.now result }
        ensures failed { RoseAt is_failed result (faults self.old) (faults self.new) }
        ensures faults_kept { faults self.old ≤ faults self.new };

    /// Ends the trace: where it answers Ok, what was put is kept.
    fn close(&mut self) -> Result<(), SinkError>
        ensures content { bytes self.new ≡ bytes self.old }
        ensures failed { RoseAt is_failed result (faults self.old) (faults self.new) }
        ensures faults_kept { faults self.old ≤ faults self.new };

    /// A copy of the bytes, and None where they are not told.
    fn told(&self) -> Result<Option<Vec<u8>>, AllocError>
        ensures { IfOk result (λ copy. option_map (λ b. b.items) copy ≡ bytes self.now) };
}
