//! An output that bytes are appended to.
ghost use Rattle.std.specs.Prelude.{◌≡◌, ℕ, ◌≤◌, List, Option};
ghost use Rattle.wy_outside.specs.Counts.{RoseAt};

use std::alloc::AllocError;
use thiserror::Error;

/// Why not all of the bytes were written.
#[derive(Clone, Copy, Debug, PartialEq, Eq, Error)]
pub enum SinkError {
    /// The output could not be written to.
    #[error("the output could not be written to")]
    Failed,
    #[error("out of memory")]
    NoMemory,
}

/// An output.
///
/// A count never falls; where it is raised at its last value it stays, and counts as having risen.
pub trait Sink {
    ghost use Rattle.wy_outside.specs.Sink.{is_failed, Appends};

    /// The bytes that were written, where they are told.
    ghost written: { Self → Option (List ℕ) };

    /// The writes that failed.
    ghost faults: { Self → ℕ };

    /// Appends the bytes. After an error some first part of them was appended.
    fn write(&mut self, bytes: &[u8]) -> Result<(), SinkError>
        ensures content { Appends (written self.old) (written self.new) bytes.now result }
        ensures failed { RoseAt is_failed result (faults self.old) (faults self.new) }
        ensures faults_kept { faults self.old ≤ faults self.new };
}
