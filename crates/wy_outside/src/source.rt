//! An input that is taken in pieces, once, from its front to its end.
ghost use Rattle.std.specs.Prelude.{◌≡◌, ℕ, ◌≤◌, List, Option, IfOk, vec_len};
ghost use Rattle.wy_outside.specs.Counts.{RoseAt};

use std::alloc::{AllocError, Global};
use thiserror::Error;

/// Why a read of an input gave nothing.
#[derive(Clone, Copy, Debug, PartialEq, Eq, Error)]
pub enum SourceError {
    /// The input could not be read.
    #[error("the input could not be read")]
    Failed,
    #[error("out of memory")]
    NoMemory,
}

/// An input.
///
/// A count never falls; where it is raised at its last value it stays, and counts as having risen.
pub trait Source {
    ghost use Rattle.wy_outside.specs.Source.{is_failed, Takes, EndsExactly, CountsTaken};

    /// The bytes that are still to come, where they are told.
    ghost left: { Self → Option (List ℕ) };

    /// The reads that failed.
    ghost faults: { Self → ℕ };

    /// The bytes that were given.
    ghost taken: { Self → ℕ };

    /// The next bytes: at least one of them, or none at the end. A call after an error goes on where
    /// the input stood.
    fn read(&mut self, alloc: Global, max: u32) -> Result<Vec<u8>, SourceError>
        requires { 1 ≤ max }
        ensures content { Takes (left self.old) (left self.new) result }
        ensures end { EndsExactly (left self.old) result }
        ensures bound { IfOk result (λ bytes. vec_len bytes ≤ max) }
        ensures count { CountsTaken (taken self.old) (taken self.new) result }
        ensures failed { RoseAt is_failed result (faults self.old) (faults self.new) }
        ensures faults_kept { faults self.old ≤ faults self.new }
        ensures taken_kept { taken self.old ≤ taken self.new };
}
