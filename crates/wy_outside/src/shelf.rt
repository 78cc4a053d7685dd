//! Named files that are read. Nothing here writes one.
ghost use Rattle.std.specs.Prelude.{◌≡◌, ℕ, ◌≤◌, Option, IfOk, vec_len};
ghost use Rattle.wy_outside.specs.Counts.{count_after, RoseAt};

use std::alloc::{AllocError, Global};
use thiserror::Error;

/// Why a read of a file gave nothing.
#[derive(Clone, Copy, Debug, PartialEq, Eq, Error)]
pub enum ShelfError {
    /// The file could not be read.
    #[error("the file could not be read")]
    Failed,
    /// There is no file of that name.
    #[error("no such file")]
    Absent,
    #[error("out of memory")]
    NoMemory,
}

/// Files by name. No call changes what is held.
///
/// A count never falls; where it is raised at its last value it stays, and counts as having risen.
pub trait Shelf {
    ghost use Rattle.wy_outside.specs.Shelf.{Files, is_failed, is_absent, ReadsFile, ReadsPart, Reaches, RoseWhenFull, RoseWhenReached};

    /// The files, where they are told.
    ghost held: { Self → Option Files };

    /// The calls that failed.
    ghost faults: { Self → ℕ };

    /// The calls for a name that there is no file of.
    ghost misses: { Self → ℕ };

    /// The reads from the front that gave as many bytes as were asked for, and the answers that a file reaches so far.
    ghost fulls: { Self → ℕ };

    /// The reads, from the front or from a place on.
    ghost gets: { Self → ℕ };

    /// The first `max` bytes of the file, or all of them if there are fewer.
    fn read(&mut self, alloc: Global, name: &str, max: u32) -> Result<Vec<u8>, ShelfError>
        ensures files_stay { held self.new ≡ held self.old }
        ensures content { ReadsFile (held self.old) name.now max result }
        ensures bound { IfOk result (λ bytes. vec_len bytes ≤ max) }
        ensures failed { RoseAt is_failed result (faults self.old) (faults self.new) }
        ensures absent { RoseAt is_absent result (misses self.old) (misses self.new) }
        ensures full { RoseWhenFull max result (fulls self.old) (fulls self.new) }
        ensures got { gets self.new ≡ count_after (gets self.old) 1 }
        ensures faults_kept { faults self.old ≤ faults self.new }
        ensures misses_kept { misses self.old ≤ misses self.new }
        ensures fulls_kept { fulls self.old ≤ fulls self.new }
        ensures gets_kept { gets self.old ≤ gets self.new };

    /// The bytes of the file from a place on: `len` of them, or as many as there are.
    fn read_at(
        &mut self,
        alloc: Global,
        name: &str,
        from: u32,
        len: u32,
    ) -> Result<Vec<u8>, ShelfError>
        ensures files_stay { held self.new ≡ held self.old }
        ensures content { ReadsPart (held self.old) name.now from len result }
        ensures bound { IfOk result (λ bytes. vec_len bytes ≤ len) }
        ensures failed { RoseAt is_failed result (faults self.old) (faults self.new) }
        ensures absent { RoseAt is_absent result (misses self.old) (misses self.new) }
        ensures full { fulls self.new ≡ fulls self.old }
        ensures got { gets self.new ≡ count_after (gets self.old) 1 }
        ensures faults_kept { faults self.old ≤ faults self.new }
        ensures misses_kept { misses self.old ≤ misses self.new }
        ensures gets_kept { gets self.old ≤ gets self.new };

    /// Whether the file has at least `size` bytes.
    fn reaches(&mut self, name: &str, size: u32) -> Result<bool, ShelfError>
        ensures files_stay { held self.new ≡ held self.old }
        ensures content { Reaches (held self.old) name.now size result }
        ensures failed { RoseAt is_failed result (faults self.old) (faults self.new) }
        ensures absent { RoseAt is_absent result (misses self.old) (misses self.new) }
        ensures full { RoseWhenReached result (fulls self.old) (fulls self.new) }
        ensures got { gets self.new ≡ gets self.old }
        ensures faults_kept { faults self.old ≤ faults self.new }
        ensures misses_kept { misses self.old ≤ misses self.new }
        ensures fulls_kept { fulls self.old ≤ fulls self.new };
}
