//! The recorders of a call.

use wy_record::{CompareRecorder, MemoryRecorder, QuietRecorder, Recorder};

/// The recorders that a caller hands in. `write` has the trace of a run that is recorded, or of a file that is migrated.
#[derive(Drop)]
pub struct Recorders<W: Recorder + Drop> {
    pub write: W,
    pub compare: CompareRecorder,
    pub memory: MemoryRecorder,
    pub quiet: QuietRecorder,
}
