//! Why bytes are no trace.

use std::alloc::{AllocError, AllocFailed};
use wy_payload::fault::DamageRule;

/// Why bytes are no trace: what is wrong with them first, from left to right.
#[derive(Clone, Copy, Debug, PartialEq, Eq)]
pub enum TraceError {
    /// They end before the trace does; with their number.
    Cut { byte: u32 },
    /// A rule is broken, by the frame that begins there or by that byte.
    Damaged { byte: u32, rule: DamageRule },
    /// The seal isn't that of the bytes before it.
    BadSeal,
    NoMemory,
}

impl From<AllocError> for TraceError {
    ghost use Rattle.std.specs.Prelude.{◌≡◌};
    ghost use Rattle.wy_frames.specs.declared.error.TraceError.TheVariants.{NoMemory};

    ghost from_gives = { λ _ e. e ≡ NoMemory };

    fn from(_error: AllocError) -> TraceError {
        TraceError::NoMemory
    }
}

impl<T: Drop> From<AllocFailed<T>> for TraceError {
    ghost use Rattle.std.specs.Prelude.{◌≡◌};
    ghost use Rattle.wy_frames.specs.declared.error.TraceError.TheVariants.{NoMemory};

    ghost from_gives = { λ _ e. e ≡ NoMemory };

    fn from(_error: AllocFailed<T>) -> TraceError {
        TraceError::NoMemory
    }
}
