//! Why a run was not gone through.

ghost use Rattle.std.specs.Prelude.{◌≡◌};
ghost use Rattle.wy_machine.specs.declared.refusal.RunError.TheVariants as errors;
ghost use Rattle.wy_machine.specs.Refusals.{told};

use std::alloc::AllocError;
use wy_record::RecordError;

/// Why a run was not gone through to its end.
#[derive(Clone, Copy, Debug, PartialEq, Eq)]
pub enum RunError {
    /// The recorder refused an event.
    Recorder(RecordError),
    NoMemory,
}

impl From<AllocError> for RunError {
    ghost from_gives = { λ a e. e ≡ errors.NoMemory };

    fn from(_: AllocError) -> RunError {
        RunError::NoMemory
    }
}

impl From<RecordError> for RunError {
    ghost from_gives = { λ a e. e ≡ errors.Recorder a };

    fn from(error: RecordError) -> RunError {
        RunError::Recorder(error)
    }
}

impl From<RunError> for RecordError {
    ghost from_gives = { λ a e. e ≡ told a };

    fn from(error: RunError) -> RecordError {
        match error {
            RunError::Recorder(error) => error,
            RunError::NoMemory => RecordError::NoMemory,
        }
    }
}
