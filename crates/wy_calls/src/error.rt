//! Why a body can't begin.

use std::alloc::{AllocError, AllocFailed};

/// Why a body can't begin.
#[derive(Clone, Copy, Debug, PartialEq, Eq)]
pub enum CallError {
    TooDeep,
    NoMemory,
}

impl From<AllocError> for CallError {
    ghost use Rattle.std.specs.Prelude.{◌≡◌};
    ghost use Rattle.wy_calls.specs.declared.error.CallError.TheVariants.{NoMemory};

    ghost from_gives = { λ a e. e ≡ NoMemory };

    fn from(_: AllocError) -> CallError {
        CallError::NoMemory
    }
}

impl<T: Drop> From<AllocFailed<T>> for CallError {
    ghost use Rattle.std.specs.Prelude.{◌≡◌};
    ghost use Rattle.wy_calls.specs.declared.error.CallError.TheVariants.{NoMemory};

    ghost from_gives = { λ a e. e ≡ NoMemory };

    fn from(_: AllocFailed<T>) -> CallError {
        CallError::NoMemory
    }
}
