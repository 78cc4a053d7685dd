//! Why a watch text has no value that could be shown.

use std::alloc::AllocError;
use thiserror::Error;
use wy_view::ViewError;

/// Why `watch` gave no value.
#[derive(Clone, Copy, Debug, PartialEq, Eq, Error)]
pub enum WatchError {
    /// The text is no expression, or it has no value at that moment.
    #[error("no value")]
    NoValue,
    #[error("{0}")]
    View(ViewError),
    #[error("out of memory")]
    NoMemory,
}

impl From<AllocError> for WatchError {
    ghost use Rattle.std.specs.Prelude.{◌≡◌};
    ghost use Rattle.wy_watch.specs.declared.error.WatchError.TheVariants.{NoMemory};

    ghost from_gives = { λ _ error. error ≡ NoMemory };

    fn from(_error: AllocError) -> WatchError {
        WatchError::NoMemory
    }
}

impl From<ViewError> for WatchError {
    ghost use Rattle.std.specs.Prelude.{◌≡◌};
    ghost use Rattle.wy_watch.specs.declared.error.WatchError.TheVariants.{View};

    ghost from_gives = { λ cause error. error ≡ View cause };

    fn from(error: ViewError) -> WatchError {
        WatchError::View(error)
    }
}
