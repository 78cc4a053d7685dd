//! How a session ends.

use std::alloc::AllocError;
use wy_view::ViewError;

/// How a session ends.
#[derive(Clone, Copy, Debug, PartialEq, Eq)]
pub enum Ending {
    /// The input ended, or a line said so.
    Done,
    /// A line has more bytes than a line may have.
    LongLine,
    /// A line reaches past what all lines may have.
    LongInput,
    /// The input could not be read.
    KeysFailed,
    /// The output could not be written.
    OutFailed,
    /// The view of the trace refused, and not for want of memory.
    View(ViewError),
    NoMemory,
}

impl From<AllocError> for Ending {
    ghost use Rattle.std.specs.Prelude.{◌≡◌};
    ghost use Rattle.wy_session.specs.declared.ending.Ending.TheVariants.{NoMemory};

    ghost from_gives = { λ _ error. error ≡ NoMemory };

    fn from(_error: AllocError) -> Ending {
        Ending::NoMemory
    }
}

impl From<ViewError> for Ending {
    ghost use Rattle.std.specs.Prelude.{◌≡◌};
    ghost use Rattle.wy_session.specs.Views.{ending_of};

    ghost from_gives = { λ error ending. ending ≡ ending_of error };

    fn from(error: ViewError) -> Ending {
        match error {
            ViewError::NoMemory => Ending::NoMemory,
            refusal => Ending::View(refusal),
        }
    }
}
