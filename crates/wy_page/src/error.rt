//! Why a trace on a shelf isn't opened.

ghost use Rattle.std.specs.Prelude.{◌≡◌};
ghost use Rattle.wy_page.specs.Refusals.{refused};

use wy_frames::TraceError;
use wy_outside::shelf::ShelfError;
use wy_view::ViewError;

/// Why a trace on a shelf isn't opened.
#[derive(Clone, Copy, Debug, PartialEq, Eq)]
pub enum PageError {
    /// It could not be read, is not there, or memory ran out.
    View(ViewError),
    /// Its bytes are no trace.
    Trace(TraceError),
}

/// What a refusal of a shelf is to those who look at a view.
pub(crate) fn refusal(error: ShelfError) -> ViewError
    ensures { result ≡ refused error }
{
    match error {
        ShelfError::Failed => ViewError::ReadFault,
        ShelfError::Absent => ViewError::Gone,
        ShelfError::NoMemory => ViewError::NoMemory,
    }
}
