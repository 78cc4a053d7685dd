//! What a view of events in memory refuses for.

ghost use Rattle.std.specs.Prelude.{◌≡◌};
ghost use Rattle.wy_view.specs.declared.view.ViewError.TheVariants.{NoMemory};

use std::alloc::AllocError;
use wy_view::ViewError;

/// Want of memory, the one refusal of a view that reads nothing.
pub fn want_of_memory(error: ViewError) -> AllocError
    requires { error ≡ NoMemory }
{
    match error {
        ViewError::NoMemory => AllocError,
        _ => unreachable!(),
    }
}
