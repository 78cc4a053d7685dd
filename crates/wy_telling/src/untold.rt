//! Why nothing is told of a question.

use std::alloc::AllocError;
use wy_ask::AskError;
use wy_view::ViewError;

/// Why nothing is told.
#[derive(Clone, Copy, Debug, PartialEq, Eq)]
pub enum Untold {
    /// The text asks no question.
    BadQuestion,
    /// What is asked about isn't there; the number is that of the piece or the event, or the moment.
    NoSuch(u32),
    /// The view of the trace refused, or memory ran out.
    View(ViewError),
}

impl From<AllocError> for Untold {
    ghost use Rattle.std.specs.Prelude.{◌≡◌};
    ghost use Rattle.wy_telling.specs.declared.untold.Untold.TheVariants.{View};
    ghost use Rattle.wy_view.specs.declared.view.ViewError.TheVariants.{NoMemory};

    ghost from_gives = { λ _ error. error ≡ View NoMemory };

    fn from(_error: AllocError) -> Untold {
        Untold::View(ViewError::NoMemory)
    }
}

impl From<ViewError> for Untold {
    ghost use Rattle.std.specs.Prelude.{◌≡◌};
    ghost use Rattle.wy_telling.specs.declared.untold.Untold.TheVariants.{View};

    ghost from_gives = { λ cause error. error ≡ View cause };

    fn from(error: ViewError) -> Untold {
        Untold::View(error)
    }
}

impl From<AskError> for Untold {
    ghost use Rattle.std.specs.Prelude.{◌≡◌};
    ghost use Rattle.wy_telling.specs.Untelling.{as_untold};

    ghost from_gives = { λ cause error. error ≡ as_untold cause };

    fn from(error: AskError) -> Untold {
        match error {
            AskError::BadQuestion => Untold::BadQuestion,
            AskError::NoSuch(number) => Untold::NoSuch(number),
            AskError::NoMemory => Untold::View(ViewError::NoMemory),
        }
    }
}
