//! The answer to why not in a call, and why there is none.

use std::alloc::AllocError;
use thiserror::Error;
use wy_static::point::Link;
use wy_view::ViewError;
use wy_whynot::Made;

/// A link between regions that the scope of a call reached and did not cross: the tests that went another way, and the
/// calls that were made at its site.
#[derive(Drop)]
pub struct ScopeItem {
    pub link: Link,
    pub tests: Vec<u32>,
    pub made: Vec<Made>,
}

/// Why there is no answer.
#[derive(Clone, Copy, Debug, PartialEq, Eq, Error)]
pub enum ScopeError {
    /// The region of the statement was passed, first by this event.
    #[error("passed at #{event}")]
    Passed { event: u32 },
    #[error("{0}")]
    View(ViewError),
    #[error("out of memory")]
    NoMemory,
}

impl From<AllocError> for ScopeError {
    ghost use Rattle.std.specs.Prelude.{◌≡◌};
    ghost use Rattle.wy_scope.specs.declared.item.ScopeError.TheVariants.{NoMemory};

    ghost from_gives = { λ _ error. error ≡ NoMemory };

    fn from(_error: AllocError) -> ScopeError {
        ScopeError::NoMemory
    }
}

impl From<ViewError> for ScopeError {
    ghost use Rattle.std.specs.Prelude.{◌≡◌};
    ghost use Rattle.wy_scope.specs.declared.item.ScopeError.TheVariants.{View};

    ghost from_gives = { λ cause error. error ≡ View cause };

    fn from(error: ViewError) -> ScopeError {
        ScopeError::View(error)
    }
}
