//! Why a trace was not handed on.

ghost use Rattle.std.specs.Prelude.{◌≡◌};
ghost use Rattle.wy_migrate.specs.declared.error.MigrationError.TheVariants as errors;

use wy_record::RecordError;
use wy_view::ViewError;

/// Why a trace was not handed on to its end.
#[derive(Clone, Copy, Debug, PartialEq, Eq)]
pub enum MigrationError {
    /// The recorder refused a call.
    Recorder(RecordError),
    /// An event was not given.
    View(ViewError),
}

impl From<RecordError> for MigrationError {
    ghost from_gives = { λ a e. e ≡ errors.Recorder a };

    fn from(error: RecordError) -> MigrationError {
        MigrationError::Recorder(error)
    }
}

impl From<ViewError> for MigrationError {
    ghost from_gives = { λ a e. e ≡ errors.View a };

    fn from(error: ViewError) -> MigrationError {
        MigrationError::View(error)
    }
}
