//! Why a certificate was not accepted.

use std::alloc::AllocError;
use thiserror::Error;
use wy_cert::ReadError;
use wy_view::ViewError;

/// Why there is no answer.
#[derive(Clone, Copy, Debug, PartialEq, Eq, Error)]
pub enum CertError {
    /// The bytes are no certificate.
    #[error("not read")]
    NotRead,
    /// The certificate is of a trace with another seal.
    #[error("other trace")]
    OtherTrace,
    /// It isn't good for the trace: the least event at fault.
    #[error("event {0}")]
    BadEvent(u32),
    #[error("{0}")]
    View(ViewError),
    #[error("out of memory")]
    NoMemory,
}

impl From<AllocError> for CertError {
    ghost use Rattle.std.specs.Prelude.{◌≡◌};
    ghost use Rattle.wy_check.specs.declared.error.CertError.TheVariants.{NoMemory};

    ghost from_gives = { λ _ error. error ≡ NoMemory };

    fn from(_error: AllocError) -> CertError {
        CertError::NoMemory
    }
}

impl From<ViewError> for CertError {
    ghost use Rattle.std.specs.Prelude.{◌≡◌};
    ghost use Rattle.wy_check.specs.declared.error.CertError.TheVariants.{View};

    ghost from_gives = { λ cause error. error ≡ View cause };

    fn from(error: ViewError) -> CertError {
        CertError::View(error)
    }
}

impl From<ReadError> for CertError {
    ghost use Rattle.std.specs.Prelude.{◌≡◌};
    ghost use Rattle.wy_check.specs.Refusals.{as_refusal};

    ghost from_gives = { λ cause error. error ≡ as_refusal cause };

    fn from(error: ReadError) -> CertError {
        match error {
            ReadError::NotRead => CertError::NotRead,
            ReadError::NoMemory => CertError::NoMemory,
        }
    }
}
