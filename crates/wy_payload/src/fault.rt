//! What can be wrong with the bytes of a trace.

use std::alloc::{AllocError, AllocFailed};

/// The rule that damaged bytes break first.
#[derive(Clone, Copy, Debug, PartialEq, Eq)]
pub enum DamageRule {
    /// The first bytes aren't those of a trace.
    Magic,
    /// A frame of this kind may not stand here.
    FrameKind,
    /// A field passes the end of its frame, or bytes are left in it.
    Length,
    /// A kind or tag is unknown, or a number is out of its range.
    Range,
    /// A reference is to an event of another kind.
    Kind,
    /// A count isn't that of what stands before it.
    Count,
    /// Bytes stand behind the seal.
    After,
}

/// Why a field could not be read.
#[derive(Clone, Copy, Debug, PartialEq, Eq)]
pub enum Fault {
    Broken(DamageRule),
    NoMemory,
}

impl From<AllocError> for Fault {
    ghost use Rattle.std.specs.Prelude.{◌≡◌};
    ghost use Rattle.wy_payload.specs.declared.fault.Fault.TheVariants.{NoMemory};

    ghost from_gives = { λ _ e. e ≡ NoMemory };

    fn from(_error: AllocError) -> Fault {
        Fault::NoMemory
    }
}

impl<T: Drop> From<AllocFailed<T>> for Fault {
    ghost use Rattle.std.specs.Prelude.{◌≡◌};
    ghost use Rattle.wy_payload.specs.declared.fault.Fault.TheVariants.{NoMemory};

    ghost from_gives = { λ _ e. e ≡ NoMemory };

    fn from(_error: AllocFailed<T>) -> Fault {
        Fault::NoMemory
    }
}
