//! What is known of an event once it was read: as much as later events may refer to.

ghost use Rattle.std.specs.Prelude.{◌≡◌, if◌then◌else◌};
ghost use Rattle.wy_payload.specs.Rules.{fits, is_array, is_object};

use wy_kernel::code::BRACKETS_UNIT;

/// An event as later ones see it.
#[derive(Clone, Copy, Debug, PartialEq, Eq)]
pub enum Known {
    Init { class: u32 },
    New { code: u32 },
    Call { method: u32 },
    Test,
    /// With the bytes that it prints.
    Text { bytes: usize },
    Jump,
    Return,
    Throw,
    Catch,
    Other,
}

/// What an event is referred to as.
#[derive(Clone, Copy, Debug, PartialEq, Eq)]
pub enum Role {
    Frame,
    Control,
    /// An object or an array.
    Made,
    Object,
    Array,
    Text,
    Test,
    /// A statement was left by it.
    Leaving,
    Throw,
}

/// The event may be referred to so.
pub fn is_fit(role: Role, known: Known) -> bool
    ensures { result ≡ fits role known }
{
    match role {
        Role::Frame => matches!(known, Known::Init { .. } | Known::Call { .. }),
        Role::Control => matches!(
            known,
            Known::Init { .. } | Known::Call { .. } | Known::Test | Known::Catch
        ),
        Role::Made => matches!(known, Known::New { .. }),
        Role::Object => is_coded(known, false),
        Role::Array => is_coded(known, true),
        Role::Text => matches!(known, Known::Text { .. }),
        Role::Test => matches!(known, Known::Test),
        Role::Leaving => matches!(known, Known::Jump | Known::Return | Known::Throw),
        Role::Throw => matches!(known, Known::Throw),
    }
}

fn is_coded(known: Known, array: bool) -> bool
    ensures { result ≡ (if array then is_array known else is_object known) }
{
    match known {
        Known::New { code } => (code >= BRACKETS_UNIT) == array,
        _ => false,
    }
}
