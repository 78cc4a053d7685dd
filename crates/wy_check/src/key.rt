//! Slots as they are looked up.

ghost use Rattle.std.specs.Prelude.{◌≡◌};
ghost use Rattle.wy_index.specs.Order.{is_no_slot};
ghost use Rattle.wy_check.specs.Keys.{key_of};

use wy_event::record::Slot;

/// The kind of a slot, the frame, object or array that it is of, and which of them it is: slots of one holder stand together.
pub(crate) fn key_of(slot: Slot) -> (u8, u32, u32)
    ensures { result ≡ key_of slot }
{
    match slot {
        Slot::None => (0, 0, 0),
        Slot::Local { frame, index } => (1, frame, index),
        Slot::Static { field } => (2, 0, field),
        Slot::Field { object, field } => (3, object, field),
        Slot::Elem { array, index } => (4, array, index),
    }
}

pub(crate) fn is_no_slot(slot: Slot) -> bool
    ensures { result ≡ is_no_slot slot }
{
    matches!(slot, Slot::None)
}
