//! How slots stand to one another.

ghost use Rattle.std.specs.Prelude.{◌≡◌};
ghost use Rattle.wy_event.specs.Record.{same_slot};
ghost use Rattle.wy_index.specs.Order.{holder_rank, is_no_slot, kind_rank, part_rank, slot_cmp};

use std::cmp::Ordering;
use wy_event::record::Slot;

fn kind_rank(slot: Slot) -> u8
    ensures { result ≡ kind_rank slot }
{
    match slot {
        Slot::None => 0,
        Slot::Local { .. } => 1,
        Slot::Static { .. } => 2,
        Slot::Field { .. } => 3,
        Slot::Elem { .. } => 4,
    }
}

fn holder_rank(slot: Slot) -> u32
    ensures { result ≡ holder_rank slot }
{
    match slot {
        Slot::None | Slot::Static { .. } => 0,
        Slot::Local { frame, .. } => frame,
        Slot::Field { object, .. } => object,
        Slot::Elem { array, .. } => array,
    }
}

fn part_rank(slot: Slot) -> u32
    ensures { result ≡ part_rank slot }
{
    match slot {
        Slot::None => 0,
        Slot::Local { index, .. } | Slot::Elem { index, .. } => index,
        Slot::Static { field } | Slot::Field { field, .. } => field,
    }
}

pub(crate) fn compare(a: Slot, b: Slot) -> Ordering
    ensures { result ≡ slot_cmp a b }
{
    match kind_rank(a).cmp(&kind_rank(b)) {
        Ordering::Less => Ordering::Less,
        Ordering::Equal => holder_rank(a)
            .cmp(&holder_rank(b))
            .then(part_rank(a).cmp(&part_rank(b))),
        Ordering::Greater => Ordering::Greater,
    }
}

/// A number of a slot, which few others have.
pub(crate) fn number(slot: Slot) -> u32 {
    holder_rank(slot)
        .wrapping_mul(31)
        .wrapping_add(part_rank(slot))
}

fn is_no_slot(slot: Slot) -> bool
    ensures { result ≡ is_no_slot slot }
{
    matches!(slot, Slot::None)
}

/// Whether both are one slot, which no slot isn't.
#[tactic(auto, using(crate::proofs::Orders::same_slots))]
pub(crate) fn is_same(a: Slot, b: Slot) -> bool
    ensures { result ≡ same_slot a b }
{
    !is_no_slot(a) && compare(a, b).is_eq()
}
