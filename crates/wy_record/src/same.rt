//! When two records in memory are of one event.

ghost use Rattle.std.specs.Prelude.{◌≡◌, ◌↔◌, IsTrue};
ghost use Rattle.wy_event.specs.Record.{recorded};

use wy_event::record::{Event, Kind, Slot, Use};
use wy_value::Value;

/// Whether two events are one: all that is recorded of them is the same.
pub fn same_event(a: &Event, b: &Event) -> bool
    ensures { IsTrue result ↔ (recorded a.now ≡ recorded b.now) }
{
    same_numbers(a, b) && same_data(a, b) && same_lists(a, b)
}

fn same_numbers(a: &Event, b: &Event) -> bool
    ensures { IsTrue result ↔ ((a.now.site ≡ b.now.site) × (a.now.frame ≡ b.now.frame)
        × (a.now.control ≡ b.now.control) × (a.now.entity ≡ b.now.entity)) }
{
    a.site == b.site && a.frame == b.frame && a.control == b.control && a.entity == b.entity
}

fn same_data(a: &Event, b: &Event) -> bool
    ensures { IsTrue result ↔ ((a.now.kind ≡ b.now.kind)
        × (a.now.slot ≡ b.now.slot) × (a.now.value ≡ b.now.value)) }
{
    same_kind(a.kind, b.kind) && same_slot(a.slot, b.slot) && same_value(a.value, b.value)
}

fn same_lists(a: &Event, b: &Event) -> bool
    ensures { IsTrue result
        ↔ ((a.now.units ≡ b.now.units) × (a.now.uses ≡ b.now.uses)) }
{
    same_units(a.units.as_slice(), b.units.as_slice())
        && same_uses(a.uses.as_slice(), b.uses.as_slice())
}

fn same_kind(a: Kind, b: Kind) -> bool
    ensures { IsTrue result ↔ (a ≡ b) }
{
    a == b
}

fn same_slot(a: Slot, b: Slot) -> bool
    ensures { IsTrue result ↔ (a ≡ b) }
{
    a == b
}

fn same_value(a: Value, b: Value) -> bool
    ensures { IsTrue result ↔ (a ≡ b) }
{
    a == b
}

fn same_units(a: &[u16], b: &[u16]) -> bool
    ensures { IsTrue result ↔ (a.now ≡ b.now) }
{
    a == b
}

fn same_uses(a: &[Use], b: &[Use]) -> bool
    ensures { IsTrue result ↔ (a.now ≡ b.now) }
{
    a == b
}
