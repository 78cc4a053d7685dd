//! Events that are looked at before a view holds them: each refers to earlier ones alone.

ghost use Rattle.std.specs.Prelude.{◌≡◌, true};
ghost use Rattle.wy_event.specs.Record.{recorded};
ghost use Rattle.wy_kernel.specs.View.{present};
ghost use Rattle.wy_view.specs.References.{AllRefersBelow, OptionBelow, RefersBelow, SlotBelow, UseBelow, UsesBelow, ValueBelow};

use wy_event::record::{Event, Slot, Use};
use wy_kernel::types::NONE;
use wy_value::Value;

#[tactic(auto, unfolding(wy_kernel::specs::View::present))]
fn is_below(number: u32, n: u32) -> bool
    ensures { result ≡ true → OptionBelow n (present number) }
{
    number == NONE || number < n
}

fn value_is_below(value: Value, n: u32) -> bool
    ensures { result ≡ true → ValueBelow n value }
{
    match value {
        Value::Object(k) => k < n,
        Value::Text(k) => k < n,
        _ => true,
    }
}

fn slot_is_below(slot: Slot, n: u32) -> bool
    ensures { result ≡ true → SlotBelow n slot }
{
    match slot {
        Slot::Local { frame, .. } => frame < n,
        Slot::Field { object, .. } => object < n,
        Slot::Elem { array, .. } => array < n,
        _ => true,
    }
}

fn use_is_below(used: Use, n: u32) -> bool
    ensures { result ≡ true → UseBelow n used }
{
    match used {
        Use::Place { slot, moment } => slot_is_below(slot, n) && moment <= n,
        Use::Value { event } => event < n,
        Use::Choice { event } => event < n,
    }
}

fn uses_are_below(uses: &[Use], n: u32) -> bool
    ensures { result ≡ true → UsesBelow n uses.now }
{
    for used in uses {
        if !use_is_below(*used, n) {
            return false;
        }
    }
    true
}

#[tactic(auto, unfolding(wy_event::specs::Record::recorded))]
fn refers_below(event: &Event, n: u32) -> bool
    ensures { result ≡ true → RefersBelow n (recorded event.now) }
{
    is_below(event.frame, n)
        && is_below(event.control, n)
        && slot_is_below(event.slot, n)
        && value_is_below(event.value, n)
        && uses_are_below(event.uses.as_slice(), n)
}

pub fn all_refer_below(events: &[Event]) -> bool
    ensures { result ≡ true → AllRefersBelow events.now }
{
    let mut n = 0;
    for event in events {
        if n == NONE || !refers_below(event, n) {
            return false;
        }
        n += 1;
    }
    true
}
