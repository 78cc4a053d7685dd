//! The numbers of events in memory fit the bytes that a trace spells them in, since memory has no others.
#![tactic(auto)]

ghost use Rattle.std.specs.Prelude.{All, map};
ghost use Rattle.wy_event.specs.Record.{recorded};
ghost use Rattle.wy_kernel.specs.View.{present};
ghost use Rattle.wy_fitting.specs.Fits.{AllFit, CoverFits, EndFits, Fits, IsPresent, IsUnit, SlotFits, UseFits, ValueFits};

use wy_event::record::{Cover, Event, Slot, Tail, Use};
use wy_value::Value;

fn slot_fits(slot: Slot)
    ensures { SlotFits slot }
{
    match slot {
        Slot::None => {}
        Slot::Local { frame: _, index: _ } => {}
        Slot::Static { field: _ } => {}
        Slot::Field {
            object: _,
            field: _,
        } => {}
        Slot::Elem { array: _, index: _ } => {}
    }
}

fn value_fits(value: Value)
    ensures { ValueFits value }
{
    match value {
        Value::Byte(_) => {}
        Value::Short(_) => {}
        Value::Char(_) => {}
        Value::Int(_) => {}
        Value::Long(_) => {}
        Value::Object(_) => {}
        Value::Text(_) => {}
        Value::Fixed(_) => {}
        Value::Arm(_) => {}
        _ => {}
    }
}

fn use_fits(used: Use)
    ensures { UseFits used }
{
    match used {
        Use::Place { slot, moment: _ } => slot_fits(slot),
        Use::Value { event: _ } => {}
        Use::Choice { event: _ } => {}
    }
}

#[tactic(auto, using(crate::proofs::Present::is_present))]
fn present_fits(n: u32)
    ensures { IsPresent (present n) }
{}

fn units_fit(units: &[u16])
    ensures { All IsUnit units.now }
{}

fn uses_fit(uses: &[Use])
    ensures { All UseFits uses.now }
{
    for used in uses {
        use_fits(*used);
    }
}

#[tactic(auto, unfolding(wy_event::specs::Record::recorded))]
fn event_fits(event: &Event)
    ensures { Fits (recorded event.now) }
{
    let _site = event.site;
    present_fits(event.frame);
    present_fits(event.control);
    present_fits(event.entity);
    slot_fits(event.slot);
    value_fits(event.value);
    units_fit(event.units.as_slice());
    uses_fit(event.uses.as_slice());
}

/// The numbers of each event fit.
pub fn events_fit(events: &[Event])
    ensures { AllFit (map recorded events.now) }
{
    for event in events {
        event_fits(event);
    }
}

fn cover_fits(cover: &Cover)
    ensures { CoverFits cover.now }
{
    let _begins = cover.begins;
    let _ends = cover.ends;
    let _first = cover.first;
    let _cause = cover.cause;
}

fn covers_fit(covers: &[Cover])
    ensures { All CoverFits covers.now }
{
    for cover in covers {
        cover_fits(cover);
    }
}

/// The numbers of the end of a run fit.
pub fn end_fits(tail: &Tail)
    ensures { EndFits tail.now }
{
    covers_fit(tail.coverage.statements.as_slice());
    let _last = tail.last;
    let _steps = tail.steps;
    let _events = tail.events;
    let _uses = tail.uses;
    let _output = tail.output;
}
