//! The mark that an event is given by those of its sources.

ghost use Rattle.std.specs.Prelude.{◌≡◌, ◌<◌, ◌≤◌, ◌&&◌, ◌||◌, Bool, List, length};
ghost use Rattle.wy_affects.specs.Given.{is_given};
ghost use Rattle.wy_event.specs.Record.{Recorded, recorded};
ghost use Rattle.wy_event.specs.Sources.{event_sources, use_source, use_sources};
ghost use Rattle.wy_index.specs.Finds.{IsRecent};
ghost use Rattle.wy_index.specs.Index.{IsIndexOf, owners_of};
ghost use Rattle.wy_view.specs.References.{RefersBelow, UseBelow, UsesBelow};
ghost use Rattle.wy_why.specs.Marks.{is_marked, marked};

use std::sync::ledger::Ledger;
use wy_event::record::{Event, Use};
use wy_index::{Index, Recent};
use wy_kernel::types::NONE;
use wy_view::Steps;
use wy_why::Mark;

/// The greater of two marks.
fn greater(a: Mark, b: Mark) -> Mark
    ensures { (all : Bool) → is_marked all result ≡ (is_marked all a || is_marked all b) }
{
    match a {
        Mark::Out => b,
        Mark::In => match b {
            Mark::Out | Mark::In => Mark::In,
            Mark::Flow => Mark::Flow,
        },
        Mark::Flow => Mark::Flow,
    }
}

/// What the mark of a choice or of a control parent gives: nothing by data.
fn without_data(mark: Mark) -> Mark
    ensures { (all : Bool) → is_marked all result ≡ (all && is_marked all mark) }
{
    match mark {
        Mark::Out => Mark::Out,
        Mark::In | Mark::Flow => Mark::In,
    }
}

fn mark_of(marks: &[Mark], event: u32) -> Mark
    requires { event < length marks.now }
    ensures { (all : Bool) → is_marked all result ≡ marked all marks.now event }
{
    marks[event as usize]
}

/// The mark that a use gives.
fn given_by_use<L: Ledger>(
    index: &Index,
    recent: &mut Recent,
    marks: &[Mark],
    used: Use,
    steps: &mut Steps<L>,
) -> Mark
    requires refers { UseBelow (length marks.now) used }
    requires recent { IsRecent index.now.postings recent.old }
    ensures recent { IsRecent index.now.postings recent.new }
    ensures mark { (rs : List Recorded) → IsIndexOf index.now rs → (all : Bool)
        → is_marked all result
        ≡ is_given all marks.now (use_source (owners_of index.now) rs used) }
    ensures forward { steps.old ≤ steps.new }
{
    match used {
        Use::Place { slot, moment } => match index.last_write_near(recent, slot, moment, steps) {
            Some(event) => mark_of(marks, event),
            None => Mark::Out,
        },
        Use::Value { event } => mark_of(marks, event),
        Use::Choice { event } => without_data(mark_of(marks, event)),
    }
}

/// The mark that uses give together.
fn given_by_uses<L: Ledger>(
    index: &Index,
    recent: &mut Recent,
    marks: &[Mark],
    uses: &[Use],
    steps: &mut Steps<L>,
) -> Mark
    requires refers { UsesBelow (length marks.now) uses.now }
    requires recent { IsRecent index.now.postings recent.old }
    ensures recent { IsRecent index.now.postings recent.new }
    ensures mark { (rs : List Recorded) → IsIndexOf index.now rs → (all : Bool)
        → is_marked all result
        ≡ is_given all marks.now (use_sources (owners_of index.now) rs uses.now) }
    ensures forward { steps.old ≤ steps.new }
{
    let mut mark = Mark::Out;
    for used in uses {
        let more = given_by_use(index, recent, marks, *used, steps);
        mark = greater(mark, more);
    }
    mark
}

/// The mark that an event is given by all of its sources.
pub(crate) fn given_to<L: Ledger>(
    index: &Index,
    recent: &mut Recent,
    marks: &[Mark],
    event: &Event,
    steps: &mut Steps<L>,
) -> Mark
    requires refers { RefersBelow (length marks.now) (recorded event.now) }
    requires recent { IsRecent index.now.postings recent.old }
    ensures recent { IsRecent index.now.postings recent.new }
    ensures mark { (rs : List Recorded) → IsIndexOf index.now rs → (all : Bool)
        → is_marked all result
        ≡ is_given all marks.now (event_sources (owners_of index.now) rs (recorded event.now)) }
    ensures forward { steps.old ≤ steps.new }
{
    let by_uses = given_by_uses(index, recent, marks, event.uses.as_slice(), steps);
    if event.control == NONE {
        return by_uses;
    }
    greater(by_uses, without_data(mark_of(marks, event.control)))
}
