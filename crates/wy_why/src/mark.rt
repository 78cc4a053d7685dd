//! Marks of events: what is in the answer so far.

ghost use Rattle.std.specs.Prelude.{◌≡◌, ◌+◌, ◌*◌, ◌<◌, ◌≤◌, ◌&&◌, ◌||◌, ℕ, Bool, List, length, nat_eq};
ghost use Rattle.wy_event.specs.Numbers.{only, union_of};
ghost use Rattle.wy_event.specs.Record.{Recorded, recorded};
ghost use Rattle.wy_event.specs.Sources.{event_sources, use_source, use_sources};
ghost use Rattle.wy_view.specs.References.{RefersBelow, UseBelow, UsesBelow};
ghost use Rattle.wy_index.specs.Halving.{IsHalvings};
ghost use Rattle.wy_index.specs.Index.{IsIndexOf, owners_of};
ghost use Rattle.wy_index.specs.Finds.{IsRecent};
ghost use Rattle.wy_why.specs.Marks.{marked, taken};
ghost use Rattle.wy_why.specs.Uses.{is_place, places};

use std::sync::ledger::Ledger;
use wy_event::record::{Event, Use};
use wy_index::{Index, Recent};
use wy_kernel::types::NONE;
use wy_view::Steps;

/// How an event is in the answer: not, in it, or in its data too.
#[derive(Clone, Copy, Debug)]
pub enum Mark {
    Out,
    In,
    Flow,
}

/// Marks an event, as one of the data or not. What is marked as data stays so.
pub(crate) fn mark_event(marks: &mut [Mark], event: u32, flow: bool)
    requires { event < length marks.old }
    ensures { (all : Bool) (j : ℕ) → marked all marks.new j
        ≡ (marked all marks.old j || ((all || flow) && nat_eq j event)) }
{
    let i = event as usize;
    marks[i] = match marks[i] {
        Mark::Flow => Mark::Flow,
        _ if flow => Mark::Flow,
        _ => Mark::In,
    };
}

/// Marks what a use comes from: of the data where the event is, but for choices.
pub(crate) fn mark_use<L: Ledger>(
    index: &Index,
    recent: &mut Recent,
    marks: &mut [Mark],
    used: Use,
    flow: bool,
    steps: &mut Steps<L>,
)
    requires refers { UseBelow (length marks.old) used }
    requires recent { IsRecent index.now.postings recent.old }
    ensures recent { IsRecent index.now.postings recent.new }
    ensures marks { (rs : List Recorded) → IsIndexOf index.now rs → (all : Bool) (j : ℕ)
        → marked all marks.new j ≡ (marked all marks.old j
        || union_of only (taken all flow (use_source (owners_of index.now) rs used)) j) }
    ensures forward { steps.old ≤ steps.new }
    ensures steps { (l : ℕ) → IsHalvings (length index.now.postings) l
        → steps.new ≤ steps.old + is_place used * (l + 1) }
{
    match used {
        Use::Place { slot, moment } => {
            if let Some(event) = index.last_write_near(recent, slot, moment, steps) {
                mark_event(marks, event, flow);
            }
        }
        Use::Value { event } => mark_event(marks, event, flow),
        Use::Choice { event } => mark_event(marks, event, false),
    }
}

pub(crate) fn mark_uses<L: Ledger>(
    index: &Index,
    recent: &mut Recent,
    marks: &mut [Mark],
    uses: &[Use],
    flow: bool,
    steps: &mut Steps<L>,
)
    requires refers { UsesBelow (length marks.old) uses.now }
    requires recent { IsRecent index.now.postings recent.old }
    ensures recent { IsRecent index.now.postings recent.new }
    ensures marks { (rs : List Recorded) → IsIndexOf index.now rs → (all : Bool) (j : ℕ)
        → marked all marks.new j ≡ (marked all marks.old j
        || union_of only (taken all flow (use_sources (owners_of index.now) rs uses.now)) j) }
    ensures forward { steps.old ≤ steps.new }
    ensures steps { (l : ℕ) → IsHalvings (length index.now.postings) l
        → steps.new ≤ steps.old + places uses.now * (l + 1) }
{
    for used in uses {
        mark_use(index, recent, marks, *used, flow, steps);
    }
}

/// Marks the sources of an event.
pub(crate) fn mark_sources<L: Ledger>(
    index: &Index,
    recent: &mut Recent,
    marks: &mut [Mark],
    event: &Event,
    flow: bool,
    steps: &mut Steps<L>,
)
    requires refers { RefersBelow (length marks.old) (recorded event.now) }
    requires recent { IsRecent index.now.postings recent.old }
    ensures recent { IsRecent index.now.postings recent.new }
    ensures marks { (rs : List Recorded) → IsIndexOf index.now rs → (all : Bool) (j : ℕ)
        → marked all marks.new j ≡ (marked all marks.old j
        || union_of only
        (taken all flow (event_sources (owners_of index.now) rs (recorded event.now))) j) }
    ensures forward { steps.old ≤ steps.new }
    ensures steps { (l : ℕ) → IsHalvings (length index.now.postings) l
        → steps.new ≤ steps.old + places event.now.uses * (l + 1) }
{
    mark_uses(index, recent, marks, event.uses.as_slice(), flow, steps);
    if event.control != NONE {
        mark_event(marks, event.control, false);
    }
}
