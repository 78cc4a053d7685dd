//! What an event affects.

ghost use Rattle.std.specs.Prelude.{◌≡◌, ◌+◌, ◌-◌, ◌<◌, ◌≤◌, List, Some, IfOk};
ghost use Rattle.wy_affects.specs.Affected.{affected, affected_by_data};
ghost use Rattle.wy_event.specs.Record.{Recorded};
ghost use Rattle.wy_index.specs.Index.{IsIndexOfView, owners_of};
ghost use Rattle.wy_view.specs.Counts.{RoseAtMost};
ghost use Rattle.wy_view.specs.View.{KeepsCounts, Keeps};
ghost use Rattle.wy_why.specs.Answer.{Rises};

use crate::pass::{Pass, step};
use std::alloc::Global;
use std::sync::ledger::Ledger;
use wy_index::{Index, Recent};
use wy_view::{EventView, Steps, ViewError};
use wy_why::first_marks;

/// The events above one that come from it, and those of them that come from it by data. Both rise.
#[derive(Drop)]
pub struct Affected {
    pub all: Vec<u32>,
    pub flow: Vec<u32>,
}

/// All that comes from an event, by an index of the view. Each later event is looked at once.
/// A changed value need not change those events.
pub fn affects<V: EventView, L: Ledger>(
    alloc: Global,
    view: &mut V,
    index: &Index,
    event: u32,
    steps: &mut Steps<L>,
) -> Result<Affected, ViewError>
    requires there { event < (V.tells view.old).count }
    requires index { IsIndexOfView index.now (V.tells view.old) }
    ensures all { (rs : List Recorded) → (V.tells view.old).records ≡ Some rs
        → IfOk result (λ found. found.all.items ≡ affected (owners_of index.now) rs event) }
    ensures flow { (rs : List Recorded) → (V.tells view.old).records ≡ Some rs
        → IfOk result (λ found.
        found.flow.items ≡ affected_by_data (owners_of index.now) rs event) }
    ensures rises { IfOk result (λ found.
        Rises (event + 1) (V.tells view.old).count found.all.items
        × Rises (event + 1) (V.tells view.old).count found.flow.items) }
    ensures keeps { Keeps (V.tells view.old) (V.tells view.new) }
    ensures answers { KeepsCounts result (V.tells view.old) (V.tells view.new) }
    ensures reads { RoseAtMost ((V.tells view.old).count - event)
        (V.tells view.old).reads (V.tells view.new).reads }
    ensures forward { steps.old ≤ steps.new }
{
    let count = view.count();
    // Slots that share a place only take longer.
    let places = count as usize / 4 + 1;
    let mut pass = Pass {
        marks: first_marks(alloc, event)?,
        all: Vec::new(alloc),
        flow: Vec::new(alloc),
        recent: Recent::new(alloc, places)?,
    };
    for next in event + 1..count {
        step(view, index, &mut pass, next, steps)?;
    }
    Ok(Affected {
        all: pass.all,
        flow: pass.flow,
    })
}
