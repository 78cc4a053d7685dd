//! One way down the events of a trace, from the newest of an answer to the oldest.

ghost use Rattle.std.specs.Prelude.{◌≡◌, ◌+◌, ◌*◌, ◌<◌, ◌≤◌, ◌||◌, ◌++◌, ◌∷◌, [], ℕ, suc, Bool, List, Some, OnOk, length, slice_get, if◌then◌else◌};
ghost use Rattle.wy_event.specs.Numbers.{only, union_of};
ghost use Rattle.wy_event.specs.Record.{Recorded};
ghost use Rattle.wy_event.specs.Sources.{sources};
ghost use Rattle.wy_view.specs.View.{KeepsCounts, Keeps, ReadsOnce, Told};
ghost use Rattle.wy_index.specs.Halving.{IsHalvings};
ghost use Rattle.wy_index.specs.Finds.{IsRecent};
ghost use Rattle.wy_index.specs.Index.{IsIndexOfView, owners_of};
ghost use Rattle.wy_why.specs.Marks.{marked, taken};
ghost use Rattle.wy_why.specs.Uses.{places_of};
ghost use Rattle.wy_why.specs.Walk.{IsDown, IsVisited};

use crate::mark::{Mark, mark_sources};
use std::alloc::AllocError;
use std::sync::ledger::Ledger;
use wy_index::{Index, Recent};
use wy_view::{EventView, Steps, ViewError};

/// A mark for each event, and those that were gone through and are marked, from the newest on; and what look-ups found last.
#[derive(Drop)]
pub(crate) struct Walk {
    pub(crate) marks: Vec<Mark>,
    pub(crate) all: Vec<u32>,
    pub(crate) flow: Vec<u32>,
    pub(crate) recent: Recent,
}

impl Walk {
    /// Takes an event into the answer, or into its data too.
    fn take(&mut self, k: u32, flow: bool) -> Result<(), AllocError>
        ensures all { OnOk result (self.new.all.items ≡ self.old.all.items ++ k ∷ []) }
        ensures flow { OnOk result (self.new.flow.items
            ≡ (if flow then self.old.flow.items ++ k ∷ [] else self.old.flow.items)) }
        ensures marks { self.new.marks ≡ self.old.marks }
        ensures recent { self.new.recent ≡ self.old.recent }
    {
        self.all.push(k)?;
        if flow {
            self.flow.push(k)?;
        }
        Ok(())
    }
}

/// Takes a marked event into the answer, or into its data too, and marks its sources.
fn visit<V: EventView, L: Ledger>(
    view: &mut V,
    index: &Index,
    walk: &mut Walk,
    k: u32,
    flow: bool,
    steps: &mut Steps<L>,
) -> Result<(), ViewError>
    requires there { k < (V.tells view.old).count }
    requires room { k < length walk.old.marks.items }
    requires index { IsIndexOfView index.now (V.tells view.old) }
    requires recent { IsRecent index.now.postings walk.old.recent }
    ensures recent { IsRecent index.now.postings walk.new.recent }
    ensures visited { OnOk result (IsVisited index.now (V.tells view.old)
        steps.old steps.new k flow walk.old walk.new) }
    ensures keeps { Keeps (V.tells view.old) (V.tells view.new) }
    ensures reads { ReadsOnce (V.tells view.old) (V.tells view.new) }
    ensures answers { KeepsCounts result (V.tells view.old) (V.tells view.new) }
    ensures forward { steps.old ≤ steps.new }
{
    let event = view.event(k, steps)?;
    mark_sources(index, &mut walk.recent, &mut walk.marks, event, flow, steps);
    walk.take(k, flow)?;
    Ok(())
}

/// Goes on to the next event below.
pub(crate) fn step<V: EventView, L: Ledger>(
    view: &mut V,
    index: &Index,
    walk: &mut Walk,
    k: u32,
    steps: &mut Steps<L>,
) -> Result<(), ViewError>
    requires there { k < (V.tells view.old).count }
    requires room { k < length walk.old.marks.items }
    requires index { IsIndexOfView index.now (V.tells view.old) }
    requires recent { IsRecent index.now.postings walk.old.recent }
    ensures recent { IsRecent index.now.postings walk.new.recent }
    ensures down { (start : Told) (first n : ℕ)
        → IsDown index.now start (V.tells view.old) first steps.old n (suc k) walk.old
        → OnOk result (IsDown index.now start (V.tells view.new) first steps.new n k walk.new) }
    ensures keeps { Keeps (V.tells view.old) (V.tells view.new) }
    ensures answers { KeepsCounts result (V.tells view.old) (V.tells view.new) }
    ensures forward { steps.old ≤ steps.new }
{
    match walk.marks[k as usize] {
        Mark::Out => Ok(()),
        Mark::In => visit(view, index, walk, k, false, steps),
        Mark::Flow => visit(view, index, walk, k, true, steps),
    }
}
