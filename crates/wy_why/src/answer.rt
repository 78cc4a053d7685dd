//! The answer to why: all that an event comes from.

ghost use Rattle.std.specs.Prelude.{◌≡◌, ◌+◌, ◌*◌, ◌<◌, ◌≤◌, ℕ, Bool, List, Some, IfOk, length, nat_eq, reverse, vec_len};
ghost use Rattle.wy_event.specs.Record.{Recorded};
ghost use Rattle.wy_event.specs.Sources.{closure, data_closure};
ghost use Rattle.wy_view.specs.Counts.{RoseAtMost};
ghost use Rattle.wy_view.specs.View.{KeepsCounts, Keeps};
ghost use Rattle.wy_index.specs.Halving.{IsHalvings};
ghost use Rattle.wy_index.specs.Index.{IsIndexOfView, owners_of};
ghost use Rattle.wy_why.specs.Answer.{Rises, up_to};
ghost use Rattle.wy_why.specs.Marks.{marked};
ghost use Rattle.wy_why.specs.Uses.{places_in};

use crate::mark::{Mark, mark_event};
use crate::walk::{Walk, step};
use std::alloc::{AllocError, Global};
use std::sync::ledger::Ledger;
use wy_index::{Index, Recent};
use wy_view::{EventView, Steps, ViewError};

/// What an event comes from, itself among it, and those of them that it comes from by data. Both rise.
#[derive(Drop)]
pub struct Answer {
    pub all: Vec<u32>,
    pub flow: Vec<u32>,
}

/// Marks of the events up to one, which alone is marked, as data.
pub fn first_marks(alloc: Global, event: u32) -> Result<Vec<Mark>, AllocError>
    ensures room { IfOk result (λ marks. length marks.items ≡ event + 1) }
    ensures alone { IfOk result (λ marks. (all : Bool) (j : ℕ)
        → marked all marks.items j ≡ nat_eq j event) }
{
    let mut marks = vec![in alloc; Mark::Out; event as usize + 1]?;
    mark_event(&mut marks, event, true);
    Ok(marks)
}

fn reversed(events: Vec<u32>) -> Vec<u32>
    ensures { result.items ≡ reverse events.items }
{
    let mut events = events;
    events.reverse();
    events
}

/// All that an event comes from, by an index of the view.
pub fn why<V: EventView, L: Ledger>(
    alloc: Global,
    view: &mut V,
    index: &Index,
    event: u32,
    steps: &mut Steps<L>,
) -> Result<Answer, ViewError>
    requires there { event < (V.tells view.old).count }
    requires index { IsIndexOfView index.now (V.tells view.old) }
    ensures all { (rs : List Recorded) → (V.tells view.old).records ≡ Some rs
        → IfOk result (λ answer.
        answer.all.items ≡ up_to event (closure (owners_of index.now) rs event)) }
    ensures flow { (rs : List Recorded) → (V.tells view.old).records ≡ Some rs
        → IfOk result (λ answer.
        answer.flow.items ≡ up_to event (data_closure (owners_of index.now) rs event)) }
    ensures rises { IfOk result (λ answer. Rises 0 (event + 1) answer.all.items
        × Rises 0 (event + 1) answer.flow.items) }
    ensures keeps { Keeps (V.tells view.old) (V.tells view.new) }
    ensures answers { KeepsCounts result (V.tells view.old) (V.tells view.new) }
    ensures reads { IfOk result (λ answer. RoseAtMost (2 * vec_len answer.all)
        (V.tells view.old).reads (V.tells view.new).reads) }
    ensures forward { steps.old ≤ steps.new }
    ensures steps { (rs : List Recorded) → (V.tells view.old).records ≡ Some rs → (l : ℕ)
        → IsHalvings (length index.now.postings) l → IfOk result (λ answer. steps.new ≤ steps.old
        + (2 * vec_len answer.all + 2 * places_in rs answer.all.items * (l + 1))) }
{
    // Slots that share a place only take longer.
    let places = event as usize / 4 + 1;
    let mut walk = Walk {
        marks: first_marks(alloc, event)?,
        all: Vec::new(alloc),
        flow: Vec::new(alloc),
        recent: Recent::new(alloc, places)?,
    };
    let mut next = event + 1;
    while next > 0 {
        next -= 1;
        step(view, index, &mut walk, next, steps)?;
    }
    Ok(Answer {
        all: reversed(walk.all),
        flow: reversed(walk.flow),
    })
}
