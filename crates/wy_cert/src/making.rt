//! The certificate of an answer.

ghost use Rattle.std.specs.Prelude.{◌≡◌, ◌<◌, ◌≤◌, List, Some, IfOk, OnOk, length};
ghost use Rattle.wy_event.specs.Record.{Recorded};
ghost use Rattle.wy_view.specs.View.{KeepsCounts, Keeps};
ghost use Rattle.wy_index.specs.Index.{IsIndexOfView, owners_of};
ghost use Rattle.wy_why.specs.Answer.{Rises};
ghost use Rattle.wy_cert.specs.Goodness.{Certifies};
ghost use Rattle.wy_cert.specs.Made.{IsMade};

use crate::spell::{head, put_line};
use std::alloc::Global;
use std::sync::ledger::Ledger;
use wy_index::Index;
use wy_view::{EventView, Steps, ViewError};
use wy_why::{sources, why};

/// Puts the lines of events that rise.
fn put_lines<V: EventView, L: Ledger>(
    alloc: Global,
    view: &mut V,
    index: &Index,
    events: &[u32],
    out: &mut Vec<u8>,
    steps: &mut Steps<L>,
) -> Result<(), ViewError>
    requires there { Rises 0 (V.tells view.old).count events.now }
    requires index { IsIndexOfView index.now (V.tells view.old) }
    ensures lines { OnOk result (IsMade index.now (V.tells view.old)
        out.old.items out.new.items events.now (length events.now)) }
    ensures keeps { Keeps (V.tells view.old) (V.tells view.new) }
    ensures answers { KeepsCounts result (V.tells view.old) (V.tells view.new) }
    ensures forward { steps.old ≤ steps.new }
{
    for n in events {
        let found = sources(alloc, view, index, *n, steps)?;
        put_line(out, *n, &found)?;
    }
    Ok(())
}

/// The certificate of why an event came about, by an index of the view and the trace's seal.
pub fn certify<V: EventView, L: Ledger>(
    alloc: Global,
    view: &mut V,
    index: &Index,
    seal: &[u8; 32],
    event: u32,
    steps: &mut Steps<L>,
) -> Result<Vec<u8>, ViewError>
    requires there { event < (V.tells view.old).count }
    requires index { IsIndexOfView index.now (V.tells view.old) }
    ensures certificate { (rs : List Recorded) → (V.tells view.old).records ≡ Some rs
        → IfOk result (λ out. Certifies (owners_of index.now) rs seal.now event out.items) }
    ensures keeps { Keeps (V.tells view.old) (V.tells view.new) }
    ensures answers { KeepsCounts result (V.tells view.old) (V.tells view.new) }
    ensures forward { steps.old ≤ steps.new }
{
    let answer = why(alloc, view, index, event, steps)?;
    let mut out = head(alloc, seal, event, answer.all.len() as u32)?;
    put_lines(alloc, view, index, &answer.all, &mut out, steps)?;
    Ok(out)
}
