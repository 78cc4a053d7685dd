//! The events of an answer, one row behind another.
ghost use Rattle.std.specs.Prelude.{◌≡◌, ◌<◌, ◌∷◌, ℕ, List, Some, IfOk, OnOk, filter, length};
ghost use Rattle.wy_event.specs.Numbers.{Numbers};
ghost use Rattle.wy_event.specs.Record.{Recorded};
ghost use Rattle.wy_fold.specs.Places.{line_at};
ghost use Rattle.wy_index.specs.Index.{IsIndexOfView, owners_of};
ghost use Rattle.wy_kernel.specs.Parts.{program_of};
ghost use Rattle.wy_report.specs.Rows.{PutsEntry, PutsRows};
ghost use Rattle.wy_view.specs.View.{Keeps};
ghost use Rattle.wy_why.specs.Answer.{Rises};

use crate::event::{Row, put_event_row};
use crate::line::mark_of;
use std::alloc::Global;
use std::sync::ledger::Ledger;
use wy_fold::{event_text, line_of_site};
use wy_index::Index;
use wy_kernel::program::Program;
use wy_view::{EventView, Steps, ViewError};
use wy_why::sources;

/// The line on which an event stands, from 1; 0 for one of the library.
fn line_of<V: EventView, L: Ledger>(
    program: &Program,
    view: &mut V,
    event: u32,
    steps: &mut Steps<L>,
) -> Result<u32, ViewError>
    requires there { event < (V.tells view.old).count }
    ensures line { (rs : List Recorded) → (V.tells view.old).records ≡ Some rs
        → IfOk result (λ line. line ≡ line_at program.now.lines.items rs event) }
    ensures keeps { Keeps (V.tells view.old) (V.tells view.new) }
{
    let record = view.event(event, steps)?;
    Ok(line_of_site(program, record.site))
}

/// Puts the row of an event, whose line is one of so many.
fn put_entry<V: EventView, L: Ledger>(
    alloc: Global,
    out: &mut Vec<u8>,
    program: &Program,
    view: &mut V,
    index: &Index,
    event: u32,
    of_data: bool,
    many: usize,
    steps: &mut Steps<L>,
) -> Result<(), ViewError>
    requires there { event < (V.tells view.old).count }
    requires index { IsIndexOfView index.now (V.tells view.old) }
    ensures row { (rs : List Recorded) → (V.tells view.old).records ≡ Some rs
        → OnOk result (PutsEntry (program_of program.now) program.now.lines.items
        (owners_of index.now) rs many event of_data out.old.items out.new.items) }
    ensures keeps { Keeps (V.tells view.old) (V.tells view.new) }
{
    let line = line_of(program, view, event, steps)?;
    let text = event_text(alloc, program, view, event, of_data, steps)?;
    let found = sources(alloc, view, index, event, steps)?;
    let row = Row {
        event,
        mark: mark_of(true, of_data),
        line,
        text: text.as_slice(),
        sources: found.as_slice(),
    };
    put_event_row(out, row, many)?;
    Ok(())
}

/// Whether an event is the next of the data, and what comes behind it there.
fn next_of_data(flow: &[u32], event: u32) -> (bool, &[u32])
    ensures { (by_data : Numbers) (high : ℕ) (rest : List ℕ) → Rises 0 high (event ∷ rest)
        → flow.now ≡ filter by_data (event ∷ rest)
        → (result.0 ≡ by_data event) × (result.1.now ≡ filter by_data rest) }
{
    let Some((first, rest)) = flow.split_first() else {
        return (false, flow);
    };
    if *first == event {
        (true, rest)
    } else {
        (false, flow)
    }
}

/// Puts the rows of rising events; those of the data, which rise too, are marked so.
pub(crate) fn put_entries<V: EventView, L: Ledger>(
    alloc: Global,
    out: &mut Vec<u8>,
    program: &Program,
    view: &mut V,
    index: &Index,
    all: &[u32],
    flow: &[u32],
    many: usize,
    steps: &mut Steps<L>,
) -> Result<(), ViewError>
    requires there { Rises 0 (V.tells view.old).count all.now }
    requires index { IsIndexOfView index.now (V.tells view.old) }
    ensures rows { (rs : List Recorded) → (V.tells view.old).records ≡ Some rs
        → (by_data : Numbers) → flow.now ≡ filter by_data all.now
        → OnOk result (PutsRows (program_of program.now) program.now.lines.items
        (owners_of index.now) rs by_data many out.old.items out.new.items all.now
        (length all.now)) }
    ensures keeps { Keeps (V.tells view.old) (V.tells view.new) }
{
    let mut flow = flow;
    for event in all {
        let (of_data, rest) = next_of_data(flow, *event);
        flow = rest;
        put_entry(
            alloc, out, program, view, index, *event, of_data, many, steps,
        )?;
    }
    Ok(())
}
