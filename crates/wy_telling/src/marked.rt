//! The lines of events, with a star on those of the data.

ghost use Rattle.std.specs.Prelude.{◌≡◌, ◌∷◌, ℕ, List, Some, IfOk, filter};
ghost use Rattle.wy_event.specs.Numbers.{Numbers};
ghost use Rattle.wy_event.specs.Record.{Recorded};
ghost use Rattle.wy_kernel.specs.Parts.{program_of};
ghost use Rattle.wy_telling.specs.Answers.{marked_lines};
ghost use Rattle.wy_view.specs.View.{KeepsCounts, Keeps};
ghost use Rattle.wy_why.specs.Answer.{Rises};

use std::alloc::Global;
use std::sync::ledger::Ledger;
use wy_kernel::program::Program;
use wy_text::put_event_line;
use wy_view::{EventView, Steps, ViewError};

/// The lines of rising events, with a star on those of the data, which rise too.
pub(crate) fn marked_lines<V: EventView, L: Ledger>(
    alloc: Global,
    program: &Program,
    view: &mut V,
    all: &[u32],
    flow: &[u32],
    steps: &mut Steps<L>,
) -> Result<Vec<u8>, ViewError>
    requires there { Rises 0 (V.tells view.old).count all.now }
    ensures lines { (rs : List Recorded) → (V.tells view.old).records ≡ Some rs
        → (by_data : Numbers) → flow.now ≡ filter by_data all.now
        → IfOk result (λ text. text.items ≡ marked_lines (program_of program.now)
        program.now.lines.items rs by_data all.now) }
    ensures keeps { Keeps (V.tells view.old) (V.tells view.new) }
    ensures answers { KeepsCounts result (V.tells view.old) (V.tells view.new) }
{
    let mut text = Vec::new(alloc);
    let mut flow = flow;
    for event in all {
        let (marked, rest) = taken(flow, *event);
        flow = rest;
        put_event_line(&mut text, program, view, *event, marked, steps)?;
    }
    Ok(text)
}

/// Whether an event is the next of the data, and what comes behind it there.
fn taken(flow: &[u32], event: u32) -> (bool, &[u32])
    ensures { (by_data : Numbers) (high : ℕ) (rest : List ℕ) → Rises 0 high (event ∷ rest)
        → flow.now ≡ filter by_data (event ∷ rest)
        → (result.0 ≡ by_data event) × (result.1.now ≡ filter by_data rest) }
{
    let Some((first, rest)) = flow.split_first() else {
        return (false, flow);
    };
    if *first == event {
        (true, rest)
    } else {
        (false, flow)
    }
}
