//! All that comes from an event, line by line.

ghost use Rattle.std.specs.Prelude.{◌≡◌, ◌<◌, List, Some, IfOk};
ghost use Rattle.wy_ask.specs.Opened.{IsOpenedOf, StaysOpened};
ghost use Rattle.wy_event.specs.Record.{Recorded};
ghost use Rattle.wy_kernel.specs.Parts.{program_of};
ghost use Rattle.wy_telling.specs.Affects.{affects_text, nothing_later_line};
ghost use Rattle.wy_telling.specs.Answers.{TellsAnswer};
ghost use Rattle.wy_telling.specs.Untelling.{HasCause};
ghost use Rattle.wy_view.specs.View.{KeepsCounts};

use crate::asking::asked_event;
use crate::marked::marked_lines;
use crate::untold::Untold;
use std::alloc::{AllocError, Global};
use std::marker::Brand;
use std::sync::ledger::{Blank, Ledger};
use wy_affects::affects;
use wy_ask::Opened;
use wy_view::{EventView, Steps, ViewError};

/// What comes from the event that a question asks about: a line for each later event, with a star where it comes from it by
/// data.
pub fn affects_text<V: EventView>(
    alloc: Global,
    opened: &mut Opened<'_, V>,
    question: &str,
) -> Result<Vec<u8>, Untold>
    requires { IsOpenedOf (V.tells opened.old.view) opened.old }
    ensures told { (rs : List Recorded) → (V.tells opened.old.view).records ≡ Some rs
        → TellsAnswer affects_text (program_of opened.old.program.now)
        opened.old.program.now.lines.items rs question.now result }
    ensures cause { HasCause question.now result
        (V.tells opened.old.view) (V.tells opened.new.view) }
    ensures stays { StaysOpened V.tells opened.old opened.new }
{
    let event = asked_event(alloc, opened, question)?;
    Ok(later_lines::<V, Brand>(alloc, opened, event, Blank::new(1))?)
}

/// The lines of all that comes from an event, or that nothing later does; with a ledger for the steps, which nobody reads.
fn later_lines<V: EventView, L: Ledger>(
    alloc: Global,
    opened: &mut Opened<'_, V>,
    event: u32,
    blank: Blank,
) -> Result<Vec<u8>, ViewError>
    requires opened { IsOpenedOf (V.tells opened.old.view) opened.old }
    requires there { event < (V.tells opened.old.view).count }
    requires name { blank.name ≡ L.name }
    requires parts { blank.parts ≡ L.parts }
    requires some { 0 < blank.parts }
    ensures lines { (rs : List Recorded) → (V.tells opened.old.view).records ≡ Some rs
        → IfOk result (λ text. text.items ≡ affects_text (program_of opened.old.program.now)
        opened.old.program.now.lines.items rs event) }
    ensures stays { StaysOpened V.tells opened.old opened.new }
    ensures answers { KeepsCounts result (V.tells opened.old.view) (V.tells opened.new.view) }
{
    let mut steps = Steps::<L>::new(blank);
    let found = affects(alloc, &mut opened.view, &opened.index, event, &mut steps)?;
    if found.all.is_empty() {
        return Ok(nothing_later(alloc)?);
    }
    let (all, flow) = (found.all.as_slice(), found.flow.as_slice());
    marked_lines(
        alloc,
        opened.program,
        &mut opened.view,
        all,
        flow,
        &mut steps,
    )
}

#[tactic(auto, unfolding(crate::specs::Affects::nothing_later_line))]
fn nothing_later(alloc: Global) -> Result<Vec<u8>, AllocError>
    ensures { IfOk result (λ text. text.items ≡ nothing_later_line) }
{
    Vec::from_slice(alloc, b"nothing later\n")
}
