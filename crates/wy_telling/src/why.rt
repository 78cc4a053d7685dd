//! All that an event comes from, line by line.

ghost use Rattle.std.specs.Prelude.{◌≡◌, ◌<◌, List, Some, IfOk, filter};
ghost use Rattle.wy_ask.specs.Opened.{IsOpenedOf, StaysOpened};
ghost use Rattle.wy_event.specs.Numbers.{Numbers};
ghost use Rattle.wy_event.specs.Record.{Recorded};
ghost use Rattle.wy_kernel.specs.Parts.{program_of};
ghost use Rattle.wy_telling.specs.Answers.{TellsAnswer, marked_lines};
ghost use Rattle.wy_telling.specs.Untelling.{HasCause};
ghost use Rattle.wy_telling.specs.Why.{why_text};
ghost use Rattle.wy_view.specs.View.{KeepsCounts, Keeps};
ghost use Rattle.wy_why.specs.Answer.{Rises};

use crate::asking::asked_event;
use crate::marked::marked_lines;
use crate::untold::Untold;
use std::alloc::Global;
use std::marker::Brand;
use std::sync::ledger::{Blank, Ledger};
use wy_ask::Opened;
use wy_kernel::program::Program;
use wy_view::{EventView, Steps, ViewError};
use wy_why::{Answer, why};

/// What the event comes from that a question asks about: a line for each event, with a star where it is of the data.
pub fn why_text<V: EventView>(
    alloc: Global,
    opened: &mut Opened<'_, V>,
    question: &str,
) -> Result<Vec<u8>, Untold>
    requires { IsOpenedOf (V.tells opened.old.view) opened.old }
    ensures told { (rs : List Recorded) → (V.tells opened.old.view).records ≡ Some rs
        → TellsAnswer why_text (program_of opened.old.program.now)
        opened.old.program.now.lines.items rs question.now result }
    ensures cause { HasCause question.now result
        (V.tells opened.old.view) (V.tells opened.new.view) }
    ensures stays { StaysOpened V.tells opened.old opened.new }
{
    let event = asked_event(alloc, opened, question)?;
    Ok(event_lines::<V, Brand>(alloc, opened, event, Blank::new(1))?)
}

/// The lines of all that an event comes from, with a ledger for the steps, which nobody reads.
fn event_lines<V: EventView, L: Ledger>(
    alloc: Global,
    opened: &mut Opened<'_, V>,
    event: u32,
    blank: Blank,
) -> Result<Vec<u8>, ViewError>
    requires opened { IsOpenedOf (V.tells opened.old.view) opened.old }
    requires there { event < (V.tells opened.old.view).count }
    requires name { blank.name ≡ L.name }
    requires parts { blank.parts ≡ L.parts }
    requires some { 0 < blank.parts }
    ensures lines { (rs : List Recorded) → (V.tells opened.old.view).records ≡ Some rs
        → IfOk result (λ text. text.items ≡ why_text (program_of opened.old.program.now)
        opened.old.program.now.lines.items rs event) }
    ensures stays { StaysOpened V.tells opened.old opened.new }
    ensures answers { KeepsCounts result (V.tells opened.old.view) (V.tells opened.new.view) }
{
    let mut steps = Steps::<L>::new(blank);
    let answer = why(alloc, &mut opened.view, &opened.index, event, &mut steps)?;
    answer_lines(alloc, opened.program, &mut opened.view, &answer, &mut steps)
}

/// The lines of an answer's events, with a star on those of the data.
pub fn answer_lines<V: EventView, L: Ledger>(
    alloc: Global,
    program: &Program,
    view: &mut V,
    answer: &Answer,
    steps: &mut Steps<L>,
) -> Result<Vec<u8>, ViewError>
    requires there { Rises 0 (V.tells view.old).count answer.now.all.items }
    ensures lines { (rs : List Recorded) → (V.tells view.old).records ≡ Some rs
        → (by_data : Numbers) → answer.now.flow.items ≡ filter by_data answer.now.all.items
        → IfOk result (λ text. text.items ≡ marked_lines (program_of program.now)
        program.now.lines.items rs by_data answer.now.all.items) }
    ensures keeps { Keeps (V.tells view.old) (V.tells view.new) }
    ensures answers { KeepsCounts result (V.tells view.old) (V.tells view.new) }
{
    marked_lines(
        alloc,
        program,
        view,
        answer.all.as_slice(),
        answer.flow.as_slice(),
        steps,
    )
}
