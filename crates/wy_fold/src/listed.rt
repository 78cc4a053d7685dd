//! The lines of all events of a trace, or of those on a line.
ghost use Rattle.std.specs.Prelude.{◌≡◌, ◌<◌, ◌^◌, IfErr, IfOk, length, map};
ghost use Rattle.wy_event.specs.Numbers.{none};
ghost use Rattle.wy_event.specs.Record.{recorded};
ghost use Rattle.wy_fold.specs.Shown.{TellsLine, all_events_text, events_on, numbers_of};
ghost use Rattle.wy_kernel.specs.Parts.{program_of};
ghost use Rattle.wy_telling.specs.Answers.{marked_lines};
ghost use Rattle.wy_view.specs.declared.view.ViewError.TheVariants.{NoMemory};
ghost use Rattle.wy_why.specs.Answer.{Rises};

use crate::place::line_at;
use std::alloc::{AllocError, Global};
use std::marker::Brand;
use std::sync::ledger::{Blank, Ledger};
use wy_ask::Opened;
use wy_event::record::Event;
use wy_kernel::program::Program;
use wy_telling::{answer_lines, want_of_memory};
use wy_view::{MemoryView, Steps, ViewError};
use wy_why::Answer;

/// The lines of all events.
pub fn all_events_text(
    alloc: Global,
    opened: &mut Opened<'_, MemoryView>,
) -> Result<Vec<u8>, AllocError>
    ensures { IfOk result (λ text. text.items
        ≡ all_events_text (program_of opened.old.program.now)
        opened.old.program.now.lines.items (map recorded opened.old.view.events.items)) }
{
    let all = numbers(alloc, opened.view.events.as_slice())?;
    match lines_by::<Brand>(alloc, opened, all, Blank::new(1)) {
        Ok(text) => Ok(text),
        Err(error) => Err(want_of_memory(error)),
    }
}

/// The lines of the events that stand on a line, and None where none does.
pub fn line_events_text(
    alloc: Global,
    opened: &mut Opened<'_, MemoryView>,
    line: u32,
) -> Result<Option<Vec<u8>>, AllocError>
    ensures { IfOk result (TellsLine (program_of opened.old.program.now)
        opened.old.program.now.lines.items (map recorded opened.old.view.events.items) line) }
{
    let here = numbers_on(alloc, opened.program, opened.view.events.as_slice(), line)?;
    if here.is_empty() {
        return Ok(None);
    }
    match lines_by::<Brand>(alloc, opened, here, Blank::new(1)) {
        Ok(text) => Ok(Some(text)),
        Err(error) => Err(want_of_memory(error)),
    }
}

/// The numbers of all events.
fn numbers(alloc: Global, records: &[Event]) -> Result<Vec<u32>, AllocError>
    requires { length records.now < 2 ^ 32 }
    ensures { IfOk result (λ all. all.items ≡ numbers_of (map recorded records.now)) }
{
    let count = records.len() as u32;
    let mut all = Vec::new(alloc);
    for number in 0..count {
        all.push(number)?;
    }
    Ok(all)
}

/// Those of the events that stand on a line.
fn numbers_on(
    alloc: Global,
    program: &Program,
    records: &[Event],
    line: u32,
) -> Result<Vec<u32>, AllocError>
    requires { length records.now < 2 ^ 32 }
    ensures { IfOk result (λ here. here.items
        ≡ events_on program.now.lines.items (map recorded records.now) line) }
{
    let all = numbers(alloc, records)?;
    all.iter()
        .copied()
        .filter(|event| line_at(program, records, *event) == line)
        .collect(alloc)
}

/// The lines of these events, with a ledger for the steps, which nobody reads.
fn lines_by<L: Ledger>(
    alloc: Global,
    opened: &mut Opened<'_, MemoryView>,
    events: Vec<u32>,
    blank: Blank,
) -> Result<Vec<u8>, ViewError>
    requires there { Rises 0 (length opened.old.view.events.items) events.items }
    requires name { blank.name ≡ L.name }
    requires parts { blank.parts ≡ L.parts }
    requires some { 0 < blank.parts }
    ensures lines { IfOk result (λ text. text.items
        ≡ marked_lines (program_of opened.old.program.now) opened.old.program.now.lines.items
        (map recorded opened.old.view.events.items) none events.items) }
    ensures memory { IfErr result (λ error. error ≡ NoMemory) }
{
    let answer = Answer {
        all: events,
        flow: Vec::new(alloc),
    };
    let mut steps = Steps::<L>::new(blank);
    answer_lines(alloc, opened.program, &mut opened.view, &answer, &mut steps)
}
