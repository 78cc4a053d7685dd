//! The lines of the source on which some of an answer stands.
ghost use Rattle.std.specs.Prelude.{◌≡◌, ◌<◌, ◌++◌, None, IfErr, IfOk, OnOk, length, map};
ghost use Rattle.wy_ask.specs.Opened.{IsOpenedOf};
ghost use Rattle.wy_event.specs.Record.{recorded};
ghost use Rattle.wy_fold.specs.Groups.{IsTable};
ghost use Rattle.wy_fold.specs.Places.{Places, stands_on};
ghost use Rattle.wy_fold.specs.Shown.{or_nothing, slice_text, sliced, sliced_line};
ghost use Rattle.wy_kernel.specs.Parts.{program_of};
ghost use Rattle.wy_view.specs.Whole.{whole};
ghost use Rattle.wy_view.specs.declared.view.ViewError.TheVariants.{NoMemory};

use crate::lines::source_lines;
use crate::row::put_numbered;
use crate::table::{Table, tabled};
use std::alloc::{AllocError, Global};
use std::marker::Brand;
use std::sync::ledger::{Blank, Ledger};
use wy_ask::Opened;
use wy_telling::want_of_memory;
use wy_view::{MemoryView, Steps, ViewError};
use wy_why::why;

/// The lines of the source on which some of all that an event comes from stands, with their numbers, and a star where some of its data
/// does.
pub fn slice_text(
    alloc: Global,
    opened: &mut Opened<'_, MemoryView>,
    source: &[u8],
    event: u32,
) -> Result<Vec<u8>, AllocError>
    requires opened { IsOpenedOf (whole opened.old.view.events.items None) opened.old }
    requires there { event < length opened.old.view.events.items }
    ensures { IfOk result (λ text. text.items ≡ slice_text (program_of opened.old.program.now)
        opened.old.program.now.lines.items source.now
        (map recorded opened.old.view.events.items) event) }
{
    match slice_by::<Brand>(alloc, opened, source, event, Blank::new(1)) {
        Ok(text) => Ok(text),
        Err(error) => Err(want_of_memory(error)),
    }
}

/// The same, with a ledger for the steps, which nobody reads.
fn slice_by<L: Ledger>(
    alloc: Global,
    opened: &mut Opened<'_, MemoryView>,
    source: &[u8],
    event: u32,
    blank: Blank,
) -> Result<Vec<u8>, ViewError>
    requires opened { IsOpenedOf (whole opened.old.view.events.items None) opened.old }
    requires there { event < length opened.old.view.events.items }
    requires name { blank.name ≡ L.name }
    requires parts { blank.parts ≡ L.parts }
    requires some { 0 < blank.parts }
    ensures lines { IfOk result (λ text. text.items ≡ slice_text (program_of opened.old.program.now)
        opened.old.program.now.lines.items source.now
        (map recorded opened.old.view.events.items) event) }
    ensures memory { IfErr result (λ error. error ≡ NoMemory) }
{
    let mut steps = Steps::<L>::new(blank);
    let answer = why(alloc, &mut opened.view, &opened.index, event, &mut steps)?;
    let records = opened.view.events.as_slice();
    let all = tabled(alloc, opened.program, records, answer.all.as_slice())?;
    let flow = tabled(alloc, opened.program, records, answer.flow.as_slice())?;
    let lines = source_lines(alloc, source)?;
    let text = sliced(alloc, lines.as_slice(), &all, &flow)?;
    Ok(or_nothing(alloc, text)?)
}

/// The lines on which some of the events stand.
fn sliced(
    alloc: Global,
    lines: &[&[u8]],
    all: &Table<'_>,
    flow: &Table<'_>,
) -> Result<Vec<u8>, AllocError>
    ensures { (at : Places) → IsTable at all.now → IsTable at flow.now → IfOk result (λ text.
        text.items ≡ sliced at all.now.events.now flow.now.events.now 1
        (map (λ l. l.now) lines.now)) }
{
    let mut text = Vec::new(alloc);
    for (i, line) in lines.iter().enumerate() {
        put_sliced(alloc, &mut text, i + 1, line, all, flow)?;
    }
    Ok(text)
}

/// Puts a line, if some of the events stand on it.
fn put_sliced(
    alloc: Global,
    out: &mut Vec<u8>,
    number: usize,
    line: &[u8],
    all: &Table<'_>,
    flow: &Table<'_>,
) -> Result<(), AllocError>
    ensures { (at : Places) → IsTable at all.now → IsTable at flow.now → OnOk result (out.new.items
        ≡ out.old.items ++ sliced_line at all.now.events.now flow.now.events.now number line.now) }
{
    if !stands_on(all, number) {
        return Ok(());
    }
    put_numbered(alloc, out, number, stands_on(flow, number), line)?;
    Ok(())
}

/// Whether one of the events stands on a line.
pub fn stands_on(table: &Table<'_>, line: usize) -> bool
    ensures { (at : Places) → IsTable at table.now
        → result ≡ stands_on at line table.now.events.now }
{
    match table.rows.get(line) {
        Some(row) => !row.is_empty(),
        None => false,
    }
}

fn or_nothing(alloc: Global, text: Vec<u8>) -> Result<Vec<u8>, AllocError>
    ensures { IfOk result (λ told. told.items ≡ or_nothing text.items) }
{
    if text.is_empty() {
        return Vec::from_slice(alloc, "nothing in the source\n".as_bytes());
    }
    Ok(text)
}
