//! The page of an answer.
ghost use Rattle.std.specs.Prelude.{◌≡◌, ◌<◌, ◌++◌, List, None, Some, IfOk, OnOk, false, length, map};
ghost use Rattle.std.specs.List.{flat_map};
ghost use Rattle.wy_ask.specs.Opened.{IsOpenedOf};
ghost use Rattle.wy_event.specs.Record.{Recorded, recorded};
ghost use Rattle.wy_fold.specs.Places.{line_at};
ghost use Rattle.wy_kernel.specs.Parts.{program_of};
ghost use Rattle.wy_report.specs.Page.{IsReport, event_text, head_part, line_rows};
ghost use Rattle.wy_report.specs.Pieces.{written};
ghost use Rattle.wy_view.specs.View.{Keeps};
ghost use Rattle.wy_view.specs.Whole.{whole};

use crate::entries::put_entries;
use crate::line::put_line_rows;
use crate::piece::{Piece, put_pieces};
use crate::template::{between, closing, middle, opening, styles};
use std::alloc::{AllocError, Global};
use std::marker::Brand;
use std::sync::ledger::{Blank, Ledger};
use wy_ask::Opened;
use wy_event::record::Event;
use wy_fold::{event_text, source_lines, tabled};
use wy_kernel::program::Program;
use wy_view::{EventView, MemoryView, Steps, ViewError};
use wy_why::{Answer, why};

/// The page of all that an event comes from.
pub fn report_text(
    alloc: Global,
    opened: &mut Opened<'_, MemoryView>,
    source: &[u8],
    event: u32,
) -> Result<Vec<u8>, AllocError>
    requires opened { IsOpenedOf (whole opened.old.view.events.items None) opened.old }
    requires there { event < length opened.old.view.events.items }
    ensures { IfOk result (λ text. IsReport (program_of opened.old.program.now)
        opened.old.program.now.lines.items source.now
        (map recorded opened.old.view.events.items) event text.items) }
{
    match report_by::<Brand>(alloc, opened, source, event, Blank::new(1)) {
        Ok(text) => Ok(text),
        Err(_) => Err(AllocError),
    }
}

/// The same, with a ledger for the steps, which nobody reads. Events in memory refuse for want of memory alone.
fn report_by<L: Ledger>(
    alloc: Global,
    opened: &mut Opened<'_, MemoryView>,
    source: &[u8],
    event: u32,
    blank: Blank,
) -> Result<Vec<u8>, ViewError>
    requires opened { IsOpenedOf (whole opened.old.view.events.items None) opened.old }
    requires there { event < length opened.old.view.events.items }
    requires name { blank.name ≡ L.name }
    requires parts { blank.parts ≡ L.parts }
    requires some { 0 < blank.parts }
    ensures { IfOk result (λ text. IsReport (program_of opened.old.program.now)
        opened.old.program.now.lines.items source.now
        (map recorded opened.old.view.events.items) event text.items) }
{
    let mut steps = Steps::<L>::new(blank);
    let answer = why(alloc, &mut opened.view, &opened.index, event, &mut steps)?;
    let mut out = Vec::new(alloc);
    put_head(
        alloc,
        &mut out,
        opened.program,
        &mut opened.view,
        event,
        &mut steps,
    )?;
    let lines = source_lines(alloc, source)?;
    let records = opened.view.events.as_slice();
    put_source(
        alloc,
        &mut out,
        opened.program,
        records,
        lines.as_slice(),
        &answer,
    )?;
    put_pieces(&mut out, &[Piece::Markup(between())])?;
    put_entries(
        alloc,
        &mut out,
        opened.program,
        &mut opened.view,
        &opened.index,
        answer.all.as_slice(),
        answer.flow.as_slice(),
        lines.len(),
        &mut steps,
    )?;
    put_pieces(&mut out, &[Piece::Markup(closing())])?;
    Ok(out)
}

/// Puts the front of the page; the event that is asked about is its title and its heading.
fn put_head<V: EventView, L: Ledger>(
    alloc: Global,
    out: &mut Vec<u8>,
    program: &Program,
    view: &mut V,
    event: u32,
    steps: &mut Steps<L>,
) -> Result<(), ViewError>
    requires there { event < (V.tells view.old).count }
    ensures head { (rs : List Recorded) → (V.tells view.old).records ≡ Some rs
        → OnOk result (out.new.items ≡ out.old.items ++ flat_map written (head_part
        (event_text (program_of program.now) program.now.lines.items rs event false))) }
    ensures keeps { Keeps (V.tells view.old) (V.tells view.new) }
{
    let text = event_text(alloc, program, view, event, false, steps)?;
    put_front(out, text.as_slice())?;
    Ok(())
}

fn put_front(out: &mut Vec<u8>, text: &[u8]) -> Result<(), AllocError>
    ensures { OnOk result (out.new.items
        ≡ out.old.items ++ flat_map written (head_part text.now)) }
{
    put_pieces(
        out,
        &[
            Piece::Markup(opening()),
            Piece::Shown(text),
            Piece::Markup(styles()),
            Piece::Shown(text),
            Piece::Markup(middle()),
        ],
    )
}

/// Puts the lines of the source, those marked on which some of the answer stands.
fn put_source(
    alloc: Global,
    out: &mut Vec<u8>,
    program: &Program,
    records: &[Event],
    lines: &[&[u8]],
    answer: &Answer,
) -> Result<(), AllocError>
    ensures { OnOk result (out.new.items ≡ out.old.items ++ flat_map written (line_rows
        (line_at program.now.lines.items (map recorded records.now)) answer.now.all.items
        answer.now.flow.items 1 (map (λ l. l.now) lines.now))) }
{
    let all = tabled(alloc, program, records, answer.all.as_slice())?;
    let flow = tabled(alloc, program, records, answer.flow.as_slice())?;
    put_line_rows(out, lines, &all, &flow)
}
