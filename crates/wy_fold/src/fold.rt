//! All that an event comes from, folded by the lines of the source.
ghost use Rattle.std.specs.Prelude.{◌≡◌, ◌++◌, ◌<◌, ℕ, List, None, Some, IfErr, IfOk, OnOk, length, map, if◌then◌else◌};
ghost use Rattle.std.specs.List.{flat_map};
ghost use Rattle.wy_ask.specs.Opened.{IsOpenedOf};
ghost use Rattle.wy_event.specs.Numbers.{Numbers};
ghost use Rattle.wy_event.specs.Record.{Recorded, recorded};
ghost use Rattle.wy_fold.specs.Groups.{AreOfData, CanBeShown, IsFold, row_of};
ghost use Rattle.wy_fold.specs.Shown.{group_text, opened_text, show_text};
ghost use Rattle.wy_kernel.specs.Parts.{program_of};
ghost use Rattle.wy_view.specs.View.{KeepsCounts, Keeps};
ghost use Rattle.wy_view.specs.Whole.{whole};
ghost use Rattle.wy_view.specs.declared.view.ViewError.TheVariants.{NoMemory};
ghost use Rattle.wy_why.specs.Answer.{Rises};

use crate::group::{Group, groups};
use crate::lines::source_lines;
use crate::row::{put_count_line, put_row};
use crate::table::{Table, tabled};
use std::alloc::{AllocError, Global};
use std::marker::Brand;
use std::sync::ledger::{Blank, Ledger};
use wy_ask::Opened;
use wy_kernel::program::Program;
use wy_telling::{answer_lines, want_of_memory};
use wy_view::{EventView, MemoryView, Steps, ViewError};
use wy_why::{Answer, why};

/// How an answer is shown.
#[derive(Clone, Copy, Debug, PartialEq, Eq)]
pub struct Showing {
    /// Each group is opened to its events.
    pub is_open: bool,
    /// The events of the data alone are shown.
    pub by_data: bool,
}

/// The groups of an answer, with the lines of the source and the tables of its events and of those of the data.
#[derive(Drop)]
struct Fold<'a> {
    lines: Vec<&'a [u8]>,
    all: Table<'a>,
    flow: Table<'a>,
    groups: Vec<Group>,
}

/// All that an event comes from, or what it comes from by data: a row for each line on which an event of it stands, and how many there
/// are.
pub fn show_text(
    alloc: Global,
    opened: &mut Opened<'_, MemoryView>,
    source: &[u8],
    event: u32,
    showing: Showing,
) -> Result<Vec<u8>, AllocError>
    requires opened { IsOpenedOf (whole opened.old.view.events.items None) opened.old }
    requires there { event < length opened.old.view.events.items }
    ensures { IfOk result (λ text. text.items ≡ show_text (program_of opened.old.program.now)
        opened.old.program.now.lines.items source.now
        (map recorded opened.old.view.events.items) event showing) }
{
    match show_by::<Brand>(alloc, opened, source, event, showing, Blank::new(1)) {
        Ok(text) => Ok(text),
        Err(error) => Err(want_of_memory(error)),
    }
}

/// The same, with a ledger for the steps, which nobody reads.
fn show_by<L: Ledger>(
    alloc: Global,
    opened: &mut Opened<'_, MemoryView>,
    source: &[u8],
    event: u32,
    showing: Showing,
    blank: Blank,
) -> Result<Vec<u8>, ViewError>
    requires opened { IsOpenedOf (whole opened.old.view.events.items None) opened.old }
    requires there { event < length opened.old.view.events.items }
    requires name { blank.name ≡ L.name }
    requires parts { blank.parts ≡ L.parts }
    requires some { 0 < blank.parts }
    ensures rows { IfOk result (λ text. text.items ≡ show_text (program_of opened.old.program.now)
        opened.old.program.now.lines.items source.now
        (map recorded opened.old.view.events.items) event showing) }
    ensures memory { IfErr result (λ error. error ≡ NoMemory) }
{
    let mut steps = Steps::<L>::new(blank);
    let answer = why(alloc, &mut opened.view, &opened.index, event, &mut steps)?;
    let fold = folded(
        alloc,
        opened,
        source,
        shown(&answer, showing),
        answer.flow.as_slice(),
    )?;
    let mut out = group_lines(
        alloc,
        opened.program,
        &mut opened.view,
        &fold,
        showing.is_open,
        &mut steps,
    )?;
    put_count_line(&mut out, showing, fold.all.events.len(), fold.groups.len())?;
    Ok(out)
}

/// The events that are shown of an answer.
fn shown<'a>(answer: &'a Answer, showing: Showing) -> &'a [u32]
    ensures { result.now
        ≡ (if showing.by_data then answer.entry.now.flow.items else answer.entry.now.all.items) }
{
    if showing.by_data {
        answer.flow.as_slice()
    } else {
        answer.all.as_slice()
    }
}

/// The groups of these events.
fn folded<'a>(
    alloc: Global,
    opened: &Opened<'_, MemoryView>,
    source: &'a [u8],
    all: &'a [u32],
    flow: &'a [u32],
) -> Result<Fold<'a>, AllocError>
    ensures { IfOk result (IsFold opened.now.program.now.lines.items
        (map recorded opened.now.view.events.items) source.entry.now all.entry.now
        flow.entry.now) }
{
    let records = opened.view.events.as_slice();
    let all = tabled(alloc, opened.program, records, all)?;
    let flow = tabled(alloc, opened.program, records, flow)?;
    let found = groups(alloc, opened.program, records, &all, &flow)?;
    let lines = source_lines(alloc, source)?;
    Ok(Fold {
        lines,
        all,
        flow,
        groups: found,
    })
}

/// The rows of the groups, each with the lines of its events where they are opened.
fn group_lines<V: EventView, L: Ledger>(
    alloc: Global,
    program: &Program,
    view: &mut V,
    fold: &Fold<'_>,
    is_open: bool,
    steps: &mut Steps<L>,
) -> Result<Vec<u8>, ViewError>
    requires there { CanBeShown (V.tells view.old).count fold.now }
    ensures lines { (rs : List Recorded) → (V.tells view.old).records ≡ Some rs
        → (by_data : Numbers) → AreOfData by_data fold.now
        → IfOk result (λ text. text.items ≡ flat_map (group_text (program_of program.now)
        program.now.lines.items (map (λ l. l.now) fold.now.lines.items) rs by_data
        (row_of fold.now.all) is_open) fold.now.groups.items) }
    ensures keeps { Keeps (V.tells view.old) (V.tells view.new) }
    ensures answers { KeepsCounts result (V.tells view.old) (V.tells view.new) }
{
    let mut out = Vec::new(alloc);
    for group in fold.groups.as_slice() {
        put_row(
            alloc,
            &mut out,
            program,
            view,
            fold.lines.as_slice(),
            *group,
            steps,
        )?;
        put_opened(alloc, &mut out, program, view, fold, *group, is_open, steps)?;
    }
    Ok(out)
}

/// Puts the lines of the events of a group, where groups are opened.
fn put_opened<V: EventView, L: Ledger>(
    alloc: Global,
    out: &mut Vec<u8>,
    program: &Program,
    view: &mut V,
    fold: &Fold<'_>,
    group: Group,
    is_open: bool,
    steps: &mut Steps<L>,
) -> Result<(), ViewError>
    requires in_all { group.line < length fold.now.all.rows.items }
    requires in_flow { group.line < length fold.now.flow.rows.items }
    requires rises { Rises 0 (V.tells view.old).count (row_of fold.now.all group.line) }
    ensures lines { (rs : List Recorded) → (V.tells view.old).records ≡ Some rs
        → (by_data : Numbers) → AreOfData by_data fold.now
        → OnOk result (out.new.items ≡ out.old.items ++ opened_text (program_of program.now)
        program.now.lines.items rs by_data is_open (row_of fold.now.all group.line)) }
    ensures keeps { Keeps (V.tells view.old) (V.tells view.new) }
    ensures answers { KeepsCounts result (V.tells view.old) (V.tells view.new) }
{
    if !is_open {
        return Ok(());
    }
    let here = Answer {
        all: Vec::from_slice(alloc, fold.all.rows[group.line as usize].as_slice())?,
        flow: Vec::from_slice(alloc, fold.flow.rows[group.line as usize].as_slice())?,
    };
    let text = answer_lines(alloc, program, view, &here, steps)?;
    out.extend_from_slice(text.as_slice())?;
    Ok(())
}
