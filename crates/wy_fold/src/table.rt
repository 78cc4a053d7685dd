//! The events of a list, for each line on which they stand.
ghost use Rattle.std.specs.Prelude.{◌≡◌, ◌<◌, ◌++◌, ◌∷◌, [], IfOk, OnOk, length, map, replicate, slice_index_or, slice_set};
ghost use Rattle.wy_event.specs.Record.{recorded};
ghost use Rattle.wy_fold.specs.Groups.{IsTable, lists_of};
ghost use Rattle.wy_fold.specs.Places.{line_at};

use crate::place::{greatest_line, line_at};
use std::alloc::{AllocError, Global};
use wy_event::record::Event;
use wy_kernel::program::Program;

/// Events, and for each line those of them that stand on it; for 0 those of the library.
#[derive(Drop)]
pub struct Table<'a> {
    pub events: &'a [u32],
    pub rows: Vec<Vec<u32>>,
}

/// So many empty lists.
fn empty_rows(alloc: Global, many: usize) -> Result<Vec<Vec<u32>>, AllocError>
    ensures { IfOk result (λ rows. lists_of rows.items ≡ replicate many []) }
{
    let mut rows = Vec::with_capacity(alloc, many)?;
    for _ in 0..many {
        rows.push(Vec::new(alloc))?;
    }
    Ok(rows)
}

/// Puts an event behind those of its line.
fn put(rows: &mut Vec<Vec<u32>>, line: u32, event: u32) -> Result<(), AllocError>
    requires { line < length rows.old.items }
    ensures { OnOk result (lists_of rows.new.items ≡ slice_set (lists_of rows.old.items) line
        (slice_index_or (lists_of rows.old.items) line [] ++ event ∷ [])) }
{
    rows[line as usize].push(event)?;
    Ok(())
}

/// The events of a list by their lines.
pub fn tabled<'a>(
    alloc: Global,
    program: &Program,
    records: &[Event],
    events: &'a [u32],
) -> Result<Table<'a>, AllocError>
    ensures table { IfOk result (λ table.
        IsTable (line_at program.now.lines.items (map recorded records.now)) table) }
    ensures events { IfOk result (λ table. table.events ≡ events.entry) }
{
    let mut rows = empty_rows(alloc, greatest_line(program) as usize + 1)?;
    for event in events {
        put(&mut rows, line_at(program, records, *event), *event)?;
    }
    Ok(Table { events, rows })
}
