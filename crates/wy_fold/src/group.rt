//! The events of an answer, together where they stand on one line.
ghost use Rattle.std.specs.Prelude.{◌≡◌, IfOk, map};
ghost use Rattle.wy_event.specs.Record.{recorded};
ghost use Rattle.wy_fold.specs.Groups.{IsTable, groups as groups_of};
ghost use Rattle.wy_fold.specs.Places.{is_last, line_at};

use crate::place::line_at;
use crate::table::Table;
use std::alloc::{AllocError, Global};
use wy_event::record::Event;
use wy_kernel::program::Program;

/// The events that stand on a line, and on 0 those of the library.
#[derive(Clone, Copy, Debug, PartialEq, Eq)]
pub struct Group {
    pub line: u32,
    /// The last of them.
    pub last: u32,
    pub count: usize,
    /// One of them is of the data.
    pub of_data: bool,
}

fn is_last(events: &[u32], event: u32) -> bool
    ensures { result ≡ is_last events.now event }
{
    match events {
        [] => false,
        [.., last] => *last == event,
    }
}

/// The groups of these events, in the order of the last ones.
pub(crate) fn groups(
    alloc: Global,
    program: &Program,
    records: &[Event],
    all: &Table<'_>,
    flow: &Table<'_>,
) -> Result<Vec<Group>, AllocError>
    requires all { IsTable (line_at program.now.lines.items (map recorded records.now)) all.now }
    requires flow { IsTable (line_at program.now.lines.items (map recorded records.now)) flow.now }
    ensures { IfOk result (λ found. found.items
        ≡ groups_of (line_at program.now.lines.items (map recorded records.now))
        all.now.events.now flow.now.events.now) }
{
    let mut found = Vec::new(alloc);
    for event in all.events {
        let line = line_at(program, records, *event);
        let here = all.rows[line as usize].as_slice();
        if is_last(here, *event) {
            found.push(Group {
                line,
                last: *event,
                count: here.len(),
                of_data: !flow.rows[line as usize].is_empty(),
            })?;
        }
    }
    Ok(found)
}
