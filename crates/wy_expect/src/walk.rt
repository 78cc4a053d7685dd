//! A walk through the prints of a run, as far as they are what was expected.
ghost use Rattle.std.specs.Prelude.{◌≡◌, ◌++◌, ◌≤◌, ◌<◌, ◌↔◌, IsTrue, IfOk, None, OnOk, Some, length, map, slice_get, take};
ghost use Rattle.wy_ask.specs.Opened.{StaysOpened};
ghost use Rattle.wy_event.specs.Record.{Recorded, recorded};
ghost use Rattle.wy_expect.specs.Expected.{Begins, IsWalk, without_returns};
ghost use Rattle.wy_kernel.specs.Parts.{program_of};
ghost use Rattle.wy_telling.specs.Printed.{AreLineEnds, printed_by};
ghost use Rattle.wy_view.specs.View.{KeepsCounts, Keeps};
ghost use Rattle.wy_view.specs.Whole.{whole};

use crate::plain::without_returns;
use std::alloc::{AllocError, Global};
use std::marker::Brand;
use std::sync::ledger::{Blank, Ledger};
use wy_ask::Opened;
use wy_kernel::program::Program;
use wy_telling::{LineEnds, put_printed, want_of_memory};
use wy_view::{EventView, MemoryView, Steps, ViewError};

/// What was printed, but for carriage returns, up to the first event that printed something else, or in all.
#[derive(Drop)]
pub struct Walked {
    /// The bytes, those of that event included.
    pub printed: Vec<u8>,
    pub other: Option<u32>,
}

fn begins(text: &[u8], front: &[u8]) -> bool
    ensures { IsTrue result ↔ Begins front.now text.now }
{
    text.starts_with(front)
}

/// Whether what was printed begins what is expected, where all but the last of it does.
fn goes_on(expected: &[u8], printed: &[u8], before: usize) -> bool
    requires inside { before ≤ length printed.now }
    requires begins { Begins (take before printed.now) expected.now }
    ensures { IsTrue result ↔ Begins printed.now expected.now }
{
    begins(&expected[before..], &printed[before..])
}

/// Puts what event n printed, but for carriage returns.
fn put_plain<L: Ledger>(
    alloc: Global,
    printed: &mut Vec<u8>,
    program: &Program,
    ends: &LineEnds,
    view: &mut MemoryView,
    n: u32,
    steps: &mut Steps<L>,
) -> Result<(), ViewError>
    requires there { n < length view.old.events.items }
    ensures printed { (e : Recorded) → slice_get (map recorded view.old.events.items) n ≡ Some e
        → AreLineEnds (program_of program.now) ends.now
        → OnOk result (printed.new.items ≡ printed.old.items
        ++ without_returns (printed_by (program_of program.now)
        (map recorded view.old.events.items) e)) }
    ensures keeps { Keeps (whole view.old.events.items None) (whole view.new.events.items None) }
    ensures answers { KeepsCounts result
        (whole view.old.events.items None) (whole view.new.events.items None) }
{
    let mut own = Vec::new(alloc);
    put_printed(alloc, &mut own, program, ends, view, n, steps)?;
    let plain = without_returns(alloc, own.as_slice())?;
    printed.extend_from_slice(plain.as_slice())?;
    Ok(())
}

/// Goes through the events until one printed something else, with a ledger for the steps, which nobody reads.
fn walk_by<L: Ledger>(
    alloc: Global,
    program: &Program,
    view: &mut MemoryView,
    expected: &[u8],
    blank: Blank,
) -> Result<Walked, ViewError>
    requires name { blank.name ≡ L.name }
    requires parts { blank.parts ≡ L.parts }
    requires some { 0 < blank.parts }
    ensures walk { IfOk result (IsWalk (program_of program.now)
        (map recorded view.old.events.items) expected.now) }
    ensures keeps { Keeps (whole view.old.events.items None) (whole view.new.events.items None) }
    ensures answers { KeepsCounts result
        (whole view.old.events.items None) (whole view.new.events.items None) }
{
    let mut steps = Steps::<L>::new(blank);
    let ends = LineEnds::of(alloc, program)?;
    let mut printed = Vec::new(alloc);
    for n in 0..view.count() {
        let before = printed.len();
        put_plain(alloc, &mut printed, program, &ends, view, n, &mut steps)?;
        if !goes_on(expected, printed.as_slice(), before) {
            return Ok(Walked {
                printed,
                other: Some(n),
            });
        }
    }
    Ok(Walked {
        printed,
        other: None,
    })
}

/// Goes through the events of a run until one printed something else.
pub fn walk(
    alloc: Global,
    opened: &mut Opened<'_, MemoryView>,
    expected: &[u8],
) -> Result<Walked, AllocError>
    ensures walk { IfOk result (IsWalk (program_of opened.old.program.now)
        (map recorded opened.old.view.events.items) expected.now) }
    ensures stays { StaysOpened (λ v. whole v.events.items None) opened.old opened.new }
{
    let view = &mut opened.view;
    match walk_by::<Brand>(alloc, opened.program, view, expected, Blank::new(1)) {
        Ok(walked) => Ok(walked),
        Err(error) => Err(want_of_memory(error)),
    }
}
