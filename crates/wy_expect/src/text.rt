//! What is written of a run's output beside what was expected.
ghost use Rattle.std.specs.Prelude.{◌≡◌, ◌≢◌, false, true, None, Some, IfOk, map};
ghost use Rattle.wy_ask.specs.Opened.{IsOpenedOf, StaysOpened};
ghost use Rattle.wy_event.specs.Record.{recorded};
ghost use Rattle.wy_expect.specs.Expected.{IsFirstOther, printed_to, without_returns};
ghost use Rattle.wy_expect.specs.Texts.{IsExpectText, SaysOfBegun, as_expected_line, other_text};
ghost use Rattle.wy_kernel.specs.Parts.{program_of};
ghost use Rattle.wy_telling.specs.Output.{output_text};
ghost use Rattle.wy_telling.specs.Printed.{printed};
ghost use Rattle.wy_view.specs.Whole.{whole};

use crate::line::{beside_text, put};
use crate::missing::never_text;
use crate::plain::{plain, whole_lines};
use crate::walk::walk;
use std::alloc::{AllocError, Global};
use wy_ask::Opened;
use wy_event::record::Tail;
use wy_fold::{Showing, show_text};
use wy_telling::{output_text, want_of_memory};
use wy_view::MemoryView;

#[tactic(auto, unfolding(crate::specs::Texts::as_expected_line))]
fn as_expected(alloc: Global) -> Result<Vec<u8>, AllocError>
    ensures { IfOk result (λ text. text.items ≡ as_expected_line) }
{
    let mut text = Vec::new(alloc);
    put(&mut text, "as expected\n")?;
    Ok(text)
}

fn is_same(expected: &[u8], found: &[u8]) -> bool
    ensures same { result ≡ true → expected.now ≡ found.now }
    ensures other { result ≡ false → expected.now ≢ found.now }
{
    expected == found
}

/// What the run wrote, and how it ended.
fn report(
    alloc: Global,
    opened: &mut Opened<'_, MemoryView>,
    tail: &Tail,
) -> Result<Vec<u8>, AllocError>
    ensures text { IfOk result (λ text. text.items
        ≡ output_text (program_of opened.old.program.now) opened.old.program.now.lines.items
        (map recorded opened.old.view.events.items) tail.now) }
    ensures stays { StaysOpened (λ v. whole v.events.items None) opened.old opened.new }
{
    match output_text(alloc, opened.program, &mut opened.view, tail) {
        Ok(text) => Ok(text),
        Err(error) => Err(want_of_memory(error)),
    }
}

/// What is said where all that was printed begins what is expected: that it is all, or which statements never printed, and why.
fn begun_text(
    alloc: Global,
    opened: &mut Opened<'_, MemoryView>,
    tail: &Tail,
    output: Vec<u8>,
    expected: &[u8],
) -> Result<Vec<u8>, AllocError>
    requires opened { IsOpenedOf (whole opened.old.view.events.items None) opened.old }
    requires output { output.items ≡ without_returns (printed (program_of opened.old.program.now)
        (map recorded opened.old.view.events.items)) }
    ensures { IfOk result (λ text. SaysOfBegun (program_of opened.old.program.now)
        opened.old.program.now.lines.items (map recorded opened.old.view.events.items)
        opened.old.coverage.now tail.now expected.now text.items) }
{
    let lines = whole_lines(output)?;
    if is_same(expected, lines.as_slice()) {
        return as_expected(alloc);
    }
    let report = report(alloc, opened, tail)?;
    let found = plain(alloc, report.as_slice())?;
    if is_same(expected, found.as_slice()) {
        return as_expected(alloc);
    }
    let mut out = beside_text(alloc, expected, found.as_slice())?;
    let never = never_text(alloc, opened)?;
    out.extend_from_slice(never.as_slice())?;
    Ok(out)
}

/// What is said of a print that is another than was expected.
#[tactic(auto, unfolding(crate::specs::Texts::other_text))]
fn other_text(
    alloc: Global,
    opened: &mut Opened<'_, MemoryView>,
    source: &[u8],
    expected: &[u8],
    printed: &[u8],
    event: u32,
) -> Result<Vec<u8>, AllocError>
    requires opened { IsOpenedOf (whole opened.old.view.events.items None) opened.old }
    requires other { IsFirstOther (program_of opened.old.program.now)
        (map recorded opened.old.view.events.items) expected.now event }
    requires to { printed.now ≡ printed_to (program_of opened.old.program.now)
        (map recorded opened.old.view.events.items) (Some event) }
    ensures { IfOk result (λ text. text.items ≡ other_text (program_of opened.old.program.now)
        opened.old.program.now.lines.items source.now
        (map recorded opened.old.view.events.items) expected.now event) }
{
    let mut out = beside_text(alloc, expected, printed)?;
    let showing = Showing {
        is_open: false,
        by_data: false,
    };
    let rows = show_text(alloc, opened, source, event, showing)?;
    out.extend_from_slice(rows.as_slice())?;
    Ok(out)
}

/// What a run printed beside what was expected of it: the first print that is another, with all that it comes from by the lines of the
/// source; or that all is as expected; or where the output ends too early, the statements that print and never ran, and why.
pub fn expect_text(
    alloc: Global,
    opened: &mut Opened<'_, MemoryView>,
    source: &[u8],
    tail: &Tail,
    file: &[u8],
) -> Result<Vec<u8>, AllocError>
    requires { IsOpenedOf (whole opened.old.view.events.items None) opened.old }
    ensures { IfOk result (λ text. IsExpectText (program_of opened.old.program.now)
        opened.old.program.now.lines.items source.now
        (map recorded opened.old.view.events.items) opened.old.coverage.now tail.now file.now
        text.items) }
{
    let expected = plain(alloc, file)?;
    let walk = walk(alloc, opened, expected.as_slice())?;
    match walk.other {
        Some(event) => {
            let printed = walk.printed.as_slice();
            other_text(alloc, opened, source, expected.as_slice(), printed, event)
        }
        None => begun_text(alloc, opened, tail, walk.printed, expected.as_slice()),
    }
}
