//! The rows of what is shown.
ghost use Rattle.std.specs.Prelude.{◌≡◌, ◌<◌, ◌++◌, ℕ, List, Some, IfOk, OnOk, map};
ghost use Rattle.std.specs.Fmt.{decimal};
ghost use Rattle.wy_event.specs.Record.{Recorded};
ghost use Rattle.wy_fold.specs.Rows.{beside, blanks, count_line, folded_away, hidden, numbered_text, of_the_data, right, row_text, star_column, without_end};
ghost use Rattle.wy_kernel.specs.Parts.{program_of};
ghost use Rattle.wy_text.specs.EventLines.{event_line};
ghost use Rattle.wy_view.specs.View.{KeepsCounts, Keeps};

use crate::fold::Showing;
use crate::group::Group;
use crate::lines::trimmed_line;
use std::alloc::{AllocError, Global};
use std::sync::ledger::Ledger;
use wy_kernel::program::Program;
use wy_text::{put_count, put_event_line};
use wy_view::{EventView, Steps, ViewError};

/// The columns that numbers take, and the texts of events.
const NUMBER_WIDTH: usize = 6;

const EVENT_WIDTH: usize = 40;

fn put(out: &mut Vec<u8>, text: &str) -> Result<(), AllocError>
    ensures { OnOk result (out.new.items ≡ out.old.items ++ text.now) }
{
    out.extend_from_slice(text.as_bytes())
}

fn put_blanks(out: &mut Vec<u8>, many: usize) -> Result<(), AllocError>
    ensures { OnOk result (out.new.items ≡ out.old.items ++ blanks many) }
{
    for _ in 0..many {
        out.push(b' ')?;
    }
    Ok(())
}

/// Puts a number at the right of its column.
fn put_number(alloc: Global, out: &mut Vec<u8>, number: usize) -> Result<(), AllocError>
    ensures { OnOk result (out.new.items ≡ out.old.items ++ right 6 (decimal number)) }
{
    let mut digits = Vec::new(alloc);
    put_count(&mut digits, number)?;
    put_blanks(out, NUMBER_WIDTH.saturating_sub(digits.len()))?;
    out.extend_from_slice(digits.as_slice())
}

/// The text of an event, without the end of its line.
pub fn event_text<V: EventView, L: Ledger>(
    alloc: Global,
    program: &Program,
    view: &mut V,
    event: u32,
    marked: bool,
    steps: &mut Steps<L>,
) -> Result<Vec<u8>, ViewError>
    requires there { event < (V.tells view.old).count }
    ensures text { (rs : List Recorded) → (V.tells view.old).records ≡ Some rs
        → IfOk result (λ text. text.items ≡ without_end
        (event_line (program_of program.now) program.now.lines.items rs event marked)) }
    ensures keeps { Keeps (V.tells view.old) (V.tells view.new) }
    ensures answers { KeepsCounts result (V.tells view.old) (V.tells view.new) }
{
    let mut text = Vec::new(alloc);
    put_event_line(&mut text, program, view, event, marked, steps)?;
    text.pop();
    Ok(text)
}

/// Puts the text of an event, and behind it what the source has there.
fn put_beside(out: &mut Vec<u8>, text: &[u8], source: &[u8]) -> Result<(), AllocError>
    ensures { OnOk result (out.new.items ≡ out.old.items ++ beside text.now source.now) }
{
    out.extend_from_slice(text)?;
    if source.is_empty() {
        return Ok(());
    }
    put_blanks(out, EVENT_WIDTH.saturating_sub(text.len()))?;
    put(out, " ")?;
    out.extend_from_slice(source)
}

/// Puts how many events stand on a line, the text of the last of them, and what the source has there.
#[tactic(auto, unfolding(crate::specs::Rows::row_text))]
pub(crate) fn put_row<V: EventView, L: Ledger>(
    alloc: Global,
    out: &mut Vec<u8>,
    program: &Program,
    view: &mut V,
    lines: &[&[u8]],
    group: Group,
    steps: &mut Steps<L>,
) -> Result<(), ViewError>
    requires there { group.last < (V.tells view.old).count }
    ensures row { (rs : List Recorded) → (V.tells view.old).records ≡ Some rs
        → OnOk result (out.new.items ≡ out.old.items ++ row_text (program_of program.now)
        program.now.lines.items (map (λ l. l.now) lines.now) rs group) }
    ensures keeps { Keeps (V.tells view.old) (V.tells view.new) }
    ensures answers { KeepsCounts result (V.tells view.old) (V.tells view.new) }
{
    let text = event_text(alloc, program, view, group.last, group.of_data, steps)?;
    put_number(alloc, out, group.count)?;
    put(out, "x  ")?;
    put_beside(out, text.as_slice(), trimmed_line(lines, group.line))?;
    put(out, "\n")?;
    Ok(())
}

fn of_the_data(by_data: bool) -> &'static str
    ensures { result.now ≡ of_the_data by_data }
{
    if by_data { " of the data" } else { "" }
}

/// Puts how many events were folded away, where some were.
fn put_folded_away(out: &mut Vec<u8>, many: usize) -> Result<(), AllocError>
    ensures { OnOk result (out.new.items ≡ out.old.items ++ folded_away many) }
{
    if many == 0 {
        return Ok(());
    }
    put(out, ", ")?;
    put_count(out, many)?;
    put(out, " not shown: --all lists them")?;
    Ok(())
}

/// How many events are not shown.
fn hidden(showing: Showing, events: usize, groups: usize) -> usize
    ensures { result ≡ hidden showing events groups }
{
    if showing.is_open {
        0
    } else {
        events.saturating_sub(groups)
    }
}

/// Puts how many events there are, in how many groups.
#[tactic(auto, unfolding(crate::specs::Rows::count_line))]
pub(crate) fn put_count_line(
    out: &mut Vec<u8>,
    showing: Showing,
    events: usize,
    groups: usize,
) -> Result<(), AllocError>
    ensures { OnOk result (out.new.items ≡ out.old.items ++ count_line showing events groups) }
{
    put(out, "-- ")?;
    put_count(out, events)?;
    put(out, " events")?;
    put(out, of_the_data(showing.by_data))?;
    put(out, " in ")?;
    put_count(out, groups)?;
    put(out, " lines")?;
    put_folded_away(out, hidden(showing, events, groups))?;
    put(out, "\n")?;
    Ok(())
}

fn star_column(of_data: bool) -> &'static str
    ensures { result.now ≡ star_column of_data }
{
    if of_data { " * " } else { "   " }
}

/// Puts a line of the source with its number, and a star where one of the data stands on it.
#[tactic(auto, unfolding(crate::specs::Rows::numbered_text))]
pub(crate) fn put_numbered(
    alloc: Global,
    out: &mut Vec<u8>,
    number: usize,
    of_data: bool,
    text: &[u8],
) -> Result<(), AllocError>
    ensures { OnOk result (out.new.items ≡ out.old.items ++ numbered_text number of_data text.now) }
{
    put_number(alloc, out, number)?;
    put(out, star_column(of_data))?;
    out.extend_from_slice(text)?;
    put(out, "\n")
}
