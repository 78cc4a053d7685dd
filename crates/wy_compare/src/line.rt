//! The lines of what is written of two runs.
ghost use Rattle.std.specs.Prelude.{◌≡◌, ◌++◌, ℕ, List, Some, OnOk, slice_get};
ghost use Rattle.wy_compare.specs.Compared.{both_lines, event_or_end, next_line, part_text, question_line};
ghost use Rattle.wy_event.specs.Record.{Recorded};
ghost use Rattle.wy_kernel.specs.Parts.{program_of};
ghost use Rattle.wy_view.specs.View.{Keeps};

use std::alloc::AllocError;
use std::sync::ledger::Ledger;
use wy_kernel::program::Program;
use wy_text::{put_decimal, put_event_line};
use wy_view::{EventView, Steps, ViewError};

pub(crate) fn put(out: &mut Vec<u8>, text: &str) -> Result<(), AllocError>
    ensures { OnOk result (out.new.items ≡ out.old.items ++ text.now) }
{
    out.extend_from_slice(text.as_bytes())
}

fn put_name(out: &mut Vec<u8>, name: &[u8]) -> Result<(), AllocError>
    ensures { OnOk result (out.new.items ≡ out.old.items ++ name.now) }
{
    out.extend_from_slice(name)
}

/// Puts the line of an event, or that the run has ended.
fn put_event_or_end<V: EventView, L: Ledger>(
    out: &mut Vec<u8>,
    program: &Program,
    view: &mut V,
    event: u32,
    steps: &mut Steps<L>,
) -> Result<(), ViewError>
    ensures line { (rs : List Recorded) → (V.tells view.old).records ≡ Some rs
        → OnOk result (out.new.items ≡ out.old.items ++ event_or_end (program_of program.now)
        program.now.lines.items rs event (slice_get rs event)) }
    ensures keeps { Keeps (V.tells view.old) (V.tells view.new) }
{
    if event >= view.count() {
        put(out, "ended\n")?;
        return Ok(());
    }
    put_event_line(out, program, view, event, false, steps)
}

/// Puts what two runs have at a place.
fn put_both<V: EventView, L: Ledger>(
    out: &mut Vec<u8>,
    program: &Program,
    good: &mut V,
    bad: &mut V,
    event: u32,
    steps: &mut Steps<L>,
) -> Result<(), ViewError>
    ensures lines { (rs qs : List Recorded) → (V.tells good.old).records ≡ Some rs
        → (V.tells bad.old).records ≡ Some qs
        → OnOk result (out.new.items ≡ out.old.items ++ both_lines (program_of program.now)
        program.now.lines.items rs qs event) }
    ensures good { Keeps (V.tells good.old) (V.tells good.new) }
    ensures bad { Keeps (V.tells bad.old) (V.tells bad.new) }
{
    put(out, "< ")?;
    put_event_or_end(out, program, good, event, steps)?;
    put(out, "> ")?;
    put_event_or_end(out, program, bad, event, steps)
}

/// Puts what parts at a place, and what the runs have there.
#[tactic(auto, unfolding(crate::specs::Compared::part_text))]
pub(crate) fn put_part<V: EventView, L: Ledger>(
    out: &mut Vec<u8>,
    program: &Program,
    good: &mut V,
    bad: &mut V,
    what: &str,
    event: u32,
    steps: &mut Steps<L>,
) -> Result<(), ViewError>
    ensures part { (rs qs : List Recorded) → (V.tells good.old).records ≡ Some rs
        → (V.tells bad.old).records ≡ Some qs
        → OnOk result (out.new.items ≡ out.old.items ++ part_text (program_of program.now)
        program.now.lines.items rs qs what.now event) }
    ensures good { Keeps (V.tells good.old) (V.tells good.new) }
    ensures bad { Keeps (V.tells bad.old) (V.tells bad.new) }
{
    put(out, what)?;
    put(out, " part at #")?;
    put_decimal(out, event)?;
    put(out, "\n")?;
    put_both(out, program, good, bad, event, steps)
}

/// Puts a question about an event of the second run.
#[tactic(auto, unfolding(crate::specs::Compared::question_line))]
pub(crate) fn put_question(
    out: &mut Vec<u8>,
    command: &str,
    name: &[u8],
    event: u32,
) -> Result<(), AllocError>
    ensures { OnOk result (out.new.items
        ≡ out.old.items ++ question_line command.now name.now event) }
{
    put(out, "ask: whyline ")?;
    put(out, command)?;
    put(out, " ")?;
    put_name(out, name)?;
    put(out, " e")?;
    put_decimal(out, event)?;
    put(out, "\n")
}

/// Asks why the second run has its event at a place, or why it stopped.
#[tactic(auto, unfolding(crate::specs::Compared::next_line))]
pub(crate) fn put_next(
    out: &mut Vec<u8>,
    name: &[u8],
    event: u32,
    is_there: bool,
) -> Result<(), AllocError>
    ensures { OnOk result (out.new.items
        ≡ out.old.items ++ next_line name.now event is_there) }
{
    if is_there {
        return put_question(out, "why", name, event);
    }
    put(out, "ask: whylens show ")?;
    put_name(out, name)?;
    put(out, " --stop\n")
}
