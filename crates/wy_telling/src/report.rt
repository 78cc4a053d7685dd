//! What is written of a run: its output in whole lines, and how it ended.

ghost use Rattle.std.specs.Prelude.{◌≡◌, ◌++◌, ◌<◌, List, Some, IfOk};
ghost use Rattle.wy_event.specs.Record.{Recorded};
ghost use Rattle.wy_kernel.specs.View.{present};
ghost use Rattle.wy_kernel.specs.Parts.{program_of};
ghost use Rattle.wy_telling.specs.Output.{ends_its_line as ends_line, output_text, whole_lines};
ghost use Rattle.wy_text.specs.EndLines.{stop_line};
ghost use Rattle.wy_view.specs.View.{KeepsCounts, Keeps};

use crate::print::printed;
use crate::thrown::thrown;
use std::alloc::{AllocError, Global};
use std::marker::Brand;
use std::sync::ledger::{Blank, Ledger};
use wy_event::record::{Tail, Thrown};
use wy_kernel::program::Program;
use wy_text::stop_line;
use wy_view::{EventView, Steps, ViewError};

/// What a trace says that its run wrote, and how it ended.
pub fn output_text<V: EventView>(
    alloc: Global,
    program: &Program,
    view: &mut V,
    tail: &Tail,
) -> Result<Vec<u8>, ViewError>
    ensures text { (rs : List Recorded) → (V.tells view.old).records ≡ Some rs
        → IfOk result (λ text. text.items ≡ output_text (program_of program.now)
        program.now.lines.items rs tail.now) }
    ensures keeps { Keeps (V.tells view.old) (V.tells view.new) }
    ensures answers { KeepsCounts result (V.tells view.old) (V.tells view.new) }
{
    all_output::<V, Brand>(alloc, program, view, tail, Blank::new(1))
}

/// The same, with a ledger for the steps, which nobody reads.
#[tactic(auto, unfolding(crate::specs::Output::output_text))]
fn all_output<V: EventView, L: Ledger>(
    alloc: Global,
    program: &Program,
    view: &mut V,
    tail: &Tail,
    blank: Blank,
) -> Result<Vec<u8>, ViewError>
    requires name { blank.name ≡ L.name }
    requires parts { blank.parts ≡ L.parts }
    requires some { 0 < blank.parts }
    ensures text { (rs : List Recorded) → (V.tells view.old).records ≡ Some rs
        → IfOk result (λ text. text.items ≡ output_text (program_of program.now)
        program.now.lines.items rs tail.now) }
    ensures keeps { Keeps (V.tells view.old) (V.tells view.new) }
    ensures answers { KeepsCounts result (V.tells view.old) (V.tells view.new) }
{
    let mut steps = Steps::<L>::new(blank);
    let output = printed(alloc, program, view, &mut steps)?;
    let thrown = thrown(view, tail.last, &mut steps)?;
    Ok(whole_report(alloc, program, output, tail.stop, &thrown)?)
}

/// An output in whole lines, and the line of a stop.
pub fn whole_report(
    alloc: Global,
    program: &Program,
    output: Vec<u8>,
    stop: u8,
    thrown: &Thrown,
) -> Result<Vec<u8>, AllocError>
    ensures { IfOk result (λ text. text.items ≡ whole_lines output.items
        ++ stop_line (program_of program.now) program.now.lines.items stop
        (present thrown.now.class) (present thrown.now.site)) }
{
    let mut text = output;
    if !ends_its_line(text.as_slice()) {
        text.push(b'\n')?;
    }
    let last = stop_line(alloc, program, stop, thrown)?;
    text.extend_from_slice(last.as_slice())?;
    Ok(text)
}

/// Whether an output is nothing, or its last byte is a line feed.
pub fn ends_its_line(output: &[u8]) -> bool
    ensures { result ≡ ends_line output.now }
{
    match output {
        [] => true,
        [.., last] => *last == b'\n',
    }
}
