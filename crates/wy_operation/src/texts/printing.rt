//! `print` and `println`.

ghost use Rattle.std.specs.Prelude.{◌≡◌, ◌++◌, IfOk};
ghost use Rattle.wy_kernel.specs.Parts.{program_of};
ghost use Rattle.wy_kernel.specs.Program as kernel;
ghost use Rattle.wy_meaning.specs.Text.{line_end, print_nothing};
ghost use Rattle.wy_meaning.specs.World.{World};
ghost use Rattle.wy_operation.specs.Around.{Keeps};
ghost use Rattle.wy_state.specs.Agrees.{shape, StepGives, itself};
ghost use Rattle.wy_state.specs.Seen.{given};
ghost use Rattle.wy_steps.specs.Sets.{nothing};
ghost use Rattle.wy_value.specs.Encoding.{utf8_of};
ghost use Rattle.wy_operation.specs.Words.{printed};

use crate::texts::text::spelling_units;
use std::alloc::{AllocError, Global};
use wy_event::record::Use;
use wy_kernel::program::Program;
use wy_state::parts::Halt;
use wy_state::register::Register;
use wy_state::state::State;
use wy_value::{Value, to_utf8};

const LINE_FEED: u8 = 10;

/// Prints a value that is shown.
pub fn print_text<R: Register>(
    state: &mut State<'_, R>,
    program: &Program,
    value: Value,
    uses: &[Use],
    ends_line: bool,
    site: u32,
) -> Result<(), Halt>
    ensures step { (w : World nothing) → w.program ≡ program_of program.now
        → StepGives (program_of program.now) itself result (shape R.keeps R.kept state.old)
        (printed w ends_line site (given value uses.now)) (shape R.keeps R.kept state.new) }
    ensures around { Keeps result state.old.calls state.new.calls }
{
    let units = spelling_units(state, program, value)?;
    let bytes = line(state.alloc, units.as_slice(), ends_line)?;
    state.print(site, value, bytes.as_slice(), uses)
}

/// Prints nothing, or the end of a line.
pub fn print_nothing<R: Register>(
    state: &mut State<'_, R>,
    ends_line: bool,
    site: u32,
) -> Result<(), Halt>
    ensures step { (p : kernel.Program) → StepGives p itself result (shape R.keeps R.kept state.old)
        (print_nothing ends_line site) (shape R.keeps R.kept state.new) }
    ensures around { Keeps result state.old.calls state.new.calls }
{
    state.print(site, Value::None, line_end(ends_line), &[])
}

/// The bytes of a text, and of the end of the line.
fn line(alloc: Global, units: &[u16], ends_line: bool) -> Result<Vec<u8>, AllocError>
    ensures { IfOk result (λ bytes. bytes.items ≡ utf8_of units.now ++ line_end ends_line) }
{
    let mut bytes = to_utf8(alloc, units)?;
    bytes.extend_from_slice(line_end(ends_line))?;
    Ok(bytes)
}

#[tactic(auto, unfolding(wy_meaning::specs::Text::line_end))]
fn line_end(ends_line: bool) -> &'static [u8]
    ensures { result.now ≡ line_end ends_line }
{
    if ends_line { &[LINE_FEED] } else { &[] }
}
