//! Operations of the library on arguments that are there; the receiver, where there is one, is the first.

ghost use Rattle.std.specs.Prelude.{◌≡◌, List, map};
ghost use Rattle.wy_event.specs.declared.record.Use.{Use};
ghost use Rattle.wy_kernel.specs.Parts.{program_of};
ghost use Rattle.wy_meaning.specs.Library.{byte_value, library, read_byte};
ghost use Rattle.wy_meaning.specs.World.{World};
ghost use Rattle.wy_operation.specs.Around.{Keeps};
ghost use Rattle.wy_state.specs.Agrees.{shape, StepGives};
ghost use Rattle.wy_state.specs.Seen.{given};
ghost use Rattle.wy_steps.specs.Sets.{nothing};
ghost use Rattle.wy_operation.specs.Found.{found_of};
ghost use Rattle.wy_kernel.specs.Program as kernel;
ghost use Rattle.wy_operation.specs.Operands.{carried};
ghost use Rattle.wy_steps.specs.Steps.{joined_all};

use crate::operand::Part;
use crate::texts::found::Found;
use crate::texts::one::library_one;
use crate::texts::three::library_three;
use crate::texts::two::library_two;
use wy_event::record::{Kind, Use};
use wy_kernel::form::LibOp;
use wy_kernel::program::Program;
use wy_state::parts::{Draft, Halt};
use wy_state::register::Register;
use wy_state::state::State;
use wy_value::Value;

/// What an operation gives; `all` has the uses of the arguments, joined in order.
pub fn library<R: Register>(
    state: &mut State<'_, R>,
    program: &Program,
    op: LibOp,
    parts: &[Part<'_>],
    all: &[Use],
    site: u32,
) -> Result<Found, Halt>
    ensures step { (w : World nothing) → w.program ≡ program_of program.now
        → (joined_all (map carried parts.now)).uses ≡ all.now
        → StepGives (program_of program.now) (found_of all.now) result
        (shape R.keeps R.kept state.old) (library w op site (map carried parts.now))
        (shape R.keeps R.kept state.new) }
    ensures around { Keeps result state.old.calls state.new.calls }
{
    match parts {
        [] => read_byte(state, site),
        [one] => library_one(state, program, op, one.value, all, site),
        [one, two] => library_two(state, program, op, one.value, two.value, all, site),
        [one, two, three] => {
            library_three(
                state,
                program,
                op,
                one.value,
                two.value,
                three.value,
                all,
                site,
            )
        }
        _ => Err(Halt::Memory),
    }
}

/// The next byte of the input, or -1 at its end.
fn read_byte<R: Register>(state: &mut State<'_, R>, site: u32) -> Result<Found, Halt>
    ensures step { (p : kernel.Program) (us : List Use) → StepGives p (found_of us) result
        (shape R.keeps R.kept state.old) (read_byte site) (shape R.keeps R.kept state.new) }
    ensures around { Keeps result state.old.calls state.new.calls }
{
    let value = byte_value(state.next_byte());
    let event = state.note(Draft::plain(Kind::Read, site, value), &[])?;
    Ok(Found::Made(value, event))
}

#[tactic(auto, unfolding(wy_meaning::specs::Library::byte_value))]
fn byte_value(byte: Option<u8>) -> Value
    ensures { result ≡ byte_value byte }
{
    match byte {
        Some(byte) => Value::Int(i32::from(byte)),
        None => Value::Int(-1),
    }
}
