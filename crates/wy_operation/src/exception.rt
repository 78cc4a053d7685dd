//! Exceptions that the machine throws: a New and a Throw at the failing form, and no constructor (JLS 11.1.1).

ghost use Rattle.std.specs.Prelude.{◌≡◌};
ghost use Rattle.wy_kernel.specs.Program.{Program};
ghost use Rattle.wy_meaning.specs.World.{World, fail, throwing};
ghost use Rattle.wy_operation.specs.Around.{Ends, KeepsAt};
ghost use Rattle.wy_state.specs.Agrees.{shape};
ghost use Rattle.wy_state.specs.Seen.{given};
ghost use Rattle.wy_steps.specs.Sets.{nothing};
ghost use Rattle.wy_value.specs.declared.value.Value.{Value};

use wy_event::record::{Kind, Use};
use wy_state::parts::{Draft, Halt, Reason};
use wy_state::register::Register;
use wy_state::state::State;
use wy_value::Value;

/// The classes of the exceptions that the machine throws, by their numbers.
pub const ARITHMETIC: u32 = 6;

pub const ARRAY_STORE: u32 = 7;

pub const CLASS_CAST: u32 = 8;

pub const NUMBER_FORMAT: u32 = 10;

pub const ARRAY_INDEX: u32 = 13;

pub const STRING_INDEX: u32 = 14;

pub const NEGATIVE_SIZE: u32 = 15;

pub const NULL_POINTER: u32 = 16;

/// Throws an exception of a class, of the operands of the form that failed.
pub fn fail<R: Register>(state: &mut State<'_, R>, class: u32, site: u32, uses: &[Use]) -> Halt
    ensures step { (p : Program) (w : World nothing) (v : Value) → w.program ≡ p
        → Ends p result (shape R.keeps R.kept state.old) (fail w class site (given v uses.now))
        (shape R.keeps R.kept state.new) }
    ensures around { KeepsAt result state.old.calls state.new.calls }
{
    match state.note_object(site, class, uses) {
        Ok(event) => throwing(state, site, Value::Object(event), &[Use::Value { event }]),
        Err(why) => why,
    }
}

/// Throws an object at a site.
pub fn throwing<R: Register>(
    state: &mut State<'_, R>,
    site: u32,
    value: Value,
    uses: &[Use],
) -> Halt
    ensures step { (p : Program) → Ends p result (shape R.keeps R.kept state.old)
        (throwing site (given value uses.now)) (shape R.keeps R.kept state.new) }
    ensures around { KeepsAt result state.old.calls state.new.calls }
{
    let draft = Draft::plain(Kind::Throw, site, value);
    match state.note(draft, uses) {
        Ok(event) => Halt::Left(Reason::Threw { event, value }),
        Err(why) => why,
    }
}
