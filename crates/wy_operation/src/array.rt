//! Arrays (JLS 10.6, 15.10.1, 15.10.2).

ghost use Rattle.std.specs.Prelude.{◌≡◌, ◌∷◌, map};
ghost use Rattle.wy_kernel.specs.Program as kernel;
ghost use Rattle.wy_meaning.specs.World.{World};
ghost use Rattle.wy_meaning.specs.Array.{any_negative, create_array, make_array, subarrays};
ghost use Rattle.wy_operation.specs.Around.{Keeps};
ghost use Rattle.wy_operation.specs.Operands.{carried};
ghost use Rattle.wy_operation.specs.Subarrays.{element_set, subarray};
ghost use Rattle.wy_state.specs.Agrees.{shape, StepGives, itself};
ghost use Rattle.wy_state.specs.Seen.{given, made_of, valued};
ghost use Rattle.wy_steps.specs.Sets.{nothing};
ghost use Rattle.wy_steps.specs.State.{Carried, return};
ghost use Rattle.wy_steps.specs.Steps.{joined_all};

use crate::exception::{NEGATIVE_SIZE, fail};
use crate::operand::{Part, is_negative, natural_of};
use wy_event::record::{Kind, Slot, Use};
use wy_kernel::code::{element_type, short_code};
use wy_kernel::types::Ty;
use wy_state::parts::{Draft, Halt};
use wy_state::register::Register;
use wy_state::state::State;
use wy_value::Value;

/// A type has no more pairs of brackets (JVMS 4.4.1).
const MOST_DIMENSIONS: usize = 255;

/// Makes an array of a type with so many elements, and gives the number of its New.
pub fn make_array<R: Register>(
    state: &mut State<'_, R>,
    site: u32,
    ty: Ty,
    length: u32,
    uses: &[Use],
) -> Result<u32, Halt>
    ensures step { (p : kernel.Program) (w : World nothing) (v : Value) → w.program ≡ p
        → StepGives p made_of result (shape R.keeps R.kept state.old)
        (make_array w site ty length (given v uses.now)) (shape R.keeps R.kept state.new) }
    ensures around { Keeps result state.old.calls state.new.calls }
{
    match short_code(ty) {
        Some(code) => state.note_array(site, code, length, uses),
        None => Err(Halt::Memory),
    }
}

/// Makes an array with its subarrays by the lengths of its dimensions, of which none may be negative, and gives the number of its New.
pub fn create_array<R: Register>(
    state: &mut State<'_, R>,
    ty: Ty,
    dims: &[Part<'_>],
    all: &[Use],
    site: u32,
) -> Result<u32, Halt>
    ensures step { (p : kernel.Program) (w : World nothing)
        → (joined_all (map carried dims.now)).uses ≡ all.now → w.program ≡ p
        → StepGives p (λ e. valued e (Value.Object e)) result (shape R.keeps R.kept state.old)
        (create_array w ty (map return (map carried dims.now)) site)
        (shape R.keeps R.kept state.new) }
    ensures around { Keeps result state.old.calls state.new.calls }
{
    if dims.len() > MOST_DIMENSIONS {
        return Err(Halt::Memory);
    }
    if any_negative(dims) {
        return Err(fail(state, NEGATIVE_SIZE, site, all));
    }
    let Some((first, rest)) = dims.split_first() else {
        return Err(Halt::Memory);
    };
    let length = natural_of(first.value);
    let array = make_array(state, site, ty, length, first.uses)?;
    subarrays(state, site, element_type(ty), rest, array, length)?;
    Ok(array)
}

#[tactic(auto, unfolding(wy_meaning::specs::Array::any_negative))]
fn any_negative(dims: &[Part<'_>]) -> bool
    ensures { result ≡ any_negative (map carried dims.now) }
{
    for dimension in dims {
        if is_negative(dimension.value) {
            return true;
        }
    }
    false
}

/// Makes the subarrays of an array, in the order of its elements.
#[cycle(subarrays)]
fn subarrays<R: Register>(
    state: &mut State<'_, R>,
    site: u32,
    ty: Ty,
    dims: &[Part<'_>],
    parent: u32,
    count: u32,
) -> Result<(), Halt>
    ensures step { (p : kernel.Program) (w : World nothing) → w.program ≡ p
        → StepGives p itself result (shape R.keeps R.kept state.old)
        (subarrays w site ty (map carried dims.now) parent count) (shape R.keeps R.kept state.new) }
    ensures around { Keeps result state.old.calls state.new.calls }
{
    let Some((first, rest)) = dims.split_first() else {
        return Ok(());
    };
    for index in 0..count {
        subarray(state, site, ty, *first, rest, parent, index)?;
    }
    Ok(())
}

/// Makes a subarray, stores it at its index, and fills it in the same way.
#[cycle(subarrays)]
fn subarray<R: Register>(
    state: &mut State<'_, R>,
    site: u32,
    ty: Ty,
    first: Part<'_>,
    rest: &[Part<'_>],
    parent: u32,
    index: u32,
) -> Result<(), Halt>
    ensures step { (p : kernel.Program) (w : World nothing) → w.program ≡ p
        → StepGives p itself result (shape R.keeps R.kept state.old)
        (subarray w site ty (carried first.entry) (map carried rest.now) parent index)
        (shape R.keeps R.kept state.new) }
    ensures around { Keeps result state.old.calls state.new.calls }
{
    let length = natural_of(first.value);
    let array = make_array(state, site, ty, length, first.uses)?;
    let slot = Slot::Elem {
        array: parent,
        index,
    };
    let draft = Draft::into_slot(Kind::Set, site, slot, Value::Object(array));
    state.note_write(draft, &[Use::Value { event: array }])?;
    subarrays(state, site, element_type(ty), rest, array, length)
}

/// Records the Set of an element of an array initializer, and gives its number.
pub fn set_element<R: Register>(
    state: &mut State<'_, R>,
    array: u32,
    index: u32,
    value: Value,
    uses: &[Use],
    site: u32,
) -> Result<u32, Halt>
    ensures step { (p : kernel.Program) (c : Carried nothing) → c.value ≡ value
        → Use.Value array ∷ c.uses ≡ uses.now
        → StepGives p made_of result (shape R.keeps R.kept state.old)
        (element_set site (made_of array) index c) (shape R.keeps R.kept state.new) }
    ensures around { Keeps result state.old.calls state.new.calls }
{
    let slot = Slot::Elem { array, index };
    state.note_write(Draft::into_slot(Kind::Set, site, slot, value), uses)
}
