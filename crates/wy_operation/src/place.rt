//! Places: where a value is read and where it is assigned, with the checks in their order (JLS 15.10.4, 15.11, 15.13, 15.26).

ghost use Rattle.std.specs.Prelude.{◌≡◌, ◌++◌, [], ◌∷◌, IfOk};
ghost use Rattle.wy_kernel.specs.Parts.{program_of};
ghost use Rattle.wy_kernel.specs.Program as kernel;
ghost use Rattle.wy_meaning.specs.World.{World};
ghost use Rattle.wy_meaning.specs.Place.{assign, check_store, element_spot, fetch, field_spot, index_in, lacks_value, may_store, store};
ghost use Rattle.wy_operation.specs.Around.{Keeps};
ghost use Rattle.wy_operation.specs.Operands.{Pair};
ghost use Rattle.wy_operation.specs.Spots.{Stored, is_primitive, spot_of};
ghost use Rattle.wy_state.specs.Agrees.{shape, StepGives, itself};
ghost use Rattle.wy_state.specs.Seen.{given, valued};
ghost use Rattle.wy_steps.specs.Sets.{nothing};
ghost use Rattle.wy_steps.specs.State.{Carried};

use crate::exception::{ARRAY_INDEX, ARRAY_STORE, NULL_POINTER, fail};
use crate::operand::is_null;
use std::alloc::{AllocError, Global};
use wy_event::record::{Kind, Slot, Use};
use wy_kernel::code::element_type;
use wy_kernel::program::Program;
use wy_kernel::types::{Base, Ty};
use wy_state::below::is_below;
use wy_state::parts::{Draft, Halt, Limit};
use wy_state::register::Register;
use wy_state::state::State;
use wy_value::Value;

/// The value in a slot, and the slot as its use; a local that has no value stops the run.
pub fn fetch<R: Register>(state: &State<'_, R>, slot: Slot) -> Result<(Value, Use), Halt>
    ensures { (p : kernel.Program) (parts : Carried nothing)
        → StepGives p (λ r. given r.0 (parts.uses ++ r.1 ∷ [])) result
        (shape R.keeps R.kept state.now) (fetch (spot_of slot parts))
        (shape R.keeps R.kept state.now) }
{
    let value = state.read(slot)?;
    if lacks_value(slot, value) {
        return Err(Halt::Stopped(Limit::Unassigned));
    }
    let moment = state.events;
    Ok((value, Use::Place { slot, moment }))
}

/// A local has no value before its first assignment.
#[tactic(auto, unfolding(wy_meaning::specs::Place::lacks_value))]
fn lacks_value(slot: Slot, value: Value) -> bool
    ensures { result ≡ lacks_value slot value }
{
    match (slot, value) {
        (Slot::Local { .. }, Value::None) => true,
        _ => false,
    }
}

/// The slot of a field of the object that a value refers to.
pub fn field_slot<R: Register>(
    state: &mut State<'_, R>,
    field: u32,
    value: Value,
    uses: &[Use],
    site: u32,
) -> Result<Slot, Halt>
    ensures step { (p : kernel.Program) (w : World nothing) → w.program ≡ p
        → StepGives p (λ x. spot_of x (given value uses.now)) result
        (shape R.keeps R.kept state.old) (field_spot w field site (given value uses.now))
        (shape R.keeps R.kept state.new) }
    ensures around { Keeps result state.old.calls state.new.calls }
{
    match value {
        Value::Object(object) => Ok(Slot::Field { object, field }),
        _ => Err(fail(state, NULL_POINTER, site, uses)),
    }
}

/// The slot of an element by an array and an index: first null, then the index.
pub fn element_slot<R: Register>(
    state: &mut State<'_, R>,
    array: Value,
    index: Value,
    uses: &[Use],
    site: u32,
) -> Result<Slot, Halt>
    ensures step { (p : kernel.Program) (w : World nothing) (o : Pair array index uses.now)
        → w.program ≡ p → StepGives p (λ x. spot_of x (given Value.None uses.now)) result
        (shape R.keeps R.kept state.old) (element_spot w site o.first o.second)
        (shape R.keeps R.kept state.new) }
    ensures around { Keeps result state.old.calls state.new.calls }
{
    let Value::Object(array) = array else {
        return Err(fail(state, NULL_POINTER, site, uses));
    };
    let length = state.length_of(array)?;
    match index_in(length, index) {
        Some(index) => Ok(Slot::Elem { array, index }),
        None => Err(fail(state, ARRAY_INDEX, site, uses)),
    }
}

/// An index is a number from 0 that is below the length.
#[tactic(auto, unfolding(wy_meaning::specs::Place::index_in))]
fn index_in(length: u32, value: Value) -> Option<u32>
    ensures { result ≡ index_in length value }
{
    let Value::Int(index) = value else {
        return None;
    };
    match u32::try_from(index) {
        Ok(index) if index < length => Some(index),
        _ => None,
    }
}

/// Records the Set of a slot to a value, and gives its number.
pub fn assign<R: Register>(
    state: &mut State<'_, R>,
    slot: Slot,
    value: Value,
    uses: &[Use],
    site: u32,
) -> Result<u32, Halt>
    ensures step { (p : kernel.Program) (o : Stored slot value uses.now)
        → StepGives p (λ e. valued e value) result (shape R.keeps R.kept state.old)
        (assign site o.spot o.right) (shape R.keeps R.kept state.new) }
    ensures around { Keeps result state.old.calls state.new.calls }
{
    state.note_write(Draft::into_slot(Kind::Set, site, slot, value), uses)
}

/// Sets a slot to a value, after the check of what an array may hold.
pub fn store<R: Register>(
    state: &mut State<'_, R>,
    program: &Program,
    slot: Slot,
    value: Value,
    uses: &[Use],
    site: u32,
) -> Result<u32, Halt>
    ensures step { (w : World nothing) (o : Stored slot value uses.now)
        → w.program ≡ program_of program.now
        → StepGives (program_of program.now) (λ e. valued e value) result
        (shape R.keeps R.kept state.old) (store w site o.spot o.right)
        (shape R.keeps R.kept state.new) }
    ensures around { Keeps result state.old.calls state.new.calls }
{
    check_store(state, program, slot, value, uses, site)?;
    assign(state, slot, value, uses, site)
}

/// What an array of references may not hold is an exception (JLS 10.5).
fn check_store<R: Register>(
    state: &mut State<'_, R>,
    program: &Program,
    slot: Slot,
    value: Value,
    uses: &[Use],
    site: u32,
) -> Result<(), Halt>
    ensures step { (w : World nothing) (o : Stored slot value uses.now)
        → w.program ≡ program_of program.now
        → StepGives (program_of program.now) itself result (shape R.keeps R.kept state.old)
        (check_store w site o.spot o.right slot) (shape R.keeps R.kept state.new) }
    ensures around { Keeps result state.old.calls state.new.calls }
{
    let Slot::Elem { array, .. } = slot else {
        return Ok(());
    };
    let of_array = state.type_of(Value::Object(array))?;
    let of_value = state.type_of(value)?;
    if may_store(
        state.alloc,
        program,
        element_type(of_array),
        of_value,
        value,
    )? {
        return Ok(());
    }
    Err(fail(state, ARRAY_STORE, site, uses))
}

/// Whether a value may be an element of an array whose elements have a type (JLS 10.5).
fn may_store(
    alloc: Global,
    program: &Program,
    element: Ty,
    found: Ty,
    value: Value,
) -> Result<bool, AllocError>
    ensures { IfOk result (λ b. b ≡ may_store (program_of program.now) element found value) }
{
    if is_null(value) {
        return Ok(true);
    }
    if is_primitive(element) {
        return Ok(true);
    }
    is_below(alloc, program, found, element)
}

fn is_primitive(ty: Ty) -> bool
    ensures { result ≡ is_primitive ty }
{
    match ty {
        Ty::Of {
            base: Base::Primitive(_),
            brackets: 0,
        } => true,
        _ => false,
    }
}
