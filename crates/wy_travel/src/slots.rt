//! What a slot held just before an event.

ghost use Rattle.std.specs.Prelude.{◌≡◌, ◌+◌, ◌<◌, ◌≤◌, ℕ, List, Some, IfOk, IfSome, length, option_map};
ghost use Rattle.wy_event.specs.Record.{Recorded, recorded, same_slot};
ghost use Rattle.wy_event.specs.Sources.{is_write, last_write, writes};
ghost use Rattle.wy_kernel.specs.Parts.{program_of};
ghost use Rattle.wy_kernel.specs.Program.{field};
ghost use Rattle.wy_kernel.specs.View.{present};
ghost use Rattle.wy_steps.specs.Steps.{code_of, default_in, owner_in};
ghost use Rattle.wy_index.specs.Index.{IsIndexOfView, owners_of};
ghost use Rattle.wy_travel.specs.Held.{HasFieldBelow, given_at, given_by, held};
ghost use Rattle.wy_view.specs.Counts.{RoseAtMost};
ghost use Rattle.wy_view.specs.References.{RefersBelow, ValueBelow};
ghost use Rattle.wy_view.specs.View.{Keeps, KeepsCounts, ReadsOnce};

use crate::first::default_value;
use std::sync::ledger::Ledger;
use wy_event::record::{Event, Kind, Slot};
use wy_index::Index;
use wy_kernel::code::{element_type, type_of_code};
use wy_kernel::program::Program;
use wy_kernel::types::NONE;
use wy_value::Value;
use wy_view::{EventView, Steps, ViewError};

#[tactic(auto, unfolding(wy_event::specs::Sources::is_write))]
fn is_write(kind: Kind) -> bool
    ensures { result ≡ is_write kind }
{
    matches!(kind, Kind::Bind | Kind::Set | Kind::Catch)
}

/// Whether both are one slot, which no slot isn't.
#[tactic(auto, unfolding(wy_event::specs::Record::same_slot))]
fn is_same(a: Slot, b: Slot) -> bool
    ensures { result ≡ same_slot a b }
{
    match a {
        Slot::None => false,
        _ => a == b,
    }
}

#[tactic(auto, unfolding(wy_event::specs::Sources::writes, wy_event::specs::Record::recorded))]
fn writes(slot: Slot, event: &Event) -> bool
    ensures { result ≡ writes slot (recorded event.now) }
{
    is_write(event.kind) && is_same(slot, event.slot)
}

/// The type code that an event has, and 0 where it has none.
#[tactic(auto, unfolding(wy_steps::specs::Steps::code_of, wy_kernel::specs::View::present))]
fn code_of(entity: u32) -> u32
    ensures { result ≡ code_of (present entity) }
{
    if entity == NONE { 0 } else { entity }
}

/// The value that a slot has first, as the event that creates it says.
#[tactic(auto, unfolding(wy_steps::specs::Steps::default_in, wy_event::specs::Record::recorded))]
fn default_in(program: &Program, event: &Event, slot: Slot) -> Value
    requires { HasFieldBelow (length program.now.fields.items) slot }
    ensures { result ≡ default_in (program_of program.now) (recorded event.now) slot }
{
    match slot {
        Slot::Static { field } => default_value(program.field(field).ty),
        Slot::Field { field, .. } => default_value(program.field(field).ty),
        Slot::Elem { .. } => default_value(element_type(type_of_code(code_of(event.entity)))),
        _ => Value::None,
    }
}

/// What an event gives a slot that it writes or creates.
#[tactic(auto, unfolding(crate::specs::Held::given_by, wy_event::specs::Record::recorded))]
fn given_by(program: &Program, event: &Event, slot: Slot) -> Value
    requires { HasFieldBelow (length program.now.fields.items) slot }
    ensures given { result ≡ given_by (program_of program.now) slot (Some (recorded event.now)) }
    ensures below { (n : ℕ) → RefersBelow n (recorded event.now) → ValueBelow n result }
{
    if writes(slot, event) {
        event.value
    } else {
        default_in(program, event, slot)
    }
}

/// What event `number` gives a slot that it writes or creates.
fn given_at<V: EventView, L: Ledger>(
    view: &mut V,
    program: &Program,
    slot: Slot,
    number: u32,
    steps: &mut Steps<L>,
) -> Result<Value, ViewError>
    requires there { number < (V.tells view.old).count }
    requires field { HasFieldBelow (length program.now.fields.items) slot }
    ensures given { (rs : List Recorded) → (V.tells view.old).records ≡ Some rs
        → IfOk result (λ v. v ≡ given_at (program_of program.now) rs slot (Some number)) }
    ensures below { IfOk result (λ v. ValueBelow number v) }
    ensures keeps { Keeps (V.tells view.old) (V.tells view.new) }
    ensures reads { ReadsOnce (V.tells view.old) (V.tells view.new) }
    ensures answers { KeepsCounts result (V.tells view.old) (V.tells view.new) }
    ensures step { steps.new ≡ steps.old + 1 }
{
    let event = view.event(number, steps)?;
    Ok(given_by(program, event, slot))
}

/// What the last write of a slot below a moment, or its creation, gave it. None where there is neither.
pub(crate) fn last_given<V: EventView, L: Ledger>(
    view: &mut V,
    index: &Index,
    program: &Program,
    slot: Slot,
    moment: u32,
    steps: &mut Steps<L>,
) -> Result<Option<Value>, ViewError>
    requires index { IsIndexOfView index.now (V.tells view.old) }
    requires owners { (f : ℕ) → owners_of index.now f ≡ (field (program_of program.now) f).class }
    requires field { HasFieldBelow (length program.now.fields.items) slot }
    ensures given { (rs : List Recorded) → (V.tells view.old).records ≡ Some rs
        → IfOk result (λ found.
        found ≡ option_map (λ n. given_at (program_of program.now) rs slot (Some n))
        (last_write (owner_in (program_of program.now)) rs slot moment)) }
    ensures below { IfOk result (λ found. IfSome found (λ v. ValueBelow moment v)) }
    ensures keeps { Keeps (V.tells view.old) (V.tells view.new) }
    ensures reads { RoseAtMost 1 (V.tells view.old).reads (V.tells view.new).reads }
    ensures answers { KeepsCounts result (V.tells view.old) (V.tells view.new) }
    ensures forward { steps.old ≤ steps.new }
{
    match index.last_write(slot, moment, steps) {
        Some(event) => Ok(Some(given_at(view, program, slot, event, steps)?)),
        None => Ok(None),
    }
}

/// The value that a slot held when so many events stood: that of its last write, or the default of its type where it was only
/// created; None where it was neither. It needs an index of the view and the program of its trace.
#[tactic(auto, unfolding(crate::specs::Held::held))]
pub fn held<V: EventView, L: Ledger>(
    view: &mut V,
    index: &Index,
    program: &Program,
    slot: Slot,
    event: u32,
    steps: &mut Steps<L>,
) -> Result<Value, ViewError>
    requires index { IsIndexOfView index.now (V.tells view.old) }
    requires owners { (f : ℕ) → owners_of index.now f ≡ (field (program_of program.now) f).class }
    requires field { HasFieldBelow (length program.now.fields.items) slot }
    ensures held { (rs : List Recorded) → (V.tells view.old).records ≡ Some rs
        → IfOk result (λ v. v ≡ held (program_of program.now) rs slot event) }
    ensures below { IfOk result (λ v. ValueBelow event v) }
    ensures keeps { Keeps (V.tells view.old) (V.tells view.new) }
    ensures reads { RoseAtMost 1 (V.tells view.old).reads (V.tells view.new).reads }
    ensures answers { KeepsCounts result (V.tells view.old) (V.tells view.new) }
    ensures forward { steps.old ≤ steps.new }
{
    let given = last_given(view, index, program, slot, event, steps)?;
    Ok(given.unwrap_or(Value::None))
}
