//! What a trace says of the Throw that ended its run.

ghost use Rattle.std.specs.Prelude.{◌≡◌, ◌<◌, List, Some, IfOk, slice_get};
ghost use Rattle.wy_event.specs.Record.{Recorded};
ghost use Rattle.wy_kernel.specs.View.{present};
ghost use Rattle.wy_kernel.specs.Program.{class_of_type};
ghost use Rattle.wy_meaning.specs.World.{object_in, type_in};
ghost use Rattle.wy_steps.specs.Steps.{code_of};
ghost use Rattle.wy_telling.specs.Thrown.{thrown_class, thrown_site};
ghost use Rattle.wy_view.specs.View.{KeepsCounts, Keeps};

use crate::look::facts_at;
use std::sync::ledger::Ledger;
use wy_event::record::Thrown;
use wy_kernel::builtin::OBJECT;
use wy_kernel::code::class_of_code;
use wy_kernel::types::NONE;
use wy_value::Value;
use wy_view::{EventView, Steps, ViewError};

const NOTHING: Thrown = Thrown {
    class: NONE,
    site: NONE,
};

/// What the Throw that is event `last` threw, and where; neither where there is no such event.
pub(crate) fn thrown<V: EventView, L: Ledger>(
    view: &mut V,
    last: u32,
    steps: &mut Steps<L>,
) -> Result<Thrown, ViewError>
    ensures class { (rs : List Recorded) → (V.tells view.old).records ≡ Some rs
        → IfOk result (λ t. present t.class ≡ thrown_class rs (present last)) }
    ensures site { (rs : List Recorded) → (V.tells view.old).records ≡ Some rs
        → IfOk result (λ t. present t.site ≡ thrown_site rs (present last)) }
    ensures keeps { Keeps (V.tells view.old) (V.tells view.new) }
    ensures answers { KeepsCounts result (V.tells view.old) (V.tells view.new) }
{
    if last >= view.count() {
        return Ok(NOTHING);
    }
    let throw = facts_at(view, last, steps)?;
    let class = class_at(view, object_in(throw.value), steps)?;
    Ok(Thrown {
        class,
        site: throw.site,
    })
}

#[tactic(auto, unfolding(wy_meaning::specs::World::object_in))]
fn object_in(value: Value) -> u32
    ensures { result ≡ object_in value }
{
    match value {
        Value::Object(number) => number,
        _ => 0,
    }
}

/// The class of the object that an event made.
fn class_at<V: EventView, L: Ledger>(
    view: &mut V,
    number: u32,
    steps: &mut Steps<L>,
) -> Result<u32, ViewError>
    ensures class { (rs : List Recorded) → (V.tells view.old).records ≡ Some rs
        → IfOk result (λ class. class ≡ class_of_type (type_in (slice_get rs number))) }
    ensures there { IfOk result (λ class. class < NONE) }
    ensures keeps { Keeps (V.tells view.old) (V.tells view.new) }
    ensures answers { KeepsCounts result (V.tells view.old) (V.tells view.new) }
{
    if number >= view.count() {
        return Ok(OBJECT);
    }
    let made = facts_at(view, number, steps)?;
    Ok(class_of_code(code_of(made.entity)))
}

#[tactic(auto, unfolding(wy_steps::specs::Steps::code_of, wy_kernel::specs::View::present))]
fn code_of(entity: u32) -> u32
    ensures { result ≡ code_of (present entity) }
{
    if entity == NONE { 0 } else { entity }
}
