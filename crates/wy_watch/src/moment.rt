//! The value of a watch text at a moment of a trace.

ghost use Rattle.std.specs.Prelude.{◌≡◌, ◌<◌, ◌≤◌, ◌^◌, ℕ, List, Some, IfErr, IfOk, IfSome, length};
ghost use Rattle.wy_event.specs.Record.{Recorded};
ghost use Rattle.wy_index.specs.Index.{IsIndexOfView, owners_of};
ghost use Rattle.wy_kernel.specs.Parts.{program_of};
ghost use Rattle.wy_kernel.specs.Program.{field};
ghost use Rattle.wy_view.specs.References.{ValueBelow};
ghost use Rattle.wy_view.specs.View.{Keeps};
ghost use Rattle.wy_syntax.specs.View.{expression_of};
ghost use Rattle.wy_watch.specs.Looks.{Looks};
ghost use Rattle.wy_watch.specs.Sight.{sight_at};
ghost use Rattle.wy_watch.specs.Value as spec;
ghost use Rattle.wy_watch.specs.Watch.{HasNoValue, IfNoValue, IsValueOf, KeepsView};
ghost use Rattle.wy_watch.specs.Watched.{watch_limit};

use crate::error::WatchError;
use crate::sight::{Sight, standing_at};
use crate::text::{of_class, watched};
use crate::value::value;
use std::alloc::Global;
use std::sync::ledger::Ledger;
use wy_index::Index;
use wy_kernel::program::Program;
use wy_syntax::expression::Expression;
use wy_value::Value;
use wy_view::{EventView, Steps, ViewError};

/// The value of an expression just before an event, if it has one.
fn value_at<V: EventView, L: Ledger>(
    view: &mut V,
    index: &Index,
    program: &Program,
    event: u32,
    e: &Expression,
    steps: &mut Steps<L>,
) -> Result<Option<Value>, ViewError>
    requires there { event < (V.tells view.old).count }
    requires index { IsIndexOfView index.now (V.tells view.old) }
    requires owners { (f : ℕ) → owners_of index.now f ≡ (field (program_of program.now) f).class }
    requires fields { length program.now.fields.items < 2 ^ 32 }
    ensures looks { Looks result (V.tells view.old) (V.tells view.new) (λ rs.
        spec.value (sight_at (program_of program.now) rs event) (expression_of e.now)) }
    ensures below { IfOk result (λ v. IfSome v (ValueBelow event)) }
    ensures forward { steps.old ≤ steps.new }
{
    let standing = standing_at(view, program, event, steps)?;
    let sight = Sight {
        index,
        program,
        moment: event,
        standing,
    };
    value(view, &sight, e, steps)
}

/// The value of a watch text just before an event, as the records have it. It needs an index of the view and the program of its
/// trace. Nothing is run, so calls have no value.
pub fn watch<V: EventView, L: Ledger>(
    alloc: Global,
    view: &mut V,
    index: &Index,
    program: &Program,
    event: u32,
    text: &[u8],
    steps: &mut Steps<L>,
) -> Result<Value, WatchError>
    requires there { event < (V.tells view.old).count }
    requires index { IsIndexOfView index.now (V.tells view.old) }
    requires owners { (f : ℕ) → owners_of index.now f ≡ (field (program_of program.now) f).class }
    requires fields { length program.now.fields.items < 2 ^ 32 }
    requires short { length text.now ≤ watch_limit }
    // What is answered is the value of the text.
    ensures value { (rs : List Recorded) → (V.tells view.old).records ≡ Some rs
        → IfOk result (IsValueOf (program_of program.now) rs event text.now) }
    // No value is answered only where the text has none.
    ensures none { (rs : List Recorded) → (V.tells view.old).records ≡ Some rs
        → IfErr result (IfNoValue (HasNoValue (program_of program.now) rs event text.now)) }
    ensures below { IfOk result (ValueBelow event) }
    ensures keeps { Keeps (V.tells view.old) (V.tells view.new) }
    ensures answers { KeepsView result (V.tells view.old) (V.tells view.new) }
    ensures forward { steps.old ≤ steps.new }
{
    let Some(all) = watched(alloc, text)? else {
        return Err(WatchError::NoValue);
    };
    let Some(e) = of_class(&all) else {
        return Err(WatchError::NoValue);
    };
    match value_at(view, index, program, event, e, steps)? {
        Some(value) => Ok(value),
        None => Err(WatchError::NoValue),
    }
}
