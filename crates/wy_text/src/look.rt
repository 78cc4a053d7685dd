//! What is read of one record of a trace.

ghost use Rattle.std.specs.Prelude.{◌≡◌, ◌+◌, ◌++◌, ◌<◌, ℕ, List, Some, IfOk, OnOk, slice_get};
ghost use Rattle.wy_event.specs.Record.{Recorded, recorded};
ghost use Rattle.wy_kernel.specs.View.{present};
ghost use Rattle.wy_text.specs.Values.{quoted, units_of, entity_of};
ghost use Rattle.wy_view.specs.View.{KeepsCounts, IsRecordOf, Keeps};

use crate::quote::put_quoted;
use std::sync::ledger::Ledger;
use wy_event::record::Kind;
use wy_view::{EventView, Steps, ViewError};

/// What an event is, and the class, method or type that it is about.
#[derive(Clone, Copy)]
pub(crate) struct Begun {
    pub(crate) kind: Kind,
    pub(crate) entity: u32,
}

/// What event n is about.
pub(crate) fn begun_at<V: EventView, L: Ledger>(
    view: &mut V,
    n: u32,
    steps: &mut Steps<L>,
) -> Result<Begun, ViewError>
    requires there { n < (V.tells view.old).count }
    ensures entity { (rs : List Recorded) → (V.tells view.old).records ≡ Some rs
        → IfOk result (λ begun. (e : Recorded) × (slice_get rs n ≡ Some e)
        × (begun.kind ≡ e.kind) × (present begun.entity ≡ e.entity)) }
    ensures keeps { Keeps (V.tells view.old) (V.tells view.new) }
    ensures answers { KeepsCounts result (V.tells view.old) (V.tells view.new) }
    ensures step { steps.new ≡ steps.old + 1 }
{
    let event = view.event(n, steps)?;
    Ok(Begun {
        kind: event.kind,
        entity: event.entity,
    })
}

/// Puts the text that event n made, between its quotes.
pub(crate) fn put_quoted_at<V: EventView, L: Ledger>(
    out: &mut Vec<u8>,
    view: &mut V,
    n: u32,
    steps: &mut Steps<L>,
) -> Result<(), ViewError>
    requires there { n < (V.tells view.old).count }
    ensures text { (rs : List Recorded) → (V.tells view.old).records ≡ Some rs
        → OnOk result (out.new.items ≡ out.old.items ++ quoted (units_of (slice_get rs n))) }
    ensures keeps { Keeps (V.tells view.old) (V.tells view.new) }
    ensures answers { KeepsCounts result (V.tells view.old) (V.tells view.new) }
    ensures step { steps.new ≡ steps.old + 1 }
{
    let event = view.event(n, steps)?;
    put_quoted(out, event.units.as_slice())?;
    Ok(())
}
