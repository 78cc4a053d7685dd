//! What is read of one record of a trace.

ghost use Rattle.std.specs.Prelude.{◌≡◌, ◌++◌, ◌<◌, List, Some, IfOk, OnOk, slice_get};
ghost use Rattle.wy_event.specs.Record.{Recorded};
ghost use Rattle.wy_kernel.specs.View.{present};
ghost use Rattle.wy_meaning.specs.World.{units_in};
ghost use Rattle.wy_value.specs.Encoding.{utf8_of};
ghost use Rattle.wy_view.specs.References.{ValueBelow};
ghost use Rattle.wy_view.specs.View.{KeepsCounts, Keeps};

use std::alloc::Global;
use std::sync::ledger::Ledger;
use wy_event::record::Kind;
use wy_value::{Value, to_utf8};
use wy_view::{EventView, Steps, ViewError};

/// What an event is, where it stands, what it is about, and its value.
#[derive(Clone, Copy)]
pub(crate) struct Facts {
    pub(crate) kind: Kind,
    pub(crate) site: u32,
    pub(crate) entity: u32,
    pub(crate) value: Value,
}

/// The facts of event n.
pub(crate) fn facts_at<V: EventView, L: Ledger>(
    view: &mut V,
    n: u32,
    steps: &mut Steps<L>,
) -> Result<Facts, ViewError>
    requires there { n < (V.tells view.old).count }
    ensures facts { (rs : List Recorded) → (V.tells view.old).records ≡ Some rs
        → IfOk result (λ f. (e : Recorded) × (slice_get rs n ≡ Some e) × (f.kind ≡ e.kind)
        × (f.site ≡ e.site) × (present f.entity ≡ e.entity) × (f.value ≡ e.value)) }
    ensures value { IfOk result (λ f. ValueBelow (V.tells view.old).count f.value) }
    ensures keeps { Keeps (V.tells view.old) (V.tells view.new) }
    ensures answers { KeepsCounts result (V.tells view.old) (V.tells view.new) }
{
    let event = view.event(n, steps)?;
    Ok(Facts {
        kind: event.kind,
        site: event.site,
        entity: event.entity,
        value: event.value,
    })
}

/// Puts the bytes of the text that event n made.
pub(crate) fn put_text_at<V: EventView, L: Ledger>(
    alloc: Global,
    bytes: &mut Vec<u8>,
    view: &mut V,
    n: u32,
    steps: &mut Steps<L>,
) -> Result<(), ViewError>
    requires there { n < (V.tells view.old).count }
    ensures text { (rs : List Recorded) → (V.tells view.old).records ≡ Some rs
        → OnOk result (bytes.new.items
        ≡ bytes.old.items ++ utf8_of (units_in (slice_get rs n))) }
    ensures keeps { Keeps (V.tells view.old) (V.tells view.new) }
    ensures answers { KeepsCounts result (V.tells view.old) (V.tells view.new) }
{
    let event = view.event(n, steps)?;
    let own = to_utf8(alloc, event.units.as_slice())?;
    bytes.extend_from_slice(own.as_slice())?;
    Ok(())
}
