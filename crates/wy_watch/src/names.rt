//! What a name means where an expression is looked at (JLS 6.5.6).

ghost use Rattle.std.specs.Prelude.{◌≡◌, ◌<◌, ◌≤◌, ℕ, List, IfSome, false, length, map, option_map};
ghost use Rattle.std.specs.Str.{bytes_eq};
ghost use Rattle.wy_event.specs.Record.{Recorded};
ghost use Rattle.wy_index.specs.Index.{IsIndexOf};
ghost use Rattle.wy_kernel.specs.Parts.{program_of};
ghost use Rattle.wy_kernel.specs.View.{NONE, local_of};
ghost use Rattle.wy_travel.specs.Held.{HasFieldBelow};
ghost use Rattle.wy_watch.specs.Names.{HasFieldsBelow, begins_with_this, class_meant, field_from, if_there, last_named, later, local_named, meaning_of, this_of, write_if, write_of};
ghost use Rattle.wy_watch.specs.Sight.{IsFit, sight_seen, standing_seen};

use crate::field::{class_named, field_above};
use crate::sight::{Sight, Standing};
use std::sync::ledger::Ledger;
use wy_event::record::Slot;
use wy_kernel::types::Local;
use wy_view::Steps;

/// What a name means: what is in a slot, or a field of `this`.
#[derive(Clone, Copy, Debug, PartialEq, Eq)]
pub(crate) enum Meaning {
    Stored(Slot),
    OfThis(u32),
    Nothing,
}

/// A local by its number, and the event that wrote it last.
#[derive(Clone, Copy, Debug, PartialEq, Eq)]
pub(crate) struct Written {
    pub(crate) index: u32,
    pub(crate) event: u32,
}

/// The one that was written later.
fn later(a: Option<Written>, b: Option<Written>) -> Option<Written>
    ensures { result ≡ later a b }
{
    match (a, b) {
        (Some(x), Some(y)) => { if x.event < y.event { Some(y) } else { Some(x) } }
        (Some(x), None) => Some(x),
        (None, other) => other,
    }
}

/// The last write of a local.
fn write_of<L: Ledger>(
    sight: &Sight<'_>,
    frame: u32,
    index: u32,
    steps: &mut Steps<L>,
) -> Option<Written>
    requires fit { IsFit sight.now }
    ensures write { (rs : List Recorded) → IsIndexOf sight.now.index.now rs
        → result ≡ write_of (sight_seen rs sight.now) frame index }
    ensures forward { steps.old ≤ steps.new }
{
    let slot = Slot::Local { frame, index };
    match sight.index.last_write(slot, sight.moment, steps) {
        Some(event) => Some(Written { index, event }),
        None => None,
    }
}

/// The last write of a local that has a name.
fn write_if<L: Ledger>(
    sight: &Sight<'_>,
    frame: u32,
    index: u32,
    local: &Local,
    name: &str,
    steps: &mut Steps<L>,
) -> Option<Written>
    requires fit { IsFit sight.now }
    ensures write { (rs : List Recorded) → IsIndexOf sight.now.index.now rs
        → result ≡ write_if (bytes_eq (local_of local.now).name name.now)
        (write_of (sight_seen rs sight.now) frame index) }
    ensures forward { steps.old ≤ steps.new }
{
    if local.name.as_str() == name {
        write_of(sight, frame, index, steps)
    } else {
        None
    }
}

/// Of the locals of a frame that have a name, the one that was written last.
fn last_named<L: Ledger>(
    sight: &Sight<'_>,
    at: &Standing<'_>,
    name: &str,
    steps: &mut Steps<L>,
) -> Option<Written>
    requires fit { IsFit sight.now }
    requires few { length at.now.locals.now ≤ NONE }
    ensures last { (rs : List Recorded) → IsIndexOf sight.now.index.now rs
        → result ≡ last_named (sight_seen rs sight.now) at.now.frame name.now 0
        (map local_of at.now.locals.now) }
    ensures forward { steps.old ≤ steps.new }
{
    let mut found = None;
    let many = at.locals.len();
    for index in 0..many as u32 {
        let local = &at.locals[index as usize];
        let written = write_if(sight, at.frame, index, local, name, steps);
        found = later(found, written);
    }
    found
}

/// The local of the innermost frame's body with a name that was written last.
fn local_named<L: Ledger>(sight: &Sight<'_>, name: &str, steps: &mut Steps<L>) -> Option<Slot>
    requires fit { IsFit sight.now }
    ensures local { (rs : List Recorded) → IsIndexOf sight.now.index.now rs
        → result ≡ local_named (sight_seen rs sight.now) name.now }
    ensures no_field { (n : ℕ) → IfSome result (HasFieldBelow n) }
    ensures forward { steps.old ≤ steps.new }
{
    let at = sight.standing?;
    let last = last_named(sight, &at, name, steps)?;
    Some(Slot::Local {
        frame: at.frame,
        index: last.index,
    })
}

/// Local 0 of the innermost frame, where its body has `this`.
pub(crate) fn this_of(sight: &Sight<'_>) -> Option<Slot>
    ensures this { result ≡ this_of (option_map standing_seen sight.now.standing) }
    ensures no_field { (n : ℕ) → IfSome result (HasFieldBelow n) }
{
    let at = sight.standing?;
    if begins_with_this(at.locals) {
        Some(Slot::Local {
            frame: at.frame,
            index: 0,
        })
    } else {
        None
    }
}

fn begins_with_this(locals: &[Local]) -> bool
    ensures { result ≡ begins_with_this (map local_of locals.now) }
{
    match locals.first() {
        Some(local) => local.name.as_str() == "this",
        None => false,
    }
}

/// The field of a name that the nearest class from the innermost frame's class upward has.
pub(crate) fn frame_field(sight: &Sight<'_>, is_static: bool, name: &str) -> Option<u32>
    requires fit { IsFit sight.now }
    ensures field { result ≡ field_from (program_of sight.now.program.now) is_static name.now
        (option_map standing_seen sight.now.standing) }
    ensures within { IfSome result (λ f. f < length sight.now.program.now.fields.items) }
{
    let at = sight.standing?;
    field_above(sight.program, is_static, at.class as usize, name)
}

/// The instance field of a name that `this` has.
fn own_field(sight: &Sight<'_>, name: &str) -> Option<u32>
    requires fit { IsFit sight.now }
    ensures field { result ≡ if_there (this_of (option_map standing_seen sight.now.standing))
        (field_from (program_of sight.now.program.now) false name.now
        (option_map standing_seen sight.now.standing)) }
    ensures within { IfSome result (λ f. f < length sight.now.program.now.fields.items) }
{
    this_of(sight)?;
    frame_field(sight, false, name)
}

/// What a name means: a local, else a field of `this`, and else a static field.
pub(crate) fn meaning_of<L: Ledger>(sight: &Sight<'_>, name: &str, steps: &mut Steps<L>) -> Meaning
    requires fit { IsFit sight.now }
    ensures meaning { (rs : List Recorded) → IsIndexOf sight.now.index.now rs
        → result ≡ meaning_of (sight_seen rs sight.now) name.now }
    ensures within { HasFieldsBelow (length sight.now.program.now.fields.items) result }
    ensures forward { steps.old ≤ steps.new }
{
    if let Some(slot) = local_named(sight, name, steps) {
        return Meaning::Stored(slot);
    }
    if let Some(field) = own_field(sight, name) {
        return Meaning::OfThis(field);
    }
    match frame_field(sight, true, name) {
        Some(field) => Meaning::Stored(Slot::Static { field }),
        None => Meaning::Nothing,
    }
}

/// The class that a name is of, where it means nothing else.
pub(crate) fn class_meant<L: Ledger>(
    sight: &Sight<'_>,
    name: &str,
    steps: &mut Steps<L>,
) -> Option<usize>
    requires fit { IsFit sight.now }
    ensures class { (rs : List Recorded) → IsIndexOf sight.now.index.now rs
        → result ≡ class_meant (sight_seen rs sight.now) name.now }
    ensures forward { steps.old ≤ steps.new }
{
    match meaning_of(sight, name, steps) {
        Meaning::Nothing => class_named(sight.program, name),
        Meaning::Stored(_) | Meaning::OfThis(_) => None,
    }
}
