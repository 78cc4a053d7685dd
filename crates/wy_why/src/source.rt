//! The sources of an event: what it comes from directly, and how.

ghost use Rattle.std.specs.Prelude.{◌≡◌, ◌≤◌, ◌+◌, ◌*◌, ◌<◌, ◌++◌, ◌∷◌, ◌↔◌, ℕ, [], List, Some, All, Contains, IfOk, OnOk, length, map, option_map, option_to_list};
ghost use Rattle.std.specs.List.Sorted.{IsStrictlySortedBy};
ghost use Rattle.wy_event.specs.Record.{Recorded, recorded};
ghost use Rattle.wy_event.specs.Sources as records;
ghost use Rattle.wy_view.specs.References.{RefersBelow, UseBelow, UsesBelow};
ghost use Rattle.wy_view.specs.View.{KeepsCounts, Keeps, ReadsOnce};
ghost use Rattle.wy_index.specs.Index.{IsIndexOf, IsIndexOfView, owners_of};
ghost use Rattle.wy_why.specs.declared.source.Source.{Source};
ghost use Rattle.wy_why.specs.Sources.{role_rank, source_cmp, source_of};

use std::alloc::{AllocError, Global};
use std::cmp::Ordering;
use std::sync::ledger::Ledger;
use wy_event::record::{Event, Use};
use wy_index::Index;
use wy_kernel::types::NONE;
use wy_view::{EventView, Steps, ViewError};

/// How an event comes from another: by a value that it used, by a test that chose such a value, or by what decided that it happened.
#[derive(Clone, Copy, Debug, PartialEq, Eq)]
pub enum Role {
    Data,
    Choice,
    Control,
}

/// An event that another comes from, and how.
#[derive(Clone, Copy, Debug, PartialEq, Eq)]
pub struct Source {
    pub event: u32,
    pub role: Role,
}

fn rank(role: Role) -> u8
    ensures { result ≡ role_rank role }
{
    match role {
        Role::Data => 0,
        Role::Choice => 1,
        Role::Control => 2,
    }
}

fn compare(a: Source, b: Source) -> Ordering
    ensures { result ≡ source_cmp a b }
{
    a.event.cmp(&b.event).then(rank(a.role).cmp(&rank(b.role)))
}

/// Puts sources in order, each once.
pub fn put_in_order(sources: Vec<Source>) -> Vec<Source>
    ensures rises { IsStrictlySortedBy source_cmp result.items }
    ensures keeps { (s : Source) → Contains sources.items s → Contains result.items s }
    ensures adds_none { (s : Source) → Contains result.items s → Contains sources.items s }
{
    let mut sources = sources;
    sources.sort_unstable_by(|a, b| compare(*a, *b));
    sources.dedup_by(|a, b| compare(*a, *b).is_eq());
    sources
}

/// What a use comes from, if it is there.
fn source_by<L: Ledger>(index: &Index, used: Use, steps: &mut Steps<L>) -> Option<Source>
    ensures source { (rs : List Recorded) → IsIndexOf index.now rs
        → option_to_list (option_map source_of result)
        ≡ records.use_source (owners_of index.now) rs used }
    ensures forward { steps.old ≤ steps.new }
{
    match used {
        Use::Place { slot, moment } => match index.last_write(slot, moment, steps) {
            Some(event) => Some(Source {
                event,
                role: Role::Data,
            }),
            None => None,
        },
        Use::Value { event } => Some(Source {
            event,
            role: Role::Data,
        }),
        Use::Choice { event } => Some(Source {
            event,
            role: Role::Choice,
        }),
    }
}

/// Puts a source behind the others, if there is one.
pub fn keep(found: &mut Vec<Source>, source: Option<Source>) -> Result<(), AllocError>
    ensures { OnOk result (found.new.items ≡ found.old.items ++ option_to_list source) }
{
    if let Some(source) = source {
        found.push(source)?;
    }
    Ok(())
}

/// What the uses come from, in their order.
fn of_uses<L: Ledger>(
    alloc: Global,
    index: &Index,
    uses: &[Use],
    steps: &mut Steps<L>,
) -> Result<Vec<Source>, AllocError>
    ensures sources { IfOk result (λ found. (rs : List Recorded) → IsIndexOf index.now rs
        → map source_of found.items ≡ records.use_sources (owners_of index.now) rs uses.now) }
    ensures forward { steps.old ≤ steps.new }
{
    let mut found = Vec::new(alloc);
    for used in uses {
        keep(&mut found, source_by(index, *used, steps))?;
    }
    Ok(found)
}

/// The control parent of an event, if it has one.
#[tactic(auto, unfolding(wy_event::specs::Record::recorded, wy_kernel::specs::View::present, wy_event::specs::Sources::with_role))]
pub fn parent(event: &Event) -> Option<Source>
    ensures { option_to_list (option_map source_of result)
        ≡ records.with_role records.Control (recorded event.now).control }
{
    if event.control == NONE {
        None
    } else {
        Some(Source {
            event: event.control,
            role: Role::Control,
        })
    }
}

/// What an event comes from, in the order of its uses, and then its control parent.
fn of_event<L: Ledger>(
    alloc: Global,
    index: &Index,
    event: &Event,
    steps: &mut Steps<L>,
) -> Result<Vec<Source>, AllocError>
    ensures sources { IfOk result (λ found. (rs : List Recorded) → IsIndexOf index.now rs
        → map source_of found.items
        ≡ records.event_sources (owners_of index.now) rs (recorded event.now)) }
    ensures forward { steps.old ≤ steps.new }
{
    let mut found = of_uses(alloc, index, event.uses.as_slice(), steps)?;
    keep(&mut found, parent(event))?;
    Ok(found)
}

/// The sources of an event, by an index of the view: ordered by event and then by role, each once.
pub fn sources<V: EventView, L: Ledger>(
    alloc: Global,
    view: &mut V,
    index: &Index,
    event: u32,
    steps: &mut Steps<L>,
) -> Result<Vec<Source>, ViewError>
    requires there { event < (V.tells view.old).count }
    requires index { IsIndexOfView index.now (V.tells view.old) }
    ensures sources { (rs : List Recorded) → (V.tells view.old).records ≡ Some rs
        → IfOk result (λ found. (s : records.Source) → Contains (map source_of found.items) s
        ↔ Contains (records.sources (owners_of index.now) rs event) s) }
    ensures rises { IfOk result (λ found. IsStrictlySortedBy source_cmp found.items) }
    ensures below { IfOk result (λ found. (s : Source) → Contains found.items s → s.event < event) }
    ensures keeps { Keeps (V.tells view.old) (V.tells view.new) }
    ensures reads { ReadsOnce (V.tells view.old) (V.tells view.new) }
    ensures answers { KeepsCounts result (V.tells view.old) (V.tells view.new) }
    ensures forward { steps.old ≤ steps.new }
{
    let record = view.event(event, steps)?;
    let found = of_event(alloc, index, record, steps)?;
    Ok(put_in_order(found))
}
