//! What the frame of an event holds.

ghost use Rattle.std.specs.Prelude.{◌≡◌};
ghost use Rattle.wy_payload.specs.Reading.{Gives, rows_from};
ghost use Rattle.wy_frame_reading.specs.Fields.{choice_at, content_at, event_at, form_in, kind_at, origin_at, place_at, use_at, use_of, uses_at, used_value_at};

use crate::field::optional;
use crate::slot::slot;
use crate::value::value;
use std::alloc::Global;
use wy_event::record::{Event, Kind, Use, Version};
use wy_event::sequence::Sequence;
use wy_payload::event::{Content, Origin, UseTag, kind_of, tag_of};
use wy_payload::fault::{DamageRule, Fault};
use wy_payload::field::{at_most, below, u8_at, u32_at};
use wy_payload::value::{ValueForm, units};
use wy_value::Value;

#[tactic(auto, unfolding(crate::specs::Fields::place_at))]
fn place(n: u32, bytes: &[u8]) -> Result<(Use, &[u8]), Fault>
    ensures { Gives (λ x. (x.0, x.1.now)) result (place_at n bytes.now) }
{
    let (slot, rest) = slot(n, bytes)?;
    let (moment, rest) = at_most(n as usize, rest)?;
    Ok((Use::Place { slot, moment }, rest))
}

#[tactic(auto, unfolding(crate::specs::Fields::used_value_at))]
fn used_value(n: u32, bytes: &[u8]) -> Result<(Use, &[u8]), Fault>
    ensures { Gives (λ x. (x.0, x.1.now)) result (used_value_at n bytes.now) }
{
    let (event, rest) = below(n as usize, bytes)?;
    Ok((Use::Value { event }, rest))
}

#[tactic(auto, unfolding(crate::specs::Fields::choice_at))]
fn choice(n: u32, bytes: &[u8]) -> Result<(Use, &[u8]), Fault>
    ensures { Gives (λ x. (x.0, x.1.now)) result (choice_at n bytes.now) }
{
    let (event, rest) = below(n as usize, bytes)?;
    Ok((Use::Choice { event }, rest))
}

#[tactic(auto, unfolding(crate::specs::Fields::use_of))]
fn behind_tag(n: u32, tag: UseTag, rest: &[u8]) -> Result<(Use, &[u8]), Fault>
    ensures { Gives (λ x. (x.0, x.1.now)) result (use_of n tag rest.now) }
{
    match tag {
        UseTag::Place => place(n, rest),
        UseTag::Value => used_value(n, rest),
        UseTag::Choice => choice(n, rest),
    }
}

#[tactic(auto, unfolding(crate::specs::Fields::use_at))]
fn one_use(n: u32, bytes: &[u8]) -> Result<(Use, &[u8]), Fault>
    ensures { Gives (λ x. (x.0, x.1.now)) result (use_at n bytes.now) }
{
    let (b, rest) = u8_at(bytes)?;
    let tag = tag_of(b).ok_or(Fault::Broken(DamageRule::Range))?;
    behind_tag(n, tag, rest)
}

fn uses_behind(alloc: Global, n: u32, count: u32, bytes: &[u8]) -> Result<(Vec<Use>, &[u8]), Fault>
    ensures { Gives (λ x. (x.0.items, x.1.now)) result (rows_from (use_at n) count bytes.now) }
{
    let mut uses = Vec::new(alloc);
    let mut rest = bytes;
    'uses: for _ in 0..count {
        let (used, after) = one_use(n, rest)?;
        uses.push(used)?;
        rest = after;
    }
    Ok((uses, rest))
}

#[tactic(auto, unfolding(crate::specs::Fields::uses_at))]
fn uses(alloc: Global, n: u32, bytes: &[u8]) -> Result<(Vec<Use>, &[u8]), Fault>
    ensures { Gives (λ x. (x.0.items, x.1.now)) result (uses_at n bytes.now) }
{
    let (count, rest) = u32_at(bytes)?;
    uses_behind(alloc, n, count, rest)
}

#[tactic(auto, unfolding(crate::specs::Fields::kind_at))]
fn kind(bytes: &[u8]) -> Result<(Kind, &[u8]), Fault>
    ensures { Gives (λ x. (x.0, x.1.now)) result (kind_at bytes.now) }
{
    let (b, rest) = u8_at(bytes)?;
    let kind = kind_of(b).ok_or(Fault::Broken(DamageRule::Range))?;
    Ok((kind, rest))
}

#[tactic(auto, unfolding(crate::specs::Fields::origin_at))]
fn read_origin(n: u32, bytes: &[u8]) -> Result<(Origin, &[u8]), Fault>
    ensures { Gives (λ x. (x.0, x.1.now)) result (origin_at n bytes.now) }
{
    let (kind, rest) = kind(bytes)?;
    let (site, rest) = u32_at(rest)?;
    let (frame, rest) = optional(n, rest)?;
    let (control, rest) = optional(n, rest)?;
    let (entity, rest) = u32_at(rest)?;
    Ok((
        Origin {
            kind,
            site,
            frame,
            control,
            entity,
        },
        rest,
    ))
}

fn form_of(kind: Kind) -> ValueForm
    ensures { result ≡ form_in kind }
{
    match kind {
        Kind::Test => ValueForm::Arm,
        _ => ValueForm::Optional,
    }
}

#[tactic(auto, unfolding(crate::specs::Fields::content_at))]
fn read_content(
    alloc: Global,
    version: Version,
    n: u32,
    kind: Kind,
    bytes: &[u8],
) -> Result<(Content, &[u8]), Fault>
    ensures { Gives (λ x. (x.0, x.1.now)) result (content_at version n kind bytes.now) }
{
    match kind {
        Kind::Text => {
            let (units, rest) = units(alloc, bytes)?;
            let units = Sequence::new(units);
            Ok((
                Content {
                    value: Value::None,
                    units,
                },
                rest,
            ))
        }
        _ => {
            let (value, rest) = value(version, form_of(kind), n, bytes)?;
            let units = Sequence::new(Vec::new(alloc));
            Ok((Content { value, units }, rest))
        }
    }
}

/// The event that a payload begins with, whose references are below n and whose moments are at most n.
#[tactic(auto, unfolding(crate::specs::Fields::event_at))]
pub fn event(alloc: Global, version: Version, n: u32, bytes: &[u8]) -> Result<(Event, &[u8]), Fault>
    ensures { Gives (λ x. (x.0, x.1.now)) result (event_at version n bytes.now) }
{
    let (origin, rest) = read_origin(n, bytes)?;
    let (slot, rest) = slot(n, rest)?;
    let (content, rest) = read_content(alloc, version, n, origin.kind, rest)?;
    let (uses, rest) = uses(alloc, n, rest)?;
    let event = Event {
        kind: origin.kind,
        site: origin.site,
        frame: origin.frame,
        control: origin.control,
        entity: origin.entity,
        slot,
        value: content.value,
        units: content.units,
        uses: Sequence::new(uses),
    };
    Ok((event, rest))
}
