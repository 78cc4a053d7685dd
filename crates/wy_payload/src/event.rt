//! A whole event, by what is known of those before it.

ghost use Rattle.std.specs.Prelude.{◌≡◌, ◌+◌, ◌≤◌, ◌<◌, ◌^◌, length, slice_get, IfOk};
ghost use Rattle.wy_payload.specs.Reading.{Gives, rows_from};
ghost use Rattle.wy_payload.specs.Events.{content_at, event_at, kind_at, kinds, origin_at, place_at, site_at, use_at, use_of, use_tag, uses_at, entity_at};
ghost use Rattle.wy_kernel.specs.Limits.{output_limit};

use crate::fault::{DamageRule, Fault};
use crate::field::{at_most, below, checked_number, optional, passing, reference, u8_at, u32_at};
use crate::known::{Known, Role};
use crate::print::{Printing, output_behind};
use crate::ranges::Ranges;
use crate::rules;
use crate::slot::{self, SlotForm, slot};
use crate::value::{self, units, value};
use std::alloc::Global;
use wy_event::record::{Event, Kind, Use};
use wy_event::sequence::Sequence;
use wy_kernel::limit::EVENT_LIMIT;
use wy_value::Value;

#[derive(Clone, Copy, Debug, PartialEq, Eq)]
pub enum UseTag {
    Place,
    Value,
    Choice,
}

/// What an event is and where it stands.
#[derive(Clone, Copy)]
pub struct Origin {
    pub kind: Kind,
    pub site: u32,
    pub frame: u32,
    pub control: u32,
    pub entity: u32,
}

/// The value of an event, and the units of one that is a Text.
#[derive(Drop)]
pub struct Content {
    pub value: Value,
    pub units: Sequence<u16>,
}

/// An event, and the length of the output behind it.
#[derive(Drop)]
pub struct Written {
    pub event: Event,
    pub output: u32,
}

pub fn tag_of(b: u8) -> Option<UseTag>
    ensures { result ≡ use_tag b }
{
    match b {
        1 => Some(UseTag::Place),
        2 => Some(UseTag::Value),
        3 => Some(UseTag::Choice),
        _ => None,
    }
}

#[tactic(auto, unfolding(crate::specs::Events::place_at))]
fn place<'a>(ranges: &Ranges, earlier: &[Known], bytes: &'a [u8]) -> Result<(Use, &'a [u8]), Fault>
    ensures { Gives (λ x. (x.0, x.1.now)) result (place_at ranges.now earlier.now bytes.now) }
{
    let (slot, rest) = slot(ranges, earlier, SlotForm::Place, bytes)?;
    let (moment, rest) = at_most(earlier.len(), rest)?;
    Ok((Use::Place { slot, moment }, rest))
}

#[tactic(auto, unfolding(crate::specs::Events::use_of))]
fn behind_tag<'a>(
    ranges: &Ranges,
    earlier: &[Known],
    tag: UseTag,
    rest: &'a [u8],
) -> Result<(Use, &'a [u8]), Fault>
    ensures { Gives (λ x. (x.0, x.1.now)) result (use_of ranges.now earlier.now tag rest.now) }
{
    match tag {
        UseTag::Place => place(ranges, earlier, rest),
        UseTag::Value => {
            let (event, rest) = below(earlier.len(), rest)?;
            Ok((Use::Value { event }, rest))
        }
        UseTag::Choice => {
            let (event, rest) = reference(Role::Test, earlier, rest)?;
            Ok((Use::Choice { event }, rest))
        }
    }
}

#[tactic(auto, unfolding(crate::specs::Events::use_at))]
fn one_use<'a>(
    ranges: &Ranges,
    earlier: &[Known],
    bytes: &'a [u8],
) -> Result<(Use, &'a [u8]), Fault>
    ensures { Gives (λ x. (x.0, x.1.now)) result (use_at ranges.now earlier.now bytes.now) }
{
    let (b, rest) = u8_at(bytes)?;
    let tag = tag_of(b).ok_or(Fault::Broken(DamageRule::Range))?;
    behind_tag(ranges, earlier, tag, rest)
}

fn uses_behind<'a>(
    alloc: Global,
    ranges: &Ranges,
    earlier: &[Known],
    count: u32,
    bytes: &'a [u8],
) -> Result<(Vec<Use>, &'a [u8]), Fault>
    ensures { Gives (λ x. (x.0.items, x.1.now)) result
        (rows_from (use_at ranges.now earlier.now) count bytes.now) }
{
    let mut uses = Vec::new(alloc);
    let mut rest = bytes;
    'uses: for _ in 0..count {
        let (used, after) = one_use(ranges, earlier, rest)?;
        uses.push(used)?;
        rest = after;
    }
    Ok((uses, rest))
}

#[tactic(auto, unfolding(crate::specs::Events::uses_at))]
fn uses<'a>(
    alloc: Global,
    ranges: &Ranges,
    earlier: &[Known],
    bytes: &'a [u8],
) -> Result<(Vec<Use>, &'a [u8]), Fault>
    ensures { Gives (λ x. (x.0.items, x.1.now)) result
        (uses_at ranges.now earlier.now bytes.now) }
{
    let (count, rest) = u32_at(bytes)?;
    uses_behind(alloc, ranges, earlier, count, rest)
}

pub fn kind_of(b: u8) -> Option<Kind>
    ensures { result ≡ slice_get kinds b }
{
    match b {
        0 => Some(Kind::Init),
        1 => Some(Kind::New),
        2 => Some(Kind::Call),
        3 => Some(Kind::Bind),
        4 => Some(Kind::Set),
        5 => Some(Kind::Test),
        6 => Some(Kind::Text),
        7 => Some(Kind::Read),
        8 => Some(Kind::Print),
        9 => Some(Kind::Return),
        10 => Some(Kind::Jump),
        11 => Some(Kind::Throw),
        12 => Some(Kind::Catch),
        _ => None,
    }
}

#[tactic(auto, unfolding(crate::specs::Events::kind_at))]
fn kind<'a>(earlier: &[Known], bytes: &'a [u8]) -> Result<(Kind, &'a [u8]), Fault>
    ensures { Gives (λ x. (x.0, x.1.now)) result (kind_at earlier.now bytes.now) }
{
    let (b, rest) = u8_at(bytes)?;
    let kind = kind_of(b).ok_or(Fault::Broken(DamageRule::Range))?;
    let rest = passing(
        rules::range_rule(earlier.len() < EVENT_LIMIT as usize),
        rest,
    )?;
    Ok((kind, rest))
}

#[tactic(auto, unfolding(crate::specs::Events::site_at))]
fn site<'a>(ranges: &Ranges, bytes: &'a [u8]) -> Result<(u32, &'a [u8]), Fault>
    ensures { Gives (λ x. (x.0, x.1.now)) result (site_at ranges.now bytes.now) }
{
    let (n, rest) = u32_at(bytes)?;
    checked_number(rules::of_site(ranges, n), n, rest)
}

#[tactic(auto, unfolding(crate::specs::Events::entity_at))]
fn entity<'a>(ranges: &Ranges, kind: Kind, bytes: &'a [u8]) -> Result<(u32, &'a [u8]), Fault>
    ensures { Gives (λ x. (x.0, x.1.now)) result (entity_at ranges.now kind bytes.now) }
{
    let (n, rest) = u32_at(bytes)?;
    checked_number(rules::of_entity(ranges, kind, n), n, rest)
}

#[tactic(auto, unfolding(crate::specs::Events::origin_at))]
fn read_origin<'a>(
    ranges: &Ranges,
    earlier: &[Known],
    bytes: &'a [u8],
) -> Result<(Origin, &'a [u8]), Fault>
    ensures { Gives (λ x. (x.0, x.1.now)) result (origin_at ranges.now earlier.now bytes.now) }
{
    let (kind, rest) = kind(earlier, bytes)?;
    let (site, rest) = site(ranges, rest)?;
    let (frame, rest) = optional(Role::Frame, earlier, rest)?;
    let (control, rest) = optional(Role::Control, earlier, rest)?;
    let (entity, rest) = entity(ranges, kind, rest)?;
    Ok((
        Origin {
            kind,
            site,
            frame,
            control,
            entity,
        },
        rest,
    ))
}

#[tactic(auto, unfolding(crate::specs::Events::content_at))]
fn read_content<'a>(
    alloc: Global,
    ranges: &Ranges,
    earlier: &[Known],
    kind: Kind,
    entity: u32,
    bytes: &'a [u8],
) -> Result<(Content, &'a [u8]), Fault>
    ensures { Gives (λ x. (x.0, x.1.now)) result
        (content_at ranges.now earlier.now kind entity bytes.now) }
{
    match kind {
        Kind::Text => {
            let (units, rest) = units(alloc, bytes)?;
            let units = Sequence::new(units);
            Ok((
                Content {
                    value: Value::None,
                    units,
                },
                rest,
            ))
        }
        _ => {
            let (value, rest) = value(ranges, earlier, value::form_of(kind, entity), bytes)?;
            let units = Sequence::new(Vec::new(alloc));
            Ok((Content { value, units }, rest))
        }
    }
}

/// The event that a payload begins with, behind so much output.
#[tactic(auto, unfolding(crate::specs::Events::event_at))]
pub fn event<'a>(
    alloc: Global,
    ranges: &Ranges,
    earlier: &[Known],
    output: u32,
    bytes: &'a [u8],
) -> Result<(Written, &'a [u8]), Fault>
    requires { output ≤ output_limit }
    ensures { Gives (λ x. (x.0, x.1.now)) result
        (event_at ranges.now earlier.now output bytes.now) }
{
    let (origin, rest) = read_origin(ranges, earlier, bytes)?;
    let (slot, rest) = slot(ranges, earlier, slot::form_of(origin.kind), rest)?;
    let (content, rest) = read_content(alloc, ranges, earlier, origin.kind, origin.entity, rest)?;
    let printing = Printing {
        kind: origin.kind,
        site: origin.site,
        value: content.value,
    };
    let output = output_behind(alloc, ranges, earlier, output, printing)?;
    let (uses, rest) = uses(alloc, ranges, earlier, rest)?;
    let event = Event {
        kind: origin.kind,
        site: origin.site,
        frame: origin.frame,
        control: origin.control,
        entity: origin.entity,
        slot,
        value: content.value,
        units: content.units,
        uses: Sequence::new(uses),
    };
    Ok((Written { event, output }, rest))
}
