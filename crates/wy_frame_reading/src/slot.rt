//! Slots behind their tags.

ghost use Rattle.wy_payload.specs.Reading.{Gives};
ghost use Rattle.wy_frame_reading.specs.Fields.{element_at, field_at, local_at, slot_at, slot_of, static_at};

use wy_event::record::Slot;
use wy_payload::fault::{DamageRule, Fault};
use wy_payload::field::{below, u8_at, u32_at};
use wy_payload::slot::{SlotTag, tag_of};

#[tactic(auto, unfolding(crate::specs::Fields::local_at))]
fn local(n: u32, bytes: &[u8]) -> Result<(Slot, &[u8]), Fault>
    ensures { Gives (λ x. (x.0, x.1.now)) result (local_at n bytes.now) }
{
    let (frame, rest) = below(n as usize, bytes)?;
    let (index, rest) = u32_at(rest)?;
    Ok((Slot::Local { frame, index }, rest))
}

#[tactic(auto, unfolding(crate::specs::Fields::static_at))]
fn static_field(bytes: &[u8]) -> Result<(Slot, &[u8]), Fault>
    ensures { Gives (λ x. (x.0, x.1.now)) result (static_at bytes.now) }
{
    let (field, rest) = u32_at(bytes)?;
    Ok((Slot::Static { field }, rest))
}

#[tactic(auto, unfolding(crate::specs::Fields::field_at))]
fn object_field(n: u32, bytes: &[u8]) -> Result<(Slot, &[u8]), Fault>
    ensures { Gives (λ x. (x.0, x.1.now)) result (field_at n bytes.now) }
{
    let (object, rest) = below(n as usize, bytes)?;
    let (field, rest) = u32_at(rest)?;
    Ok((Slot::Field { object, field }, rest))
}

#[tactic(auto, unfolding(crate::specs::Fields::element_at))]
fn element(n: u32, bytes: &[u8]) -> Result<(Slot, &[u8]), Fault>
    ensures { Gives (λ x. (x.0, x.1.now)) result (element_at n bytes.now) }
{
    let (array, rest) = below(n as usize, bytes)?;
    let (index, rest) = u32_at(rest)?;
    Ok((Slot::Elem { array, index }, rest))
}

#[tactic(auto, unfolding(crate::specs::Fields::slot_of))]
fn behind_tag(n: u32, tag: SlotTag, rest: &[u8]) -> Result<(Slot, &[u8]), Fault>
    ensures { Gives (λ x. (x.0, x.1.now)) result (slot_of n tag rest.now) }
{
    match tag {
        SlotTag::None => Ok((Slot::None, rest)),
        SlotTag::Local => local(n, rest),
        SlotTag::Static => static_field(rest),
        SlotTag::Field => object_field(n, rest),
        SlotTag::Elem => element(n, rest),
    }
}

/// A slot of any form, whose event is below n.
#[tactic(auto, unfolding(crate::specs::Fields::slot_at))]
pub fn slot(n: u32, bytes: &[u8]) -> Result<(Slot, &[u8]), Fault>
    ensures { Gives (λ x. (x.0, x.1.now)) result (slot_at n bytes.now) }
{
    let (b, rest) = u8_at(bytes)?;
    let tag = tag_of(b).ok_or(Fault::Broken(DamageRule::Range))?;
    behind_tag(n, tag, rest)
}
