//! Slots, behind their tags.

ghost use Rattle.std.specs.Prelude.{◌≡◌, slice_get};
ghost use Rattle.wy_payload.specs.Reading.{Gives};
ghost use Rattle.wy_payload.specs.Places.{allows_slot, element_at, field_at, local_at, slot_at, slot_form, slot_of, slot_tags, static_at};

use crate::fault::{DamageRule, Fault};
use crate::field::{below, passing, reference, u8_at, u32_at};
use crate::known::{Known, Role};
use crate::ranges::Ranges;
use crate::rules;
use wy_event::record::{Kind, Slot};
use wy_kernel::limit::INDEX_LIMIT;

#[derive(Clone, Copy, Debug, PartialEq, Eq)]
pub enum SlotTag {
    None,
    Local,
    Static,
    Field,
    Elem,
}

/// Which slots may stand in a field.
#[derive(Clone, Copy, Debug, PartialEq, Eq)]
pub enum SlotForm {
    Nothing,
    Local,
    Place,
}

pub fn form_of(kind: Kind) -> SlotForm
    ensures { result ≡ slot_form kind }
{
    match kind {
        Kind::Bind | Kind::Catch => SlotForm::Local,
        Kind::Set => SlotForm::Place,
        _ => SlotForm::Nothing,
    }
}

pub fn tag_of(b: u8) -> Option<SlotTag>
    ensures { result ≡ slice_get slot_tags b }
{
    match b {
        0 => Some(SlotTag::None),
        1 => Some(SlotTag::Local),
        2 => Some(SlotTag::Static),
        3 => Some(SlotTag::Field),
        4 => Some(SlotTag::Elem),
        _ => None,
    }
}

fn is_allowed(wanted: SlotForm, tag: SlotTag) -> bool
    ensures { result ≡ allows_slot wanted tag }
{
    match wanted {
        SlotForm::Nothing => tag == SlotTag::None,
        SlotForm::Local => tag == SlotTag::Local,
        SlotForm::Place => tag != SlotTag::None,
    }
}

#[tactic(auto, unfolding(crate::specs::Places::local_at))]
fn local<'a>(ranges: &Ranges, earlier: &[Known], bytes: &'a [u8]) -> Result<(Slot, &'a [u8]), Fault>
    ensures { Gives (λ x. (x.0, x.1.now)) result (local_at ranges.now earlier.now bytes.now) }
{
    let (frame, rest) = reference(Role::Frame, earlier, bytes)?;
    let (index, rest) = u32_at(rest)?;
    let rest = passing(rules::of_local(ranges, earlier, frame, index), rest)?;
    Ok((Slot::Local { frame, index }, rest))
}

#[tactic(auto, unfolding(crate::specs::Places::static_at))]
fn static_field<'a>(ranges: &Ranges, bytes: &'a [u8]) -> Result<(Slot, &'a [u8]), Fault>
    ensures { Gives (λ x. (x.0, x.1.now)) result (static_at ranges.now bytes.now) }
{
    let (field, rest) = u32_at(bytes)?;
    let rest = passing(rules::of_field(ranges, true, field), rest)?;
    Ok((Slot::Static { field }, rest))
}

#[tactic(auto, unfolding(crate::specs::Places::field_at))]
fn object_field<'a>(
    ranges: &Ranges,
    earlier: &[Known],
    bytes: &'a [u8],
) -> Result<(Slot, &'a [u8]), Fault>
    ensures { Gives (λ x. (x.0, x.1.now)) result (field_at ranges.now earlier.now bytes.now) }
{
    let (object, rest) = reference(Role::Object, earlier, bytes)?;
    let (field, rest) = u32_at(rest)?;
    let rest = passing(rules::of_field(ranges, false, field), rest)?;
    Ok((Slot::Field { object, field }, rest))
}

#[tactic(auto, unfolding(crate::specs::Places::element_at))]
fn element<'a>(earlier: &[Known], bytes: &'a [u8]) -> Result<(Slot, &'a [u8]), Fault>
    ensures { Gives (λ x. (x.0, x.1.now)) result (element_at earlier.now bytes.now) }
{
    let (array, rest) = reference(Role::Array, earlier, bytes)?;
    let (index, rest) = below(INDEX_LIMIT as usize, rest)?;
    Ok((Slot::Elem { array, index }, rest))
}

#[tactic(auto, unfolding(crate::specs::Places::slot_of))]
fn behind_tag<'a>(
    ranges: &Ranges,
    earlier: &[Known],
    tag: SlotTag,
    rest: &'a [u8],
) -> Result<(Slot, &'a [u8]), Fault>
    ensures { Gives (λ x. (x.0, x.1.now)) result (slot_of ranges.now earlier.now tag rest.now) }
{
    match tag {
        SlotTag::None => Ok((Slot::None, rest)),
        SlotTag::Local => local(ranges, earlier, rest),
        SlotTag::Static => static_field(ranges, rest),
        SlotTag::Field => object_field(ranges, earlier, rest),
        SlotTag::Elem => element(earlier, rest),
    }
}

/// A slot of a form.
#[tactic(auto, unfolding(crate::specs::Places::slot_at))]
pub fn slot<'a>(
    ranges: &Ranges,
    earlier: &[Known],
    wanted: SlotForm,
    bytes: &'a [u8],
) -> Result<(Slot, &'a [u8]), Fault>
    ensures { Gives (λ x. (x.0, x.1.now)) result
        (slot_at ranges.now earlier.now wanted bytes.now) }
{
    let (b, rest) = u8_at(bytes)?;
    let tag = tag_of(b).ok_or(Fault::Broken(DamageRule::Range))?;
    let rest = passing(rules::range_rule(is_allowed(wanted, tag)), rest)?;
    behind_tag(ranges, earlier, tag, rest)
}
