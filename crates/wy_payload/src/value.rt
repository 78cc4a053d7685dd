//! Values behind their tags, and the units of a Text.

ghost use Rattle.std.specs.Prelude.{◌≡◌, ◌+◌, ◌<◌, ◌^◌, length, slice_get, IfOk};
ghost use Rattle.std.specs.Int.{w16};
ghost use Rattle.wy_payload.specs.Reading.{Gives, number_at, rows_from};
ghost use Rattle.wy_payload.specs.Values.{allows_value, arm_at, arm_width, bool_at, fixed_at, int_at, int_rule, is_arm_tag, object_at, object_role, plain_at, text_at, units_at, value_at, value_form, value_of, value_tag, value_tags};

use crate::fault::{DamageRule, Fault};
use crate::field::{passing, reference, u8_at, u16_at, u32_at, u64_at};
use crate::known::{Known, Role};
use crate::ranges::Ranges;
use crate::rules;
use std::alloc::Global;
use wy_event::record::{Kind, Version};
use wy_kernel::code::BRACKETS_UNIT;
use wy_value::Value;

#[derive(Clone, Copy, Debug, PartialEq, Eq)]
pub enum ValueTag {
    None,
    Bool,
    Byte,
    Short,
    Char,
    Int,
    Long,
    Null,
    Object,
    Text,
    Fixed,
    Arm,
}

/// Which values may stand in a field.
#[derive(Clone, Copy, Debug, PartialEq, Eq)]
pub enum ValueForm {
    Nothing,
    Any,
    Optional,
    /// The length of an array.
    Length,
    /// What a test gave.
    Arm,
    /// A byte of the input, or -1 at its end.
    Byte,
    Printed,
    Thrown,
    Caught,
}

/// The tag of a boolean, with which version 1 spells an arm.
const TRUTH_TAG: u8 = 1;

const UNITS_TAG: u8 = 11;

/// The tag of an arm in version 2.
const ARM_TAG: u8 = 12;

/// The arms of a test: 0 for false and 1 for true.
const ARMS: u32 = 2;

pub fn form_of(kind: Kind, entity: u32) -> ValueForm
    ensures { result ≡ value_form kind entity }
{
    match kind {
        Kind::New if entity >= BRACKETS_UNIT => ValueForm::Length,
        Kind::Bind | Kind::Set => ValueForm::Any,
        Kind::Test => ValueForm::Arm,
        Kind::Read => ValueForm::Byte,
        Kind::Print => ValueForm::Printed,
        Kind::Return => ValueForm::Optional,
        Kind::Throw => ValueForm::Thrown,
        Kind::Catch => ValueForm::Caught,
        _ => ValueForm::Nothing,
    }
}

fn is_arm(version: Version, wanted: ValueForm, b: u8) -> bool
    ensures { result ≡ is_arm_tag version wanted b }
{
    match version {
        Version::One => matches!(wanted, ValueForm::Arm) && b == TRUTH_TAG,
        Version::Two => b == ARM_TAG,
    }
}

fn listed_tag(b: u8) -> Option<ValueTag>
    ensures { result ≡ slice_get value_tags b }
{
    match b {
        0 => Some(ValueTag::None),
        1 => Some(ValueTag::Bool),
        2 => Some(ValueTag::Byte),
        3 => Some(ValueTag::Short),
        4 => Some(ValueTag::Char),
        5 => Some(ValueTag::Int),
        6 => Some(ValueTag::Long),
        7 => Some(ValueTag::Null),
        8 => Some(ValueTag::Object),
        9 => Some(ValueTag::Text),
        10 => Some(ValueTag::Fixed),
        _ => None,
    }
}

/// The tag that a byte is where a form is wanted.
pub fn tag_of(version: Version, wanted: ValueForm, b: u8) -> Option<ValueTag>
    ensures { result ≡ value_tag version wanted b }
{
    if is_arm(version, wanted, b) {
        Some(ValueTag::Arm)
    } else {
        listed_tag(b)
    }
}

fn is_allowed(wanted: ValueForm, tag: ValueTag) -> bool
    ensures { result ≡ allows_value wanted tag }
{
    match wanted {
        ValueForm::Nothing => matches!(tag, ValueTag::None),
        ValueForm::Any => !matches!(tag, ValueTag::None | ValueTag::Arm),
        ValueForm::Optional => !matches!(tag, ValueTag::Arm),
        ValueForm::Length | ValueForm::Byte => matches!(tag, ValueTag::Int),
        ValueForm::Arm => matches!(tag, ValueTag::Arm),
        ValueForm::Printed => !matches!(
            tag,
            ValueTag::Byte | ValueTag::Short | ValueTag::Object | ValueTag::Arm
        ),
        ValueForm::Thrown | ValueForm::Caught => matches!(tag, ValueTag::Object),
    }
}

fn of_int(wanted: ValueForm, n: i32) -> Option<DamageRule>
    ensures { result ≡ int_rule wanted n }
{
    match wanted {
        ValueForm::Length => rules::range_rule(n >= 0),
        ValueForm::Byte => rules::range_rule(n >= -1 && n < 256),
        _ => None,
    }
}

fn role_of(wanted: ValueForm) -> Role
    ensures { result ≡ object_role wanted }
{
    match wanted {
        ValueForm::Thrown => Role::Object,
        _ => Role::Made,
    }
}

#[tactic(auto, unfolding(crate::specs::Values::bool_at))]
pub fn truth(bytes: &[u8]) -> Result<(Value, &[u8]), Fault>
    ensures { Gives (λ x. (x.0, x.1.now)) result (bool_at bytes.now) }
{
    let (b, rest) = u8_at(bytes)?;
    let rest = passing(rules::range_rule(b < 2), rest)?;
    Ok((Value::Bool(b == 1), rest))
}

#[tactic(auto, unfolding(crate::specs::Values::int_at))]
fn int(wanted: ValueForm, bytes: &[u8]) -> Result<(Value, &[u8]), Fault>
    ensures { Gives (λ x. (x.0, x.1.now)) result (int_at wanted bytes.now) }
{
    let (bits, rest) = u32_at(bytes)?;
    let n = bits.cast_signed();
    let rest = passing(of_int(wanted, n), rest)?;
    Ok((Value::Int(n), rest))
}

#[tactic(auto, unfolding(crate::specs::Values::plain_at))]
pub fn plain(tag: ValueTag, bytes: &[u8]) -> Result<(Value, &[u8]), Fault>
    ensures { Gives (λ x. (x.0, x.1.now)) result (plain_at tag bytes.now) }
{
    match tag {
        ValueTag::Byte => {
            let (bits, rest) = u8_at(bytes)?;
            Ok((Value::Byte(bits.cast_signed()), rest))
        }
        ValueTag::Short => {
            let (bits, rest) = u16_at(bytes)?;
            Ok((Value::Short(bits.cast_signed()), rest))
        }
        ValueTag::Char => {
            let (unit, rest) = u16_at(bytes)?;
            Ok((Value::Char(unit), rest))
        }
        ValueTag::Long => {
            let (bits, rest) = u64_at(bytes)?;
            Ok((Value::Long(bits.cast_signed()), rest))
        }
        ValueTag::Null => Ok((Value::Null, bytes)),
        _ => Ok((Value::None, bytes)),
    }
}

#[tactic(auto, unfolding(crate::specs::Values::object_at))]
fn object<'a>(
    earlier: &[Known],
    wanted: ValueForm,
    bytes: &'a [u8],
) -> Result<(Value, &'a [u8]), Fault>
    ensures { Gives (λ x. (x.0, x.1.now)) result (object_at earlier.now wanted bytes.now) }
{
    let (n, rest) = reference(role_of(wanted), earlier, bytes)?;
    Ok((Value::Object(n), rest))
}

#[tactic(auto, unfolding(crate::specs::Values::text_at))]
fn text<'a>(earlier: &[Known], bytes: &'a [u8]) -> Result<(Value, &'a [u8]), Fault>
    ensures { Gives (λ x. (x.0, x.1.now)) result (text_at earlier.now bytes.now) }
{
    let (n, rest) = reference(Role::Text, earlier, bytes)?;
    Ok((Value::Text(n), rest))
}

#[tactic(auto, unfolding(crate::specs::Values::fixed_at))]
fn fixed<'a>(ranges: &Ranges, bytes: &'a [u8]) -> Result<(Value, &'a [u8]), Fault>
    ensures { Gives (λ x. (x.0, x.1.now)) result (fixed_at ranges.now bytes.now) }
{
    let (n, rest) = u32_at(bytes)?;
    let is_fixed = (n as usize) < ranges.fixed.as_slice().len();
    let rest = passing(rules::range_rule(is_fixed), rest)?;
    Ok((Value::Fixed(n), rest))
}

/// The number of an arm, in as many bytes as a version has for it.
pub fn arm_number(version: Version, bytes: &[u8]) -> Result<(u32, &[u8]), Fault>
    ensures { Gives (λ x. (x.0, x.1.now)) result (number_at (arm_width version) bytes.now) }
{
    match version {
        Version::One => {
            let (b, rest) = u8_at(bytes)?;
            Ok((u32::from(b), rest))
        }
        Version::Two => u32_at(bytes),
    }
}

#[tactic(auto, unfolding(crate::specs::Values::arm_at))]
fn arm(version: Version, bytes: &[u8]) -> Result<(Value, &[u8]), Fault>
    ensures { Gives (λ x. (x.0, x.1.now)) result (arm_at version bytes.now) }
{
    let (n, rest) = arm_number(version, bytes)?;
    let rest = passing(rules::range_rule(n < ARMS), rest)?;
    Ok((Value::Arm(n), rest))
}

#[tactic(auto, unfolding(crate::specs::Values::value_of))]
fn behind_tag<'a>(
    ranges: &Ranges,
    earlier: &[Known],
    wanted: ValueForm,
    tag: ValueTag,
    rest: &'a [u8],
) -> Result<(Value, &'a [u8]), Fault>
    ensures { Gives (λ x. (x.0, x.1.now)) result
        (value_of ranges.now earlier.now wanted tag rest.now) }
{
    match tag {
        ValueTag::Bool => truth(rest),
        ValueTag::Int => int(wanted, rest),
        ValueTag::Object => object(earlier, wanted, rest),
        ValueTag::Text => text(earlier, rest),
        ValueTag::Fixed => fixed(ranges, rest),
        ValueTag::Arm => arm(ranges.version, rest),
        _ => plain(tag, rest),
    }
}

/// A value of a form.
#[tactic(auto, unfolding(crate::specs::Values::value_at))]
pub fn value<'a>(
    ranges: &Ranges,
    earlier: &[Known],
    wanted: ValueForm,
    bytes: &'a [u8],
) -> Result<(Value, &'a [u8]), Fault>
    ensures { Gives (λ x. (x.0, x.1.now)) result
        (value_at ranges.now earlier.now wanted bytes.now) }
{
    let (b, rest) = u8_at(bytes)?;
    let tag = tag_of(ranges.version, wanted, b).ok_or(Fault::Broken(DamageRule::Range))?;
    let rest = passing(rules::range_rule(is_allowed(wanted, tag)), rest)?;
    behind_tag(ranges, earlier, wanted, tag, rest)
}

fn units_behind(alloc: Global, count: u32, bytes: &[u8]) -> Result<(Vec<u16>, &[u8]), Fault>
    ensures { Gives (λ x. (x.0.items, x.1.now)) result (rows_from (number_at w16) count bytes.now) }
{
    let mut units = Vec::new(alloc);
    let mut rest = bytes;
    'units: for _ in 0..count {
        let (unit, after) = u16_at(rest)?;
        units.push(unit)?;
        rest = after;
    }
    Ok((units, rest))
}

/// The units of a Text.
#[tactic(auto, unfolding(crate::specs::Values::units_at))]
pub fn units(alloc: Global, bytes: &[u8]) -> Result<(Vec<u16>, &[u8]), Fault>
    ensures { Gives (λ x. (x.0.items, x.1.now)) result (units_at bytes.now) }
{
    let (b, rest) = u8_at(bytes)?;
    let rest = passing(rules::range_rule(b == UNITS_TAG), rest)?;
    let (count, rest) = u32_at(rest)?;
    units_behind(alloc, count, rest)
}
