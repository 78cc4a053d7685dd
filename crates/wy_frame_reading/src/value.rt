//! Values behind their tags.

ghost use Rattle.std.specs.Prelude.{◌≡◌};
ghost use Rattle.wy_payload.specs.Reading.{Gives};
ghost use Rattle.wy_payload.specs.Rules.{in_range};
ghost use Rattle.wy_frame_reading.specs.Fields.{arm_at, arm_rule, fixed_at, int_at, object_at, text_at, value_at, value_of};

use crate::field::ranged;
use wy_event::record::Version;
use wy_payload::fault::{DamageRule, Fault};
use wy_payload::field::{below, u8_at, u32_at};
use wy_payload::value::{ValueForm, ValueTag, arm_number, plain, tag_of, truth};
use wy_value::Value;

#[tactic(auto, unfolding(crate::specs::Fields::int_at))]
fn int(bytes: &[u8]) -> Result<(Value, &[u8]), Fault>
    ensures { Gives (λ x. (x.0, x.1.now)) result (int_at bytes.now) }
{
    let (bits, rest) = u32_at(bytes)?;
    Ok((Value::Int(bits.cast_signed()), rest))
}

#[tactic(auto, unfolding(crate::specs::Fields::object_at))]
fn object(n: u32, bytes: &[u8]) -> Result<(Value, &[u8]), Fault>
    ensures { Gives (λ x. (x.0, x.1.now)) result (object_at n bytes.now) }
{
    let (event, rest) = below(n as usize, bytes)?;
    Ok((Value::Object(event), rest))
}

#[tactic(auto, unfolding(crate::specs::Fields::text_at))]
fn text(n: u32, bytes: &[u8]) -> Result<(Value, &[u8]), Fault>
    ensures { Gives (λ x. (x.0, x.1.now)) result (text_at n bytes.now) }
{
    let (event, rest) = below(n as usize, bytes)?;
    Ok((Value::Text(event), rest))
}

#[tactic(auto, unfolding(crate::specs::Fields::fixed_at))]
fn fixed(bytes: &[u8]) -> Result<(Value, &[u8]), Fault>
    ensures { Gives (λ x. (x.0, x.1.now)) result (fixed_at bytes.now) }
{
    let (number, rest) = u32_at(bytes)?;
    Ok((Value::Fixed(number), rest))
}

// Version 1 has no arm but 0 and 1.
fn is_spelled(version: Version, n: u32) -> bool
    ensures { in_range result ≡ arm_rule version n }
{
    match version {
        Version::One => n < 2,
        Version::Two => true,
    }
}

#[tactic(auto, unfolding(crate::specs::Fields::arm_at))]
fn arm(version: Version, bytes: &[u8]) -> Result<(Value, &[u8]), Fault>
    ensures { Gives (λ x. (x.0, x.1.now)) result (arm_at version bytes.now) }
{
    let (n, rest) = arm_number(version, bytes)?;
    let rest = ranged(is_spelled(version, n), rest)?;
    Ok((Value::Arm(n), rest))
}

#[tactic(auto, unfolding(crate::specs::Fields::value_of))]
fn behind_tag(version: Version, n: u32, tag: ValueTag, rest: &[u8]) -> Result<(Value, &[u8]), Fault>
    ensures { Gives (λ x. (x.0, x.1.now)) result (value_of version n tag rest.now) }
{
    match tag {
        ValueTag::Bool => truth(rest),
        ValueTag::Int => int(rest),
        ValueTag::Object => object(n, rest),
        ValueTag::Text => text(n, rest),
        ValueTag::Fixed => fixed(rest),
        ValueTag::Arm => arm(version, rest),
        _ => plain(tag, rest),
    }
}

/// A value where an arm is wanted or any other, whose event is below n.
#[tactic(auto, unfolding(crate::specs::Fields::value_at))]
pub fn value(
    version: Version,
    wanted: ValueForm,
    n: u32,
    bytes: &[u8],
) -> Result<(Value, &[u8]), Fault>
    ensures { Gives (λ x. (x.0, x.1.now)) result (value_at version wanted n bytes.now) }
{
    let (b, rest) = u8_at(bytes)?;
    let tag = tag_of(version, wanted, b).ok_or(Fault::Broken(DamageRule::Range))?;
    behind_tag(version, n, tag, rest)
}
