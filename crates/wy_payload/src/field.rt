//! Numbers at the front of bytes, with the bytes behind them.

ghost use Rattle.std.specs.Prelude.{◌≡◌, length};
ghost use Rattle.std.specs.Int.{w8, w16, w32, w64};
ghost use Rattle.wy_payload.specs.Reading.{Gives, at_most_at, below_at, number_at, optional_at, passed, passed_number, reference_at};

use crate::fault::{DamageRule, Fault};
use crate::known::{Known, Role};
use crate::rules;

/// What a rule says of a number that was read.
pub fn checked_number(rule: Option<DamageRule>, n: u32, rest: &[u8]) -> Result<(u32, &[u8]), Fault>
    ensures { Gives (λ x. (x.0, x.1.now)) result (passed_number rule n rest.now) }
{
    match rule {
        None => Ok((n, rest)),
        Some(rule) => Err(Fault::Broken(rule)),
    }
}

/// The bytes behind a field, where it breaks no rule.
pub fn passing(rule: Option<DamageRule>, rest: &[u8]) -> Result<&[u8], Fault>
    ensures { Gives (λ x. x.now) result (passed rule rest.now) }
{
    match rule {
        None => Ok(rest),
        Some(rule) => Err(Fault::Broken(rule)),
    }
}

pub fn u8_at(bytes: &[u8]) -> Result<(u8, &[u8]), Fault>
    ensures { Gives (λ x. (x.0, x.1.now)) result (number_at w8 bytes.now) }
{
    match bytes {
        [] => Err(Fault::Broken(DamageRule::Length)),
        [first, rest @ ..] => Ok((*first, rest)),
    }
}

pub fn u16_at(bytes: &[u8]) -> Result<(u16, &[u8]), Fault>
    ensures { Gives (λ x. (x.0, x.1.now)) result (number_at w16 bytes.now) }
{
    if bytes.len() < 2 {
        return Err(Fault::Broken(DamageRule::Length));
    }
    let (front, rest) = bytes.split_at(2);
    Ok((u16::from_be_bytes([front[0], front[1]]), rest))
}

pub fn u32_at(bytes: &[u8]) -> Result<(u32, &[u8]), Fault>
    ensures { Gives (λ x. (x.0, x.1.now)) result (number_at w32 bytes.now) }
{
    if bytes.len() < 4 {
        return Err(Fault::Broken(DamageRule::Length));
    }
    let (front, rest) = bytes.split_at(4);
    let number = u32::from_be_bytes([front[0], front[1], front[2], front[3]]);
    Ok((number, rest))
}

pub fn u64_at(bytes: &[u8]) -> Result<(u64, &[u8]), Fault>
    ensures { Gives (λ x. (x.0, x.1.now)) result (number_at w64 bytes.now) }
{
    if bytes.len() < 8 {
        return Err(Fault::Broken(DamageRule::Length));
    }
    let (front, rest) = bytes.split_at(8);
    let number = u64::from_be_bytes([
        front[0], front[1], front[2], front[3], front[4], front[5], front[6], front[7],
    ]);
    Ok((number, rest))
}

#[tactic(auto, unfolding(crate::specs::Reading::reference_at))]
pub fn reference<'a>(
    role: Role,
    earlier: &[Known],
    bytes: &'a [u8],
) -> Result<(u32, &'a [u8]), Fault>
    ensures { Gives (λ x. (x.0, x.1.now)) result (reference_at role earlier.now bytes.now) }
{
    let (n, rest) = u32_at(bytes)?;
    checked_number(rules::of_reference(role, earlier, n), n, rest)
}

#[tactic(auto, unfolding(crate::specs::Reading::optional_at))]
pub fn optional<'a>(
    role: Role,
    earlier: &[Known],
    bytes: &'a [u8],
) -> Result<(u32, &'a [u8]), Fault>
    ensures { Gives (λ x. (x.0, x.1.now)) result (optional_at role earlier.now bytes.now) }
{
    let (n, rest) = u32_at(bytes)?;
    checked_number(rules::of_optional(role, earlier, n), n, rest)
}

#[tactic(auto, unfolding(crate::specs::Reading::below_at))]
pub fn below(limit: usize, bytes: &[u8]) -> Result<(u32, &[u8]), Fault>
    ensures { Gives (λ x. (x.0, x.1.now)) result (below_at limit bytes.now) }
{
    let (n, rest) = u32_at(bytes)?;
    checked_number(rules::range_rule((n as usize) < limit), n, rest)
}

#[tactic(auto, unfolding(crate::specs::Reading::at_most_at))]
pub fn at_most(limit: usize, bytes: &[u8]) -> Result<(u32, &[u8]), Fault>
    ensures { Gives (λ x. (x.0, x.1.now)) result (at_most_at limit bytes.now) }
{
    let (n, rest) = u32_at(bytes)?;
    checked_number(rules::range_rule(n as usize <= limit), n, rest)
}
