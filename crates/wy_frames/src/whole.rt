//! Payloads that are read to their end.

ghost use Rattle.std.specs.Prelude.{◌≡◌, ◌≤◌, ◌<◌, ◌^◌, length, IfOk};
ghost use Rattle.wy_value.specs.Encoding.{utf8_of};
ghost use Rattle.wy_payload.specs.Reading.{Gives, all_of};
ghost use Rattle.wy_payload.specs.Events.{event_at};
ghost use Rattle.wy_kernel.specs.Limits.{output_limit};
ghost use Rattle.wy_payload.specs.Closing.{coverage_at, head_at, tail_at};
ghost use Rattle.wy_payload.specs.Ranges.{known_of};

use std::alloc::{AllocError, Global};
use wy_event::record::{Coverage, Event, Head, Kind, Tail};
use wy_payload::closing::{Totals, coverage, head, tail};
use wy_payload::event::{Written, event};
use wy_payload::fault::{DamageRule, Fault};
use wy_payload::known::Known;
use wy_payload::ranges::Ranges;
use wy_value::to_utf8;

pub fn whole_event(
    alloc: Global,
    ranges: &Ranges,
    earlier: &[Known],
    output: u32,
    payload: &[u8],
) -> Result<Written, Fault>
    requires { output ≤ output_limit }
    ensures { Gives (λ w. w) result
        (all_of (event_at ranges.now earlier.now output payload.now)) }
{
    let (written, rest) = event(alloc, ranges, earlier, output, payload)?;
    if !rest.is_empty() {
        return Err(Fault::Broken(DamageRule::Length));
    }
    Ok(written)
}

pub fn whole_coverage(
    alloc: Global,
    statements: u32,
    earlier: &[Known],
    payload: &[u8],
) -> Result<Coverage, Fault>
    ensures { Gives (λ c. c) result (all_of (coverage_at statements earlier.now payload.now)) }
{
    let (read, rest) = coverage(alloc, statements, earlier, payload)?;
    if !rest.is_empty() {
        return Err(Fault::Broken(DamageRule::Length));
    }
    Ok(read)
}

pub fn whole_tail(
    earlier: &[Known],
    totals: Totals,
    coverage: Coverage,
    payload: &[u8],
) -> Result<Tail, Fault>
    requires { length earlier.now < 2 ^ 32 }
    ensures { Gives (λ t. t) result (all_of (tail_at earlier.now totals coverage payload.now)) }
{
    let (read, rest) = tail(earlier, totals, coverage, payload)?;
    if !rest.is_empty() {
        return Err(Fault::Broken(DamageRule::Length));
    }
    Ok(read)
}

pub fn whole_head(alloc: Global, payload: &[u8]) -> Result<Head, Fault>
    ensures { Gives (λ h. h) result (all_of (head_at payload.now)) }
{
    let (read, rest) = head(alloc, payload)?;
    if !rest.is_empty() {
        return Err(Fault::Broken(DamageRule::Length));
    }
    Ok(read)
}

/// What later events may refer to.
pub fn known_in(alloc: Global, event: &Event) -> Result<Known, AllocError>
    ensures { IfOk result (λ k. k ≡ known_of event.now) }
{
    match event.kind {
        Kind::Init => Ok(Known::Init {
            class: event.entity,
        }),
        Kind::New => Ok(Known::New { code: event.entity }),
        Kind::Call => Ok(Known::Call {
            method: event.entity,
        }),
        Kind::Text => {
            let printed = to_utf8(alloc, event.units.as_slice())?;
            Ok(Known::Text {
                bytes: printed.len(),
            })
        }
        Kind::Test => Ok(Known::Test),
        Kind::Jump => Ok(Known::Jump),
        Kind::Return => Ok(Known::Return),
        Kind::Throw => Ok(Known::Throw),
        Kind::Catch => Ok(Known::Catch),
        _ => Ok(Known::Other),
    }
}
