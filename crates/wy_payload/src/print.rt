//! How many bytes a Print writes.

ghost use Rattle.std.specs.Prelude.{◌≡◌, if◌then◌else◌, ◌≤◌, ◌==◌, ◌+◌, length, slice_get, IfOk};
ghost use Rattle.std.specs.List.{list_any};
ghost use Rattle.wy_kernel.specs.Limits.{output_limit};
ghost use Rattle.wy_payload.specs.Values.{newline_length, output_behind as behind, printed_length, text_length};
ghost use Rattle.wy_payload.specs.Reading.{Gives};
ghost use Rattle.wy_value.specs.Numeral.{has_text, text_of};
ghost use Rattle.wy_value.specs.Encoding.{utf8_of};

use crate::fault::{DamageRule, Fault};
use crate::known::Known;
use crate::ranges::Ranges;
use std::alloc::{AllocError, Global};
use wy_event::record::Kind;
use wy_kernel::limit::OUTPUT_LIMIT;
use wy_value::{Value, digits, to_utf8};

/// What is printed of an event.
#[derive(Clone, Copy)]
pub struct Printing {
    pub kind: Kind,
    pub site: u32,
    pub value: Value,
}

fn length_of_text(text: Option<Known>) -> usize
    ensures { result ≡ text_length text }
{
    match text {
        Some(Known::Text { bytes }) => bytes,
        _ => 0,
    }
}

fn is_simple(value: Value) -> bool
    ensures { result ≡ has_text value }
{
    !matches!(
        value,
        Value::None | Value::Object(_) | Value::Text(_) | Value::Fixed(_) | Value::Arm(_)
    )
}

fn length_of_simple(alloc: Global, value: Value) -> Result<usize, AllocError>
    ensures { IfOk result (λ n. n
        ≡ (if has_text value then length (utf8_of (text_of value)) else 0)) }
{
    if !is_simple(value) {
        return Ok(0);
    }
    let units = digits(alloc, value)?;
    Ok(to_utf8(alloc, &units)?.len())
}

#[tactic(auto, unfolding(crate::specs::Values::printed_length))]
fn length_of_value(
    alloc: Global,
    ranges: &Ranges,
    earlier: &[Known],
    value: Value,
) -> Result<usize, AllocError>
    ensures { IfOk result (λ n. n ≡ printed_length ranges.now earlier.now value) }
{
    match value {
        Value::Text(n) => Ok(length_of_text(earlier.get(n as usize).copied())),
        Value::Fixed(n) => {
            let lengths = ranges.fixed.as_slice();
            Ok(lengths.get(n as usize).copied().unwrap_or(0))
        }
        _ => length_of_simple(alloc, value),
    }
}

fn is_newline(ranges: &Ranges, site: u32) -> bool
    ensures { result ≡ list_any (λ s. s == site) ranges.now.newlines }
{
    ranges.newlines.as_slice().contains(&site)
}

fn length_of_newline(ranges: &Ranges, site: u32) -> usize
    ensures { result ≡ newline_length ranges.now site }
{
    if is_newline(ranges, site) { 1 } else { 0 }
}

// A Print behind so much output.
#[tactic(auto, unfolding(crate::specs::Values::output_behind, crate::specs::Values::output_of))]
fn printed(
    alloc: Global,
    ranges: &Ranges,
    earlier: &[Known],
    output: u32,
    printing: Printing,
) -> Result<u32, Fault>
    requires { output ≤ output_limit }
    ensures { Gives (λ n. n) result
        (behind ranges.now earlier.now output Kind.Print printing.site printing.value) }
{
    let length = length_of_value(alloc, ranges, earlier, printing.value)?;
    let newline = length_of_newline(ranges, printing.site);
    let left = OUTPUT_LIMIT - output as usize;
    if length > left || newline > left - length {
        return Err(Fault::Broken(DamageRule::Range));
    }
    Ok((output as usize + length + newline) as u32)
}

/// The output behind an event, where it does not pass the limit.
#[tactic(auto, unfolding(crate::specs::Values::output_behind, crate::specs::Values::output_of))]
pub fn output_behind(
    alloc: Global,
    ranges: &Ranges,
    earlier: &[Known],
    output: u32,
    printing: Printing,
) -> Result<u32, Fault>
    requires { output ≤ output_limit }
    ensures { Gives (λ n. n) result
        (behind ranges.now earlier.now output printing.kind printing.site printing.value) }
{
    match printing.kind {
        Kind::Print => printed(alloc, ranges, earlier, output, printing),
        _ => Ok(output),
    }
}
