//! Numbers as decimal texts: `Integer.parseInt`, and string conversion of primitive values and null (JLS 5.1.11, 15.18.1).
ghost use Rattle.std.specs.Prelude.{◌≡◌, ◌↔◌, None, IsTrue, IsErr, IfOk};
ghost use Rattle.std.specs.Fmt.{signed_decimal};
ghost use Rattle.std.specs.Result.{result_ok};
ghost use Rattle.wy_value.specs.Numeral.{int_of, magnitude_of, has_text, text_of};

use crate::value::Value;
use itoa::Buffer;
use std::alloc::{AllocError, Global};

/// The text spells no int.
#[derive(Clone, Copy, Debug, PartialEq, Eq)]
pub struct BadNumber;

const PLUS: u16 = 0x2b;

const MINUS: u16 = 0x2d;

const ZERO: u16 = 0x30;

const NINE: u16 = 0x39;

/// The size of the least int.
const MAX_MAGNITUDE: u32 = 0x8000_0000;

/// The int that the units spell in decimal. No digits but the ASCII ones are read.
pub fn parse_int(units: &[u16]) -> Result<i32, BadNumber>
    ensures number { result_ok result ≡ int_of units.now }
    ensures bad_number { IsErr result ↔ (int_of units.now ≡ None) }
{
    let (is_negative, digits) = match units {
        [MINUS, digits @ ..] => (true, digits),
        [PLUS, digits @ ..] => (false, digits),
        _ => (false, units),
    };
    let magnitude = magnitude(digits)?;
    if is_negative {
        Ok(magnitude.cast_signed().wrapping_neg())
    } else if magnitude < MAX_MAGNITUDE {
        Ok(magnitude.cast_signed())
    } else {
        Err(BadNumber)
    }
}

/// The number that digits spell, up to the size of the least int.
fn magnitude(digits: &[u16]) -> Result<u32, BadNumber>
    ensures { result_ok result ≡ magnitude_of digits.now }
{
    if digits.is_empty() {
        return Err(BadNumber);
    }
    let mut value: u32 = 0;
    for digit in digits {
        if !(ZERO..=NINE).contains(digit) {
            return Err(BadNumber);
        }
        let more = u64::from(value) * 10 + u64::from(*digit - ZERO);
        if more > u64::from(MAX_MAGNITUDE) {
            return Err(BadNumber);
        }
        value = more as u32;
    }
    Ok(value)
}

/// String conversion of a primitive value or null.
pub fn digits(alloc: Global, value: Value) -> Result<Vec<u16>, AllocError>
    requires { IsTrue (has_text value) }
    ensures { IfOk result (λ text. text.items ≡ text_of value) }
{
    match value {
        Value::Bool(true) => ascii(alloc, "true"),
        Value::Bool(false) => ascii(alloc, "false"),
        Value::Byte(n) => decimal(alloc, i64::from(n)),
        Value::Short(n) => decimal(alloc, i64::from(n)),
        Value::Char(unit) => Vec::from_slice(alloc, &[unit]),
        Value::Int(n) => decimal(alloc, i64::from(n)),
        Value::Long(n) => decimal(alloc, n),
        Value::Null => ascii(alloc, "null"),
        _ => unreachable!(),
    }
}

fn decimal(alloc: Global, n: i64) -> Result<Vec<u16>, AllocError>
    ensures { IfOk result (λ text. text.items ≡ signed_decimal n) }
{
    let mut buffer = Buffer::new();
    ascii(alloc, buffer.format(n))
}

/// The units of an ASCII text.
fn ascii(alloc: Global, text: &str) -> Result<Vec<u16>, AllocError>
    ensures { IfOk result (λ units. units.items ≡ text.now) }
{
    text.bytes().map(u16::from).collect(alloc)
}
