//! A text's units as UTF-8 (the Unicode Standard, 3.9). Nothing is read from UTF-8 here.
ghost use Rattle.std.specs.Prelude.{◌≡◌, ◌≤◌, ◌∷◌, length, unwrap_or, IfOk};
ghost use Rattle.std.specs.Char.Utf16.{lone_unit_char};
ghost use Rattle.wy_value.specs.Encoding.{code_points, utf8_of, pair_of};

use std::alloc::{AllocError, Global};

/// The UTF-8 of the text that the units spell. A surrogate that is in no pair gives `?`.
pub fn to_utf8(alloc: Global, units: &[u16]) -> Result<Vec<u8>, AllocError>
    ensures { IfOk result (λ bytes. bytes.items ≡ utf8_of units.now) }
{
    let mut text = String::with_capacity(alloc, units.len())?;
    let mut rest = units;
    while let Some((unit, others)) = rest.split_first() {
        let (c, next) = next_char(*unit, others);
        text.push(c)?;
        rest = next;
    }
    Ok(text.into_bytes())
}

/// The character that begins with `unit`, and the units behind it.
fn next_char(unit: u16, others: &[u16]) -> (char, &[u16])
    ensures first { code_points (unit ∷ others.now) ≡ result.0 ∷ code_points result.1.now }
    ensures shorter { length result.1.now ≤ length others.now }
{
    match others.split_first() {
        Some((low, rest)) => match pair(unit, *low) {
            Some(c) => (c, rest),
            None => (alone(unit), others),
        },
        None => (alone(unit), others),
    }
}

/// The character of a surrogate pair.
fn pair(high: u16, low: u16) -> Option<char>
    ensures { result ≡ pair_of high low }
{
    if !(0xd800..0xdc00).contains(&high) || !(0xdc00..0xe000).contains(&low) {
        return None;
    }
    char::from_u32(0x1_0000 + (u32::from(high) - 0xd800) * 0x400 + (u32::from(low) - 0xdc00))
}

/// The character of a unit that is in no pair.
fn alone(unit: u16) -> char
    ensures { result ≡ unwrap_or (lone_unit_char unit) 63 }
{
    char::from_u32(u32::from(unit)).unwrap_or('?')
}
