//! Character and string literals (JLS 3.3, 3.10.4, 3.10.5, 3.10.6), each read behind its opening quote.

ghost use Rattle.std.specs.Prelude.{ℕ, ◌≡◌, ◌≤◌, ◌<◌, ◌+◌, ◌-◌, ◌*◌, ◌∷◌, [], ◌++◌, None, option_map, length, IfSome, IfOk, take};
ghost use Rattle.std.specs.Str.{continuation_len, lead_bits};
ghost use Rattle.wy_tree.specs.Numbers.{is_digit_in};
ghost use Rattle.wy_tree.specs.Literals.{simple_escape, octal_digit, octal_escape, are_hexadecimal, is_special, four_digits, unicode_escape, escape, continued, first_char, units, element, text_from, text_literal, char_literal};
ghost use Rattle.wy_lexer.specs.Reading.{units_seen};

use crate::bytes::{digit_value, is_line_end, is_octal_digit, markers};
use std::alloc::{AllocError, Global};

/// The units of one character or escape.
#[derive(Clone, Copy, Drop)]
enum Units {
    One(u16),
    Two(u16, u16),
}

#[tactic(auto, unfolding(wy_tree::specs::Literals::simple_escape))]
fn simple_escape(byte: u8) -> Option<u16>
    ensures { result ≡ simple_escape byte }
{
    match byte {
        b'b' => Some(8),
        b't' => Some(9),
        b'n' => Some(10),
        b'f' => Some(12),
        b'r' => Some(13),
        b'"' | b'\'' | b'\\' => Some(u16::from(byte)),
        _ => None,
    }
}

/// A number with one more octal digit, if one follows.
#[tactic(auto, unfolding(wy_tree::specs::Literals::octal_digit))]
fn octal_digit(value: u16, text: &[u8]) -> Option<(u16, &[u8])>
    requires { value < 64 }
    ensures same { option_map (λ x. (x.0, x.1.now)) result ≡ octal_digit value text.now }
    ensures small { IfSome result (λ x. x.0 ≤ 8 * value + 7) }
    ensures shorter { IfSome result (λ x. length x.1.now ≤ length text.now) }
{
    let (digit, rest) = text.split_first()?;
    if !is_octal_digit(*digit) {
        return None;
    }
    Some((8 * value + u16::from(*digit - b'0'), rest))
}

/// The longest octal escape from its first digit on.
#[tactic(auto, unfolding(wy_tree::specs::Literals::octal_escape))]
fn octal_escape(first: u8, text: &[u8]) -> (u16, &[u8])
    requires low { 48 ≤ first }
    requires high { first ≤ 55 }
    ensures same { (result.0, result.1.now) ≡ octal_escape first text.now }
    ensures shorter { length result.1.now ≤ length text.now }
{
    let value = u16::from(first - b'0');
    let Some((value, rest)) = octal_digit(value, text) else {
        return (value, text);
    };
    if first > b'3' {
        return (value, rest);
    }
    match octal_digit(value, rest) {
        Some((longer, behind)) => (longer, behind),
        None => (value, rest),
    }
}

fn is_hexadecimal(byte: u8) -> bool
    ensures { result ≡ is_digit_in 16 byte }
{
    digit_value(byte) < 16
}

fn are_hexadecimal(a: u8, b: u8, c: u8, d: u8) -> bool
    ensures { result ≡ are_hexadecimal a b c d }
{
    is_hexadecimal(a) && is_hexadecimal(b) && is_hexadecimal(c) && is_hexadecimal(d)
}

fn is_special(unit: u16) -> bool
    ensures { result ≡ is_special unit }
{
    unit == 34 || unit == 39 || unit == 92 || unit == 10 || unit == 13
}

/// The unit of four hexadecimal digits that denote no quote, backslash or line end.
#[tactic(auto, unfolding(wy_tree::specs::Literals::four_digits))]
fn four_digits(text: &[u8]) -> Option<(u16, &[u8])>
    ensures same { option_map (λ x. (x.0, x.1.now)) result ≡ four_digits text.now }
    ensures shorter { IfSome result (λ x. length x.1.now ≤ length text.now) }
{
    let (a, text) = text.split_first()?;
    let (b, text) = text.split_first()?;
    let (c, text) = text.split_first()?;
    let (d, text) = text.split_first()?;
    if !are_hexadecimal(*a, *b, *c, *d) {
        return None;
    }
    let unit = 16
        * (16 * (16 * u16::from(digit_value(*a)) + u16::from(digit_value(*b)))
            + u16::from(digit_value(*c)))
        + u16::from(digit_value(*d));
    if is_special(unit) {
        return None;
    }
    Some((unit, text))
}

/// A Unicode escape from behind its first `u`.
#[tactic(auto, unfolding(wy_tree::specs::Literals::unicode_escape))]
fn unicode_escape(text: &[u8]) -> Option<(u16, &[u8])>
    ensures same { option_map (λ x. (x.0, x.1.now)) result ≡ unicode_escape text.now }
    ensures shorter { IfSome result (λ x. length x.1.now ≤ length text.now) }
{
    let (_, digits) = text.split_at(markers(text));
    four_digits(digits)
}

/// An escape from behind its backslash.
#[tactic(auto, unfolding(wy_tree::specs::Literals::escape))]
fn escape(text: &[u8]) -> Option<(u16, &[u8])>
    ensures same { option_map (λ x. (x.0, x.1.now)) result ≡ escape text.now }
    ensures shorter { IfSome result (λ x. length x.1.now ≤ length text.now) }
{
    let (first, rest) = text.split_first()?;
    if let Some(unit) = simple_escape(*first) {
        return Some((unit, rest));
    }
    if is_octal_digit(*first) {
        Some(octal_escape(*first, rest))
    } else if *first == b'u' {
        unicode_escape(rest)
    } else {
        None
    }
}

/// A character's number with one more byte of it, if there is one.
fn with_byte(number: u32, text: &[u8]) -> Option<(u32, &[u8])>
    requires { number < 524288 }
    ensures none { result ≡ None → text.now ≡ [] }
    ensures some { IfSome result (λ x. (b : ℕ) × (text.now ≡ b ∷ x.1.now)
        × (x.0 ≡ number * 64 + (b - 128)) × (x.0 < number * 64 + 128)) }
{
    let (byte, rest) = text.split_first()?;
    Some((number * 64 + u32::from(byte.saturating_sub(128)), rest))
}

/// The first character of a text in UTF-8, whose first byte is `first`.
#[tactic(auto, unfolding(wy_tree::specs::Literals::first_char))]
fn first_char(first: u8, text: &[u8]) -> Option<(u32, &[u8])>
    ensures same { option_map (λ x. (x.0, x.1.now)) result ≡ first_char first text.now }
    ensures small { IfSome result (λ x. x.0 < 8388608) }
    ensures shorter { IfSome result (λ x. length x.1.now ≤ length text.now) }
{
    if first < 128 {
        return Some((u32::from(first), text));
    }
    if first < 224 {
        return with_byte(u32::from(first.saturating_sub(192)), text);
    }
    if first < 240 {
        let (number, text) = with_byte(u32::from(first - 224), text)?;
        return with_byte(number, text);
    }
    let (number, text) = with_byte(u32::from(first - 240), text)?;
    let (number, text) = with_byte(number, text)?;
    with_byte(number, text)
}

/// A character as units: two if it is past the basic plane.
#[tactic(auto, unfolding(wy_tree::specs::Literals::units))]
fn units_of(c: u32) -> Units
    requires { c < 8388608 }
    ensures { units_seen result ≡ units c }
{
    if c < 0x1_0000 {
        return Units::One(c as u16);
    }
    let offset = c - 0x1_0000;
    Units::Two(
        (0xd800 + offset / 0x400) as u16,
        (0xdc00 + offset % 0x400) as u16,
    )
}

/// An escape, or a character that is no backslash and no line end.
#[tactic(auto, unfolding(wy_tree::specs::Literals::element))]
fn element(first: u8, text: &[u8]) -> Option<(Units, &[u8])>
    ensures same { option_map (λ x. (units_seen x.0, x.1.now)) result ≡ element first text.now }
    ensures shorter { IfSome result (λ x. length x.1.now ≤ length text.now) }
{
    if first == b'\\' {
        let (unit, rest) = escape(text)?;
        return Some((Units::One(unit), rest));
    }
    if is_line_end(first) {
        return None;
    }
    let (c, rest) = first_char(first, text)?;
    Some((units_of(c), rest))
}

fn push(text: &mut Vec<u16>, found: Units) -> Result<(), AllocError>
    ensures { IfOk result (λ _. text.new.items ≡ text.old.items ++ units_seen found) }
{
    match found {
        Units::One(unit) => text.push(unit)?,
        Units::Two(high, low) => {
            text.push(high)?;
            text.push(low)?;
        }
    }
    Ok(())
}

/// A string literal's units, and what is behind its closing quote; nothing if it has a fault.
pub fn text_literal(alloc: Global, text: &[u8]) -> Result<Option<(Vec<u16>, &[u8])>, AllocError>
    ensures same { IfOk result (λ o.
        option_map (λ x. (x.0.items, x.1.now)) o ≡ text_literal text.now) }
    ensures shorter { IfOk result (λ o. IfSome o (λ x. length x.1.now < length text.now)) }
{
    let mut found = Vec::new(alloc);
    let mut rest = text;
    for _ in 0..text.len() {
        let Some((first, behind)) = rest.split_first() else {
            return Ok(None);
        };
        if *first == b'"' {
            return Ok(Some((found, behind)));
        }
        let Some((units, next)) = element(*first, behind) else {
            return Ok(None);
        };
        push(&mut found, units)?;
        rest = next;
    }
    Ok(None)
}

/// A character literal's unit, and what is behind its closing quote; nothing if it has a fault.
#[tactic(auto, unfolding(wy_tree::specs::Literals::char_literal))]
pub fn char_literal(text: &[u8]) -> Option<(u16, &[u8])>
    ensures same { option_map (λ x. (x.0, x.1.now)) result ≡ char_literal text.now }
    ensures shorter { IfSome result (λ x. length x.1.now < length text.now) }
{
    let (first, rest) = text.split_first()?;
    if *first == b'\'' {
        return None;
    }
    let (Units::One(unit), rest) = element(*first, rest)? else {
        return None;
    };
    let (quote, behind) = rest.split_first()?;
    if *quote != b'\'' {
        return None;
    }
    Some((unit, behind))
}
