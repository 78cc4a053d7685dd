//! Integer literals (JLS 3.10.1). A run of letters, digits, `_`, `$` and `.` is judged whole.

ghost use Rattle.std.specs.Prelude.{◌≡◌, ◌≤◌, ◌<◌, ◌==◌, ◌||◌, ◌^◌, ◌+◌, ◌*◌, nat_le, option_map, if◌then◌else◌, Some, None, length, take, IfSome};
ghost use Rattle.std.specs.Char.{digit_value};
ghost use Rattle.std.specs.List.{list_all};
ghost use Rattle.wy_tree.specs.Bytes.{begins_with, last_of};
ghost use Rattle.wy_tree.specs.Seen.{seen};
ghost use Rattle.wy_tree.specs.Numbers.{is_digit_in, are_digits, value_from, is_long_suffix, is_long, unsuffixed, in_radix, largest, number_of};

use crate::bytes::digit_value;
use wy_tree::token::Token;

/// Digits of a radix, with underscores.
#[derive(Drop)]
struct Numeral<'a> {
    radix: u64,
    digits: &'a [u8],
}

fn is_digit_in(radix: u64, byte: u8) -> bool
    ensures { result ≡ is_digit_in radix byte }
{
    u64::from(digit_value(byte)) < radix
}

fn begins_with_digit(radix: u64, bytes: &[u8]) -> bool
    ensures { result ≡ begins_with (is_digit_in radix) bytes.now }
{
    match bytes.split_first() {
        Some((byte, _)) => is_digit_in(radix, *byte),
        None => false,
    }
}

/// The last byte alone, if there is one.
fn last_of(bytes: &[u8]) -> &[u8]
    ensures { result.now ≡ last_of bytes.now }
{
    let (_, last) = bytes.split_at(bytes.len().saturating_sub(1));
    last
}

fn stand_in_number(radix: u64, bytes: &[u8]) -> bool
    ensures { result ≡ list_all (λ b. is_digit_in radix b || b == 95) bytes.now }
{
    bytes
        .iter()
        .all(|byte| is_digit_in(radix, *byte) || *byte == b'_')
}

#[tactic(auto, unfolding(wy_tree::specs::Numbers::are_digits))]
fn are_digits(radix: u64, bytes: &[u8]) -> bool
    ensures { result ≡ are_digits radix bytes.now }
{
    begins_with_digit(radix, bytes)
        && begins_with_digit(radix, last_of(bytes))
        && stand_in_number(radix, bytes)
}

/// A value with one more digit; an underscore is none.
fn with_digit(radix: u64, value: u128, digit: u8) -> u128
    requires few { radix ≤ 16 }
    requires small { value < 2 ^ 64 }
    ensures { result ≡ (if digit == 95 then value else radix * value + digit_value digit) }
{
    if digit == b'_' {
        value
    } else {
        u128::from(radix) * value + u128::from(digit_value(digit))
    }
}

/// The value of digits, if it is no larger than `largest`.
#[tactic(auto, using(crate::proofs::Numbers::begun, crate::proofs::Numbers::too_large, crate::proofs::Numbers::digit_more, crate::proofs::Numbers::all_read))]
fn value_within(radix: u64, largest: u64, digits: &[u8]) -> Option<u64>
    requires some { 1 ≤ radix }
    requires few { radix ≤ 16 }
    ensures same { result ≡ (if nat_le (value_from radix 0 digits.now) largest
        then Some (value_from radix 0 digits.now) else None) }
    ensures within { IfSome result (λ n. n ≤ largest) }
{
    let mut value: u128 = 0;
    for digit in digits {
        value = with_digit(radix, value, *digit);
        if value > u128::from(largest) {
            return None;
        }
    }
    Some(value as u64)
}

fn is_long_suffix(byte: u8) -> bool
    ensures { result ≡ is_long_suffix byte }
{
    byte == b'L' || byte == b'l'
}

fn is_long(run: &[u8]) -> bool
    ensures { result ≡ is_long run.now }
{
    match last_of(run).split_first() {
        Some((byte, _)) => is_long_suffix(*byte),
        None => false,
    }
}

fn unsuffixed(run: &[u8]) -> &[u8]
    ensures { result.now ≡ unsuffixed run.now }
{
    if is_long(run) {
        let (front, _) = run.split_at(run.len().saturating_sub(1));
        front
    } else {
        run
    }
}

#[tactic(auto, unfolding(wy_tree::specs::Numbers::in_radix))]
fn in_radix(run: &[u8]) -> Numeral<'_>
    ensures same { (result.radix, result.digits.now) ≡ in_radix run.now }
    ensures some { 1 ≤ result.radix }
    ensures few { result.radix ≤ 16 }
{
    let decimal = Numeral {
        radix: 10,
        digits: run,
    };
    let Some((first, rest)) = run.split_first() else {
        return decimal;
    };
    let Some((second, digits)) = rest.split_first() else {
        return decimal;
    };
    if *first != b'0' {
        return decimal;
    }
    match second {
        b'x' | b'X' => Numeral { radix: 16, digits },
        b'b' | b'B' => Numeral { radix: 2, digits },
        _ => Numeral {
            radix: 8,
            digits: run,
        },
    }
}

fn largest(wide: bool, decimal: bool) -> u64
    ensures { result ≡ largest wide decimal }
{
    match (wide, decimal) {
        (true, true) => 1 << 63,
        (true, false) => u64::MAX,
        (false, true) => 1 << 31,
        (false, false) => 0xffff_ffff,
    }
}

/// The integer literal that a whole run is, if it is one.
#[tactic(auto, unfolding(wy_tree::specs::Numbers::number_of))]
pub fn number_of(run: &[u8]) -> Option<Token>
    ensures { option_map seen result ≡ number_of run.now }
{
    let wide = is_long(run);
    let Numeral { radix, digits } = in_radix(unsuffixed(run));
    if !are_digits(radix, digits) {
        return None;
    }
    let decimal = radix == 10;
    let value = value_within(radix, largest(wide, decimal), digits)?;
    if wide {
        Some(Token::Long { value, decimal })
    } else {
        Some(Token::Int {
            value: value as u32,
            decimal,
        })
    }
}
