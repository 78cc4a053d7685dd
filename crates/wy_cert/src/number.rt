//! Decimal numbers in bytes.

ghost use Rattle.std.specs.Prelude.{◌≡◌, ◌^◌, ◌<◌, ◌≤◌, ◌++◌, ◌↔◌, ℕ, true, List, Some, IfSome, IsTrue, length, take, drop, option_map, slice_index};
ghost use Rattle.std.specs.Fmt.{decimal};
ghost use Rattle.std.specs.Str.{all_ascii_digits};
ghost use Rattle.std.specs.Str.Parse.{digits_value};
ghost use Rattle.wy_cert.specs.Reading.{EndsNumber, seen};

/// A number has no more digits than this.
const MOST_DIGITS: usize = 10;

/// How many digits stand at the front.
fn digits_at(bytes: &[u8]) -> usize
    ensures within { result ≤ length bytes.now }
    ensures digits { all_ascii_digits (take result bytes.now) ≡ true }
    ensures ends { EndsNumber (drop result bytes.now) }
{
    let mut count = 0;
    for byte in bytes {
        if !byte.is_ascii_digit() {
            return count;
        }
        count += 1;
    }
    count
}

/// The value of some digits.
fn value_of(digits: &[u8]) -> u64
    requires digits { all_ascii_digits digits.now ≡ true }
    requires few { length digits.now ≤ 10 }
    ensures { result ≡ digits_value 10 digits.now }
{
    let mut value = 0;
    for digit in digits {
        value = value * 10 + u64::from(*digit - b'0');
    }
    value
}

/// Whether a zero stands in front of other digits.
fn has_leading_zero(digits: &[u8]) -> bool
    requires { 0 < length digits.now }
    ensures { IsTrue result ↔ ((slice_index digits.now 0 ≡ 48) × (1 < length digits.now)) }
{
    digits[0] == b'0' && digits.len() > 1
}

/// The number that some digits write, where none is too many.
fn number_of(digits: &[u8]) -> Option<u32>
    requires { all_ascii_digits digits.now ≡ true }
    ensures found { IfSome result (λ n. (digits.now ≡ decimal n) × (n < 2 ^ 32)) }
    ensures only { (n : ℕ) → n < 2 ^ 32 → digits.now ≡ decimal n → result ≡ Some n }
{
    if digits.is_empty() {
        return None;
    }
    if digits.len() > MOST_DIGITS {
        return None;
    }
    if has_leading_zero(digits) {
        return None;
    }
    let value = value_of(digits);
    if value > u64::from(u32::MAX) {
        return None;
    }
    Some(value as u32)
}

/// The number at the front, and what stands behind it.
pub(crate) fn number_at(bytes: &[u8]) -> Option<(u32, &[u8])>
    ensures found { IfSome result (λ x. (bytes.now ≡ decimal x.0 ++ x.1.now) × (x.0 < 2 ^ 32)) }
    ensures only { (n : ℕ) (rest : List ℕ) → n < 2 ^ 32 → EndsNumber rest
        → bytes.now ≡ decimal n ++ rest → option_map seen result ≡ Some (n, rest) }
{
    let (digits, rest) = bytes.split_at(digits_at(bytes));
    let n = number_of(digits)?;
    Some((n, rest))
}
