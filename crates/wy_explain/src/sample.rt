//! What begins at a byte at which no token does, by a sample of its kind.
ghost use Rattle.std.specs.Prelude.{◌≡◌, ◌≤◌, length, slice_index};
ghost use Rattle.std.specs.List.{before_first, list_any, position_or_len};
ghost use Rattle.wy_explain.specs.Samples.{ends_number, is_fraction, is_large_digit, is_odd, is_quoted};
ghost use Rattle.wy_explain.specs.Samples.{number_sample, sample, wide_sample};

use wy_tree::word::{goes_on_word, is_digit};

/// What begins the rest of a text behind its front, where no token does.
#[tactic(auto, unfolding(crate::specs::Samples::sample))]
pub fn sample(front: &[u8], rest: &[u8]) -> &'static str
    ensures { result.now ≡ sample front.now rest.now }
{
    match byte_at(rest, 0) {
        b'"' if is_quoted(front) => "\"\"\"",
        b'"' => "\"",
        b'\'' if byte_at(rest, 1) == b'\'' => "''",
        b'\'' => "'",
        b'/' => "/*",
        b'#' => "#",
        first if first >= 128 => wide_sample(front, rest),
        first if is_digit(first) || first == b'.' => number_sample(number_run(rest)),
        _ => "",
    }
}

/// The byte of this number, and 0 behind the last.
fn byte_at(text: &[u8], at: usize) -> u8
    ensures { result ≡ slice_index text.now at }
{
    match text.get(at) {
        Some(byte) => *byte,
        None => 0,
    }
}

/// Whether two quotation marks end the front.
fn is_quoted(front: &[u8]) -> bool
    ensures { result ≡ is_quoted front.now }
{
    let end = front.len();
    byte_at(front, end.saturating_sub(1)) == b'"' && byte_at(front, end.saturating_sub(2)) == b'"'
}

#[tactic(auto, unfolding(crate::specs::Samples::wide_sample))]
fn wide_sample(front: &[u8], rest: &[u8]) -> &'static str
    ensures { result.now ≡ wide_sample front.now rest.now }
{
    let third = byte_at(rest, 2);
    match (byte_at(rest, 0), byte_at(rest, 1)) {
        (239, 187) if front.is_empty() && third == 191 => "mark",
        (226, 128) if third >= 152 && third <= 159 => "quotes",
        _ => "letter",
    }
}

/// The letters, digits, `_`, `$` and `.` in front.
fn number_run(rest: &[u8]) -> &[u8]
    ensures { result.now ≡ before_first ends_number rest.entry.now }
{
    &rest[..run_length(rest)]
}

fn run_length(rest: &[u8]) -> usize
    ensures same { result ≡ position_or_len ends_number rest.now }
    ensures within { result ≤ length rest.now }
{
    for (i, byte) in rest.iter().enumerate() {
        if ends_number(*byte) {
            return i;
        }
    }
    rest.len()
}

fn ends_number(byte: u8) -> bool
    ensures { result ≡ ends_number byte }
{
    !goes_on_word(byte) && byte != b'.'
}

#[tactic(auto, unfolding(crate::specs::Samples::number_sample))]
fn number_sample(run: &[u8]) -> &'static str
    ensures { result.now ≡ number_sample run.now }
{
    let second = byte_at(run, 1);
    if byte_at(run, 0) == b'0' && (second == b'x' || second == b'X') {
        "0x"
    } else if has_fraction(run) {
        "1.5"
    } else if has_odd(run) || byte_at(run, run.len().saturating_sub(1)) == b'_' {
        "3px"
    } else if byte_at(run, 0) == b'0' && has_large_digit(run) {
        "08"
    } else {
        "99999999999"
    }
}

fn has_fraction(run: &[u8]) -> bool
    ensures { result ≡ list_any is_fraction run.now }
{
    run.iter().any(|byte| is_fraction(*byte))
}

fn has_odd(run: &[u8]) -> bool
    ensures { result ≡ list_any is_odd run.now }
{
    run.iter().any(|byte| is_odd(*byte))
}

fn has_large_digit(run: &[u8]) -> bool
    ensures { result ≡ list_any is_large_digit run.now }
{
    run.iter().any(|byte| is_large_digit(*byte))
}

/// Whether a byte tells a number with a fraction, an exponent, or the end of a float or double.
fn is_fraction(byte: u8) -> bool
    ensures { result ≡ is_fraction byte }
{
    byte == b'.' || (byte >= b'd' && byte <= b'f') || (byte >= b'D' && byte <= b'F')
}

/// Whether a byte stands in no whole number in decimal.
fn is_odd(byte: u8) -> bool
    ensures { result ≡ is_odd byte }
{
    !is_digit(byte) && byte != b'_' && byte != b'L' && byte != b'l'
}

fn is_large_digit(byte: u8) -> bool
    ensures { result ≡ is_large_digit byte }
{
    byte >= b'8' && byte <= b'9'
}
