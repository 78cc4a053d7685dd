//! Which bytes are which (JLS 3.4, 3.6, 3.8), and runs of them.

ghost use Rattle.std.specs.Prelude.{◌≡◌, ◌≤◌, ◌==◌, not, length};
ghost use Rattle.std.specs.Char.{digit_value};
ghost use Rattle.std.specs.List.{prefix_len};
ghost use Rattle.wy_tree.specs.Bytes.{is_line_end, is_blank, goes_on_number, goes_on_word, is_octal_digit, line_ends};

use wy_tree::word::goes_on_word;

pub fn is_line_end(byte: u8) -> bool
    ensures { result ≡ is_line_end byte }
{
    byte == b'\n' || byte == b'\r'
}

pub fn is_blank(byte: u8) -> bool
    ensures { result ≡ is_blank byte }
{
    byte == b' ' || byte == b'\t' || byte == 12 || is_line_end(byte)
}

pub fn is_octal_digit(byte: u8) -> bool
    ensures { result ≡ is_octal_digit byte }
{
    byte >= b'0' && byte <= b'7'
}

pub fn goes_on_number(byte: u8) -> bool
    ensures { result ≡ goes_on_number byte }
{
    goes_on_word(byte) || byte == b'.'
}

/// The value of a digit or a letter as a digit, from 0 to 35; 36 for any other byte.
pub fn digit_value(byte: u8) -> u8
    ensures same { result ≡ digit_value byte }
    ensures small { result ≤ 36 }
{
    if byte < b'0' {
        36
    } else if byte <= b'9' {
        byte - b'0'
    } else if byte < b'A' {
        36
    } else if byte <= b'Z' {
        byte - 55
    } else if byte < b'a' {
        36
    } else if byte <= b'z' {
        byte - 87
    } else {
        36
    }
}

/// How many bytes at the front go on a word.
pub fn word_length(text: &[u8]) -> usize
    ensures same { result ≡ prefix_len goes_on_word text.now }
    ensures within { result ≤ length text.now }
{
    for (i, byte) in text.iter().enumerate() {
        if !goes_on_word(*byte) {
            return i;
        }
    }
    text.len()
}

/// How many bytes at the front go on a number, whether it is right or not.
pub fn number_length(text: &[u8]) -> usize
    ensures same { result ≡ prefix_len goes_on_number text.now }
    ensures within { result ≤ length text.now }
{
    for (i, byte) in text.iter().enumerate() {
        if !goes_on_number(*byte) {
            return i;
        }
    }
    text.len()
}

/// How many bytes at the front are on the first line.
pub fn line_length(text: &[u8]) -> usize
    ensures same { result ≡ prefix_len (λ b. not (is_line_end b)) text.now }
    ensures within { result ≤ length text.now }
{
    for (i, byte) in text.iter().enumerate() {
        if is_line_end(*byte) {
            return i;
        }
    }
    text.len()
}

/// How many bytes at the front are `u`.
pub fn markers(text: &[u8]) -> usize
    ensures same { result ≡ prefix_len (λ b. b == 117) text.now }
    ensures within { result ≤ length text.now }
{
    for (i, byte) in text.iter().enumerate() {
        if *byte != b'u' {
            return i;
        }
    }
    text.len()
}

/// How many lines end in the text. CR LF ends one.
#[tactic(auto, unfolding(wy_tree::specs::Bytes::line_ends))]
pub fn line_ends(text: &[u8]) -> usize
    ensures same { result ≡ line_ends text.now }
    ensures within { result ≤ length text.now }
{
    let mut lines = 0;
    let mut before = 0;
    for byte in text {
        if *byte == b'\r' || (*byte == b'\n' && before != b'\r') {
            lines += 1;
        }
        before = *byte;
    }
    lines
}
