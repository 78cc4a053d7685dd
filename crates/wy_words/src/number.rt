//! The number that a word writes.
ghost use Rattle.std.specs.Prelude.{◌≡◌};
ghost use Rattle.std.specs.Str.{all_ascii_digits};
ghost use Rattle.wy_words.specs.Words.{event_number, number_up_to};

/// The digits that a number may have.
const MOST_DIGITS: usize = 8;

/// The digits that the number of an event may have.
const MOST_EVENT_DIGITS: usize = 10;

/// The number, where the word is one from 1 to `most`.
pub fn number(word: &str, most: u32) -> Option<u32>
    ensures { result ≡ number_up_to most word.now }
{
    if word.len() > MOST_DIGITS || !is_all_digits(word.as_bytes()) {
        return None;
    }
    match word.parse::<u32>() {
        Ok(value) if value >= 1 && value <= most => Some(value),
        _ => None,
    }
}

/// The number of an event, where the word is one.
pub fn event_number(word: &str) -> Option<u32>
    ensures { result ≡ event_number word.now }
{
    if word.len() > MOST_EVENT_DIGITS || !is_all_digits(word.as_bytes()) {
        return None;
    }
    match word.parse::<u32>() {
        Ok(number) => Some(number),
        Err(_) => None,
    }
}

fn is_all_digits(word: &[u8]) -> bool
    ensures { result ≡ all_ascii_digits word.now }
{
    for byte in word {
        if !byte.is_ascii_digit() {
            return false;
        }
    }
    true
}
