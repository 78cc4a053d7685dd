//! Numbers and names in the words of questions (JLS 3.8, 3.9).

ghost use Rattle.std.specs.Prelude.{◌≡◌};
ghost use Rattle.std.specs.List.{list_all};
ghost use Rattle.wy_tree.specs.Bytes.{begins_with, begins_word, goes_on_word, is_digit};
ghost use Rattle.wy_ask.specs.Words.{is_name, number_of};

use wy_tree::word::{begins_word, goes_on_word, is_digit, is_key};

fn begins_as_name(bytes: &[u8]) -> bool
    ensures { result ≡ begins_with begins_word bytes.now }
{
    match bytes.split_first() {
        Some((first, _)) => begins_word(*first),
        None => false,
    }
}

fn goes_on_as_name(bytes: &[u8]) -> bool
    ensures { result ≡ list_all goes_on_word bytes.now }
{
    bytes.iter().all(|byte| goes_on_word(*byte))
}

/// Whether a word is a name.
#[tactic(auto, unfolding(crate::specs::Words::is_name))]
pub fn is_name(word: &str) -> bool
    ensures { result ≡ is_name word.now }
{
    let bytes = word.as_bytes();
    begins_as_name(bytes) && goes_on_as_name(bytes) && !is_key(bytes)
}

fn are_digits(bytes: &[u8]) -> bool
    ensures { result ≡ list_all is_digit bytes.now }
{
    bytes.iter().all(|byte| is_digit(*byte))
}

/// A number has no more digits than this.
const MOST_DIGITS: usize = 10;

/// The number that a word of 1 to 10 digits is, if 32 bits hold it.
pub fn number(word: &str) -> Option<u32>
    ensures { result ≡ number_of word.now }
{
    if word.len() <= MOST_DIGITS && are_digits(word.as_bytes()) {
        word.parse::<u32>().ok()
    } else {
        None
    }
}
