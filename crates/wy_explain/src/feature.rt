//! Which feature stands at a refusal, by the tables.
ghost use Rattle.std.specs.Prelude.{◌≡◌, map, option_map};
ghost use Rattle.std.specs.List.{list_any};
ghost use Rattle.std.specs.Str.{bytes_eq};
ghost use Rattle.wy_explain.specs.Explained.{feature_at_byte, feature_at_token, member_at};
ghost use Rattle.wy_explain.specs.Rows.{asks, asks_for_some, begin_so, feature_in, form_in, is_seen};
ghost use Rattle.wy_explain.specs.Rows.{says_in, stand_so, stands_for};
ghost use Rattle.wy_explain.specs.Tables.{bytes, calls, forms, names, sayings, words};
ghost use Rattle.wy_explain.specs.Views.{feature_of, form_of, row_of, saying_of, window_of, words_of};

use crate::sample::sample;
use crate::table::{BYTES, CALLS, FORMS, Feature, Form, NAMES, Row, SAYINGS, Saying, WORDS};
use crate::window::Window;

/// What the rule says.
pub fn says(rule: &str) -> &'static str
    ensures { result.now ≡ says_in sayings rule.now }
{
    says_in(sayings(), rule)
}

/// The feature at a byte at which no token begins.
#[tactic(auto, unfolding(crate::specs::Explained::feature_at_byte))]
pub fn feature_at_byte(rule: &str, front: &[u8], rest: &[u8]) -> Option<Feature>
    ensures { option_map feature_of result ≡ feature_at_byte rule.now front.now rest.now }
{
    if rule == "NotUtf8" {
        None
    } else {
        feature_in(bytes(), sample(front, rest).as_bytes())
    }
}

/// The feature at a token.
#[tactic(auto, unfolding(crate::specs::Explained::feature_at_token))]
pub fn feature_at_token(rule: &str, window: &Window<'_>) -> Option<Feature>
    ensures { option_map feature_of result ≡ feature_at_token rule.now (window_of window.now) }
{
    if rule == "Syntax" {
        form_in(forms(), window).or(feature_in(words(), window.here))
    } else if rule == "UnknownName" {
        feature_in(names(), window.here)
    } else if rule == "NotOffered" {
        feature_in(calls(), member_at(window))
    } else {
        None
    }
}

/// The name of the member that is refused: a method's stands before its parenthesis.
fn member_at<'a>(window: &Window<'a>) -> &'a [u8]
    ensures { result.now ≡ member_at (window_of window.now) }
{
    if window.here == b"(".as_slice() {
        window.last
    } else {
        window.here
    }
}

// ---- the tables

#[tactic(auto, unfolding(crate::specs::Tables::sayings))]
fn sayings() -> &'static [Saying]
    ensures { map saying_of result.now ≡ sayings }
{
    SAYINGS.as_slice()
}

#[tactic(auto, unfolding(crate::specs::Tables::words))]
fn words() -> &'static [Row]
    ensures { map row_of result.now ≡ words }
{
    WORDS.as_slice()
}

#[tactic(auto, unfolding(crate::specs::Tables::names))]
fn names() -> &'static [Row]
    ensures { map row_of result.now ≡ names }
{
    NAMES.as_slice()
}

#[tactic(auto, unfolding(crate::specs::Tables::calls))]
fn calls() -> &'static [Row]
    ensures { map row_of result.now ≡ calls }
{
    CALLS.as_slice()
}

#[tactic(auto, unfolding(crate::specs::Tables::bytes))]
fn bytes() -> &'static [Row]
    ensures { map row_of result.now ≡ bytes }
{
    BYTES.as_slice()
}

#[tactic(auto, unfolding(crate::specs::Tables::forms))]
fn forms() -> &'static [Form]
    ensures { map form_of result.now ≡ forms }
{
    FORMS.as_slice()
}

// ---- which row fits

fn says_in(sayings: &'static [Saying], rule: &str) -> &'static str
    ensures { result.now ≡ says_in (map saying_of sayings.entry.now) rule.now }
{
    for saying in sayings {
        if saying.rule == rule {
            return saying.says;
        }
    }
    ""
}

fn feature_in(rows: &[Row], word: &[u8]) -> Option<Feature>
    ensures { option_map feature_of result ≡ feature_in (map row_of rows.now) word.now }
{
    for row in rows {
        if has_word(row.words, word) {
            return Some(row.feature);
        }
    }
    None
}

fn has_word(words: &[&str], word: &[u8]) -> bool
    ensures { result ≡ list_any (λ w. bytes_eq w word.now) (words_of words.now) }
{
    for candidate in words {
        if candidate.as_bytes() == word {
            return true;
        }
    }
    false
}

fn form_in(forms: &[Form], window: &Window<'_>) -> Option<Feature>
    ensures { option_map feature_of result
        ≡ form_in (map form_of forms.now) (window_of window.now) }
{
    for form in forms {
        if is_seen(form, window) {
            return Some(form.feature);
        }
    }
    None
}

fn is_seen(form: &Form, window: &Window<'_>) -> bool
    ensures { result ≡ is_seen (form_of form.now) (window_of window.now) }
{
    asks(form.here, window.here)
        && asks(form.before, window.last)
        && stand_so(window.before.as_slice(), form.within)
        && asks_for_some(form.ahead, window.ahead.as_slice())
}

/// Whether one of the signs stands for the word, or there is no sign.
fn asks(signs: &[&str], word: &[u8]) -> bool
    ensures { result ≡ asks (words_of signs.now) word.now }
{
    if signs.is_empty() {
        return true;
    }
    for sign in signs {
        if stands_for(sign, word) {
            return true;
        }
    }
    false
}

/// Whether one of the signs stands for one of the words, or there is no sign.
fn asks_for_some(signs: &[&str], words: &[&[u8]]) -> bool
    ensures { result ≡ asks_for_some (words_of signs.now) (words_of words.now) }
{
    if signs.is_empty() {
        return true;
    }
    for word in words {
        if asks(signs, word) {
            return true;
        }
    }
    false
}

/// Whether the signs stand one after another for words somewhere among these.
fn stand_so(words: &[&[u8]], signs: &[&str]) -> bool
    ensures { result ≡ stand_so (words_of words.now) (words_of signs.now) }
{
    for k in 0..words.len() {
        let (_, rest) = words.split_at(k);
        if begin_so(rest, signs) {
            return true;
        }
    }
    begin_so(&[], signs)
}

/// Whether the signs stand for the first words.
fn begin_so(words: &[&[u8]], signs: &[&str]) -> bool
    ensures { result ≡ begin_so (words_of words.now) (words_of signs.now) }
{
    for (k, sign) in signs.iter().enumerate() {
        if k >= words.len() {
            return false;
        }
        if !stands_for(sign, words[k]) {
            return false;
        }
    }
    true
}

/// Whether a sign of the tables stands for the word.
#[tactic(auto, unfolding(crate::specs::Rows::stands_for))]
fn stands_for(sign: &str, word: &[u8]) -> bool
    ensures { result ≡ stands_for sign.now word.now }
{
    let first = match word.first() {
        Some(first) => *first,
        None => return sign.is_empty(),
    };
    sign.as_bytes() == word
        || (sign == "Name" && first >= b'A' && first <= b'Z')
        || (sign == "name" && first >= b'a' && first <= b'z')
        || (sign == "\"" && first == b'"')
}
