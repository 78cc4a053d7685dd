//! The parts of a question's word: what stands before a sign and behind it, a moment, a holder, a field's class and name.

ghost use Rattle.std.specs.Prelude.{◌≡◌, ◌<◌, IfOk, option_map, string_bytes};
ghost use Rattle.wy_ask.specs.Reading.{at_moment, behind, class_word, cut, field_seen, named_as, named_in, numbered_in, parts, placed, within};

use crate::names::{is_name, number};
use std::alloc::{AllocError, Global};

/// What stands behind the front of a text, if it begins so.
pub fn behind<'a>(text: &'a str, front: &str) -> Option<&'a str>
    ensures { option_map (λ rest. rest.now) result ≡ behind front.now text.now }
{
    text.strip_prefix(front)
}

/// What stands before the first sign of this kind and behind it.
pub fn cut(text: &str, sign: char) -> Option<(&str, &str)>
    requires { sign < 128 }
    ensures { option_map parts result ≡ cut sign text.now }
{
    text.split_once(sign)
}

/// The package of the library's classes, with the sign behind it.
pub const LIBRARY: &str = "java.lang.";

/// A field by the words of its class and its name; a class of the library without its package.
#[derive(Clone, Copy, Drop)]
pub struct FieldWord<'a> {
    pub of_library: bool,
    pub class: &'a str,
    pub name: &'a str,
}

/// A place, and the moment behind its `@`.
pub fn at_moment(text: &str) -> Option<(&str, u32)>
    ensures { option_map placed result ≡ at_moment text.now }
{
    let (place, moment) = cut(text, '@')?;
    let moment = number(moment)?;
    Some((place, moment))
}

/// The number of a frame, an object or an array, and the part behind its `:`.
pub fn within(place: &str) -> Option<(u32, &str)>
    ensures { option_map (λ x. (x.0, x.1.now)) result ≡ within place.now }
{
    let (holder, part) = cut(place, ':')?;
    let holder = number(holder)?;
    Some((holder, part))
}

/// A holder, an index in it, and a moment.
pub fn indexed_place(text: &str) -> Option<(u32, u32, u32)>
    ensures { result ≡ numbered_in text.now }
{
    let (place, moment) = at_moment(text)?;
    let (holder, part) = within(place)?;
    let index = number(part)?;
    Some((holder, index, moment))
}

/// The words of a class and a field, with `.` between them.
pub fn field_word(text: &str) -> Option<FieldWord<'_>>
    ensures { option_map field_seen result ≡ named_in text.now }
{
    match behind(text, LIBRARY) {
        Some(rest) => field_word_of(true, rest),
        None => field_word_of(false, text),
    }
}

fn field_word_of(of_library: bool, text: &str) -> Option<FieldWord<'_>>
    ensures { option_map field_seen result ≡ named_as of_library (cut 46 text.now) }
{
    let (class, name) = cut(text, '.')?;
    if is_name(class) && is_name(name) {
        Some(FieldWord {
            of_library,
            class,
            name,
        })
    } else {
        None
    }
}

/// A class as it is written.
pub fn class_word(alloc: Global, of_library: bool, class: &str) -> Result<String, AllocError>
    ensures { IfOk result (λ word. string_bytes word ≡ class_word of_library class.now) }
{
    let mut word = String::new(alloc);
    if of_library {
        word.push_str(LIBRARY)?;
    }
    word.push_str(class)?;
    Ok(word)
}
