//! What the first bytes of a piece begin (JLS 3.5).

ghost use Rattle.std.specs.Prelude.{◌≡◌, ◌==◌};
ghost use Rattle.wy_tree.specs.Bytes.{begins_with, is_digit};
ghost use Rattle.wy_tree.specs.Pieces.{class_of, is_literal_class};
ghost use Rattle.wy_lexer.specs.Reading.{class_seen};

use crate::bytes::is_blank;
use wy_tree::word::{begins_word, is_digit};

/// What a first byte and the one behind it begin.
#[derive(Clone, Copy, Debug, Drop, PartialEq, Eq)]
pub enum Class {
    Blank,
    Name,
    Number,
    LineComment,
    BlockComment,
    Character,
    Quoted,
    Other,
}

fn begins_with_digit(text: &[u8]) -> bool
    ensures { result ≡ begins_with is_digit text.now }
{
    match text.split_first() {
        Some((byte, _)) => is_digit(*byte),
        None => false,
    }
}

fn begins_with(text: &[u8], wanted: u8) -> bool
    ensures { result ≡ begins_with (λ b. b == wanted) text.now }
{
    match text.split_first() {
        Some((byte, _)) => *byte == wanted,
        None => false,
    }
}

/// What `first` begins, with `rest` behind it.
#[tactic(auto, unfolding(wy_tree::specs::Pieces::class_of))]
pub fn class_of(first: u8, rest: &[u8]) -> Class
    ensures { class_seen result ≡ class_of first rest.now }
{
    if is_blank(first) {
        Class::Blank
    } else if begins_word(first) {
        Class::Name
    } else if is_digit(first) || (first == b'.' && begins_with_digit(rest)) {
        Class::Number
    } else if first == b'/' && begins_with(rest, b'/') {
        Class::LineComment
    } else if first == b'/' && begins_with(rest, b'*') {
        Class::BlockComment
    } else if first == b'\'' {
        Class::Character
    } else if first == b'"' {
        Class::Quoted
    } else {
        Class::Other
    }
}

/// Whether a literal is begun.
pub fn is_literal(class: Class) -> bool
    ensures { result ≡ is_literal_class (class_seen class) }
{
    match class {
        Class::Number | Class::Character | Class::Quoted => true,
        _ => false,
    }
}
