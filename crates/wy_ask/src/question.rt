//! Questions, and the words that ask them.

ghost use Rattle.std.specs.Prelude.{◌≡◌, option_map};
ghost use Rattle.wy_ask.specs.Questions.{IsReading, asked};
ghost use Rattle.wy_ask.specs.Reading.{Reads, event_in, field_in, numbered_or_event_in, question_in, static_in};

use crate::names::number;
use crate::parts::{FieldWord, at_moment, behind, class_word, field_word, indexed_place, within};
use std::alloc::{AllocError, Global};
use thiserror::Error;

/// What is asked about. A moment is the number of events before it.
#[derive(Debug, Drop)]
pub enum Question {
    /// A print, counted from 0.
    Print(u32),
    /// An event by its number.
    Event(u32),
    /// The last write of a static field.
    Static {
        class: String,
        field: String,
        moment: u32,
    },
    /// The last write of a field of an object.
    Field {
        object: u32,
        class: String,
        field: String,
        moment: u32,
    },
    /// The last write of an element of an array.
    Elem {
        array: u32,
        index: u32,
        moment: u32,
    },
    /// The last write of a local of a frame.
    Local {
        frame: u32,
        index: u32,
        moment: u32,
    },
}

/// Why there is no answer to a question.
#[derive(Clone, Copy, Debug, Drop, Error, PartialEq, Eq)]
pub enum AskError {
    /// The text asks no question.
    #[error("not read")]
    BadQuestion,
    /// What is asked about isn't there; the number is that of the piece or the event, the moment, or a statement's line.
    #[error("no such {0}")]
    NoSuch(u32),
    #[error("out of memory")]
    NoMemory,
}

impl From<AllocError> for AskError {
    ghost use Rattle.std.specs.Prelude.{◌≡◌};
    ghost use Rattle.wy_ask.specs.declared.question.AskError.TheVariants.{NoMemory};

    ghost from_gives = { λ _ error. error ≡ NoMemory };

    fn from(_error: AllocError) -> AskError {
        AskError::NoMemory
    }
}

/// The question that a text asks.
pub fn read_question(alloc: Global, text: &str) -> Result<Question, AskError>
    ensures { IsReading text.now result }
{
    read(alloc, text)
}

fn read(alloc: Global, text: &str) -> Result<Question, AskError>
    ensures { Reads result (question_in text.now) }
{
    if let Some(rest) = behind(text, "static:") {
        read_static(alloc, rest)
    } else if let Some(rest) = behind(text, "field:") {
        read_field(alloc, rest)
    } else {
        read_numbered(text).ok_or(AskError::BadQuestion)
    }
}

fn read_static(alloc: Global, text: &str) -> Result<Question, AskError>
    ensures { Reads result (static_in text.now) }
{
    let Some((place, moment)) = at_moment(text) else {
        return Err(AskError::BadQuestion);
    };
    let Some(word) = field_word(place) else {
        return Err(AskError::BadQuestion);
    };
    Ok(Question::Static {
        class: class_word(alloc, word.of_library, word.class)?,
        field: word.name.to_string(alloc)?,
        moment,
    })
}

fn read_field(alloc: Global, text: &str) -> Result<Question, AskError>
    ensures { Reads result (field_in text.now) }
{
    let Some((place, moment)) = at_moment(text) else {
        return Err(AskError::BadQuestion);
    };
    let Some((object, part)) = within(place) else {
        return Err(AskError::BadQuestion);
    };
    let Some(word) = field_word(part) else {
        return Err(AskError::BadQuestion);
    };
    Ok(Question::Field {
        object,
        class: class_word(alloc, word.of_library, word.class)?,
        field: word.name.to_string(alloc)?,
        moment,
    })
}

/// A question whose word has numbers alone.
fn read_numbered(text: &str) -> Option<Question>
    ensures { option_map asked result ≡ numbered_or_event_in text.now }
{
    if let Some(rest) = behind(text, "elem:") {
        let (array, index, moment) = indexed_place(rest)?;
        Some(Question::Elem {
            array,
            index,
            moment,
        })
    } else if let Some(rest) = behind(text, "local:") {
        let (frame, index, moment) = indexed_place(rest)?;
        Some(Question::Local {
            frame,
            index,
            moment,
        })
    } else {
        read_event(text)
    }
}

fn read_event(text: &str) -> Option<Question>
    ensures { option_map asked result ≡ event_in text.now }
{
    if let Some(word) = behind(text, "p") {
        Some(Question::Print(number(word)?))
    } else {
        let word = behind(text, "e")?;
        Some(Question::Event(number(word)?))
    }
}
