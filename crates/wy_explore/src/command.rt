//! The command that a line says.

ghost use Rattle.std.specs.Prelude.{◌≡◌, None as Absent, codes, option_map};
ghost use Rattle.wy_ask.specs.Reading.{behind};
ghost use Rattle.wy_explore.specs.Commands.{Reads, command_in, short_in, worded};

use std::str;

/// A command. The words of questions, numbers and statements are still to be read, and so is a text to be shown.
#[derive(Clone, Copy, Drop)]
pub enum Command<'a> {
    Ask(&'a str),
    Listing,
    Up,
    Down,
    Go(&'a str),
    Sources,
    WhyNot(&'a str),
    Frames,
    Show(&'a [u8]),
    Undo,
    Quit,
}

/// The command that a line says.
pub fn command_of(line: &[u8]) -> Option<Command<'_>>
    ensures { Reads line.now result }
{
    match shown_in(line) {
        Some(text) => Some(Command::Show(text)),
        None => text_command(line),
    }
}

/// What a line asks to be shown, where it begins so.
fn shown_in(line: &[u8]) -> Option<&[u8]>
    ensures { option_map (λ text. text.now) result ≡ behind (codes "show ") line.now }
{
    match line {
        [b's', b'h', b'o', b'w', b' ', text @ ..] => Some(text),
        _ => None,
    }
}

/// Another command. A line that is no text says none.
fn text_command(line: &[u8]) -> Option<Command<'_>>
    requires { behind (codes "show ") line.now ≡ Absent }
    ensures { Reads line.now result }
{
    match str::from_utf8(line) {
        Ok(text) => command_in(text),
        Err(_) => None,
    }
}

/// The command of a text.
fn command_in(text: &str) -> Option<Command<'_>>
    ensures { option_map worded result ≡ command_in text.now }
{
    if let Some(word) = text.strip_prefix("ask ") {
        Some(Command::Ask(word))
    } else if let Some(word) = text.strip_prefix("go ") {
        Some(Command::Go(word))
    } else if let Some(word) = text.strip_prefix("whynot ") {
        Some(Command::WhyNot(word))
    } else {
        short_in(text)
    }
}

/// A command of one word.
fn short_in(text: &str) -> Option<Command<'_>>
    ensures { option_map worded result ≡ short_in text.now }
{
    if text == "list" {
        Some(Command::Listing)
    } else if text == "up" {
        Some(Command::Up)
    } else if text == "down" {
        Some(Command::Down)
    } else if text == "sources" {
        Some(Command::Sources)
    } else if text == "frames" {
        Some(Command::Frames)
    } else if text == "undo" {
        Some(Command::Undo)
    } else if text == "quit" {
        Some(Command::Quit)
    } else {
        None
    }
}
