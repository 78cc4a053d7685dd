//! What a command line asks.
ghost use Rattle.std.specs.Prelude.{◌≡◌, ◌≢◌, ◌||◌, bytes_eq, codes, IfOk, IfSome, None, false, map, option_map, string_bytes};
ghost use Rattle.clap.specs.Words.{kind_of, subcommand_rows_of};
ghost use Rattle.wy_words.specs.Views.{command_of};
ghost use Rattle.wy_words.specs.Words.{Asks, IsNoCommand};
ghost use Rattle.wy_words.specs.Reading.{are_spelled as all_spelled, is_joined as joined, may_stand};
ghost use Rattle.wy_words.specs.Found.{command_in as command_found};
ghost use Rattle.wy_words.specs.Words.{is_plain as plain};

use crate::asking::{MOST_STEPS, asking_in};
use crate::commands::{Command, command_named};
use crate::number::number;
use crate::table::table;
use clap::error::ErrorKind;
use clap::{ArgMatches, Error};
use std::alloc::{AllocError, Global};

/// What the words behind the program's own name ask, and None where they are no command. The only error is want of memory.
pub fn command<'a>(alloc: Global, words: &'a [String]) -> Result<Option<Command<'a>>, AllocError>
    ensures asked { IfOk result (λ r.
        IfSome r (λ c. Asks (map string_bytes words.entry.now) (command_of c))) }
    ensures refused { IfOk result (λ r. r ≡ None → IsNoCommand (map string_bytes words.entry.now)) }
{
    if !are_spelled(words) {
        return Ok(None);
    }
    match table(alloc)?.try_get_matches_from(words) {
        Ok(matches) => Ok(command_in(&matches)),
        Err(error) => {
            memory_sufficed(&error)?;
            Ok(None)
        }
    }
}

/// The parse failed for the words and not for want of memory.
fn memory_sufficed(error: &Error) -> Result<(), AllocError>
    ensures { IfOk result (λ _. kind_of error.now ≢ ErrorKind.OutOfMemory) }
{
    match error.kind() {
        ErrorKind::OutOfMemory => Err(AllocError),
        _ => Ok(()),
    }
}

fn command_in<'a>(matches: &ArgMatches<'a>) -> Option<Command<'a>>
    ensures { option_map command_of result ≡ command_found (subcommand_rows_of matches.now) }
{
    let (name, found) = matches.subcommand()?;
    command_named(name, asking_in(found)?)
}

/// The table leaves spellings out that its reader takes, as `-iFILE` and `--`.
fn are_spelled(words: &[String]) -> bool
    ensures { result ≡ all_spelled false (map string_bytes words.now) }
{
    let mut awaits_number = false;
    for word in words {
        let word = word.as_str();
        if !may_stand(word, awaits_number) {
            return false;
        }
        awaits_number = word == "--steps";
    }
    true
}

#[tactic(auto, unfolding(crate::specs::Reading::may_stand))]
fn may_stand(word: &str, awaits_number: bool) -> bool
    ensures { result ≡ may_stand awaits_number word.now }
{
    is_spelling(word) && (!awaits_number || number(word, MOST_STEPS).is_some())
}

fn is_spelling(word: &str) -> bool
    ensures { result ≡ (plain word.now || (bytes_eq word.now (codes "-i")
        || (bytes_eq word.now (codes "-o")
        || (bytes_eq word.now (codes "--steps") || joined word.now)))) }
{
    is_plain(word) || word == "-i" || word == "-o" || word == "--steps" || is_joined(word)
}

#[tactic(auto, unfolding(crate::specs::Reading::is_joined))]
fn is_joined(word: &str) -> bool
    ensures { result ≡ joined word.now }
{
    match word.strip_prefix("--steps=") {
        Some(steps) => number(steps, MOST_STEPS).is_some(),
        None => false,
    }
}

#[tactic(auto, unfolding(crate::specs::Words::is_plain))]
fn is_plain(word: &str) -> bool
    ensures { result ≡ plain word.now }
{
    match word.as_bytes() {
        [] => false,
        [first, ..] => *first != b'-',
    }
}
