//! What a command line asks.
ghost use Rattle.std.specs.Prelude.{◌≡◌, IfOk, IfSome, None, map, option_map, string_bytes};
ghost use Rattle.clap.specs.Words.{first_of, found_of, kind_of, rows_of, subcommand_rows_of};
ghost use Rattle.wy_lens.specs.Views.{request_of, telling_of};
ghost use Rattle.wy_lens.specs.Words.{AskNothing, Asks, IsFault, has_options as options_in, is_set as is_set_in};
ghost use Rattle.wy_lens.specs.Words.{comparing as comparing_in, explaining as explaining_in, request_for as request_for_in};
ghost use Rattle.wy_lens.specs.Words.{request_in as request_found, shown as shown_as, telling_in as telling_found};

use crate::table::{ALL, DATA, FIRST, SECOND, STOP, table};
use clap::error::ErrorKind;
use clap::{ArgMatches, Error};
use std::alloc::{AllocError, Global};
use wy_fold::Showing;

/// What is told of a trace.
#[derive(Clone, Copy)]
pub enum Telling<'a> {
    /// The answer to a question, or to why the run stopped where it did, folded by lines.
    Show {
        question: Option<&'a str>,
        showing: Showing,
    },
    /// The lines of the source that an answer stands on.
    Slice {
        question: &'a str,
    },
    /// The answer to a question as a page.
    Report {
        question: &'a str,
    },
    /// All events, or those of a line.
    Events {
        line: Option<&'a str>,
    },
}

/// What a trace is compared with.
#[derive(Clone, Copy)]
pub enum Beside {
    /// The trace of a second run of its source.
    Run,
    /// What its run was expected to print.
    Output,
}

/// What can be asked.
#[derive(Clone, Copy)]
pub enum Request<'a> {
    Explain {
        source: &'a str,
    },
    Tell {
        trace: &'a str,
        telling: Telling<'a>,
    },
    /// Where a run and another one part, or a run and what was expected of it.
    Compare {
        beside: Beside,
        trace: &'a str,
        other: &'a str,
    },
    Help,
    Version,
}

/// What the words behind the program's own name ask, and None where they ask nothing. The only error is want of memory.
pub fn asked_by<'a>(alloc: Global, words: &'a [String]) -> Result<Option<Request<'a>>, AllocError>
    ensures asked { IfOk result (λ r.
        IfSome r (λ q. Asks (map string_bytes words.entry.now) (request_of q))) }
    ensures refused { IfOk result (λ r. r ≡ None → AskNothing (map string_bytes words.entry.now)) }
{
    match table(alloc)?.try_get_matches_from(words) {
        Ok(matches) => Ok(request_in(&matches)),
        Err(error) => request_by(&error),
    }
}

/// A parse that failed asks for help or the version, or nothing.
fn request_by<'a>(error: &Error) -> Result<Option<Request<'a>>, AllocError>
    ensures { IfOk result (λ r. IsFault (kind_of error.now) (option_map request_of r)) }
{
    match error.kind() {
        ErrorKind::OutOfMemory => Err(AllocError),
        ErrorKind::DisplayHelp => Ok(Some(Request::Help)),
        ErrorKind::DisplayVersion => Ok(Some(Request::Version)),
        _ => Ok(None),
    }
}

/// What the command that is entered asks of a file.
fn request_in<'a>(matches: &ArgMatches<'a>) -> Option<Request<'a>>
    ensures { option_map request_of result ≡ request_found (subcommand_rows_of matches.now) }
{
    let (name, found) = matches.subcommand()?;
    request_for(name, found, value(found, FIRST)?)
}

#[tactic(auto, unfolding(crate::specs::Words::request_for))]
fn request_for<'a>(name: &str, found: &ArgMatches<'a>, file: &'a str) -> Option<Request<'a>>
    ensures { option_map request_of result
        ≡ request_for_in name.now (rows_of (found_of found.now)) file.now }
{
    if name == "explain" {
        return explaining(found, file);
    }
    if name == "diff" {
        return comparing(Beside::Run, found, file);
    }
    if name == "expect" {
        return comparing(Beside::Output, found, file);
    }
    match telling_in(name, found) {
        Some(telling) => Some(Request::Tell {
            trace: file,
            telling,
        }),
        None => None,
    }
}

/// A source is explained where nothing else stands.
#[tactic(auto, unfolding(crate::specs::Words::explaining))]
fn explaining<'a>(found: &ArgMatches<'a>, source: &'a str) -> Option<Request<'a>>
    ensures { option_map request_of result
        ≡ explaining_in (rows_of (found_of found.now)) source.now }
{
    if has_options(found) || value(found, SECOND).is_some() {
        return None;
    }
    Some(Request::Explain { source })
}

/// A trace is compared with another file.
#[tactic(auto, unfolding(crate::specs::Words::comparing))]
fn comparing<'a>(beside: Beside, found: &ArgMatches<'a>, trace: &'a str) -> Option<Request<'a>>
    ensures { option_map request_of result
        ≡ comparing_in beside (rows_of (found_of found.now)) trace.now }
{
    if has_options(found) {
        return None;
    }
    match value(found, SECOND) {
        Some(other) => Some(Request::Compare {
            beside,
            trace,
            other,
        }),
        None => None,
    }
}

/// What the command of a name tells of a trace.
#[tactic(auto, unfolding(crate::specs::Words::telling_in))]
fn telling_in<'a>(name: &str, found: &ArgMatches<'a>) -> Option<Telling<'a>>
    ensures { option_map telling_of result
        ≡ telling_found name.now (rows_of (found_of found.now)) }
{
    if name == "show" {
        let showing = Showing {
            is_open: is_set(found, ALL),
            by_data: is_set(found, DATA),
        };
        return shown(is_set(found, STOP), value(found, SECOND), showing);
    }
    if has_options(found) {
        return None;
    }
    if name == "slice" {
        return match value(found, SECOND) {
            Some(question) => Some(Telling::Slice { question }),
            None => None,
        };
    }
    if name == "report" {
        return match value(found, SECOND) {
            Some(question) => Some(Telling::Report { question }),
            None => None,
        };
    }
    if name == "events" {
        return Some(Telling::Events {
            line: value(found, SECOND),
        });
    }
    None
}

/// A question is shown, or where the run stopped: one of the two.
#[tactic(auto, unfolding(crate::specs::Words::shown))]
fn shown(stop: bool, question: Option<&str>, showing: Showing) -> Option<Telling<'_>>
    ensures { option_map telling_of result
        ≡ shown_as stop (option_map (λ s. s.now) question.entry) showing }
{
    match question {
        None if stop => Some(Telling::Show {
            question: None,
            showing,
        }),
        Some(question) if !stop => Some(Telling::Show {
            question: Some(question),
            showing,
        }),
        _ => None,
    }
}

#[tactic(auto, unfolding(crate::specs::Words::has_options))]
fn has_options(found: &ArgMatches<'_>) -> bool
    ensures { result ≡ options_in (rows_of (found_of found.now)) }
{
    is_set(found, STOP) || is_set(found, ALL) || is_set(found, DATA)
}

#[tactic(auto, unfolding(crate::specs::Words::is_set))]
fn is_set(found: &ArgMatches<'_>, id: &str) -> bool
    ensures { result ≡ is_set_in id.now (rows_of (found_of found.now)) }
{
    match value(found, id) {
        Some(value) => value == "true",
        None => false,
    }
}

fn value<'a>(found: &ArgMatches<'a>, id: &str) -> Option<&'a str>
    ensures { option_map (λ s. s.now) result ≡ first_of id.now (rows_of (found_of found.now)) }
{
    found.get_str(id)
}
