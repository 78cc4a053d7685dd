//! What stands behind a command's name.
ghost use Rattle.std.specs.Prelude.{◌≡◌, option_map};
ghost use Rattle.clap.specs.Words.{found_of, first_of, rows_of};
ghost use Rattle.wy_words.specs.Views.{asking_of, operands_of};
ghost use Rattle.wy_words.specs.Found.{asking_in as asking_found, operands_in, steps_in};

use crate::number::number;
use crate::table::{FIRST, INPUT, SECOND, STEPS, THIRD, TRACE};
use clap::ArgMatches;

/// The steps that a run may be given.
pub const MOST_STEPS: u32 = 50_000_000;

/// In their order; no command takes more than three.
#[derive(Clone, Copy)]
pub enum Operands<'a> {
    Nothing,
    One(&'a str),
    Two(&'a str, &'a str),
    Three(&'a str, &'a str, &'a str),
}

/// Each option is named once at most.
#[derive(Clone, Copy)]
pub struct Asking<'a> {
    pub operands: Operands<'a>,
    pub input: Option<&'a str>,
    pub trace: Option<&'a str>,
    pub steps: Option<u32>,
}

/// What the matches of a command have, and None where the steps are no number of them.
#[tactic(auto, unfolding(crate::specs::Found::asking_in))]
pub fn asking_in<'a>(matches: &ArgMatches<'a>) -> Option<Asking<'a>>
    ensures { option_map asking_of result ≡ asking_found (rows_of (found_of matches.now)) }
{
    let steps = steps_asked(value(matches, STEPS))?;
    Some(Asking {
        operands: in_order(
            value(matches, FIRST),
            value(matches, SECOND),
            value(matches, THIRD),
        ),
        input: value(matches, INPUT),
        trace: value(matches, TRACE),
        steps,
    })
}

fn value<'a>(matches: &ArgMatches<'a>, id: &str) -> Option<&'a str>
    ensures { option_map (λ s. s.now) result ≡ first_of id.now (rows_of (found_of matches.now)) }
{
    matches.get_str(id)
}

#[tactic(auto, unfolding(crate::specs::Found::operands_in))]
fn in_order<'a>(
    first: Option<&'a str>,
    second: Option<&'a str>,
    third: Option<&'a str>,
) -> Operands<'a>
    ensures { operands_of result ≡ operands_in (option_map (λ s. s.now) first.entry)
        (option_map (λ s. s.now) second.entry) (option_map (λ s. s.now) third.entry) }
{
    match (first, second, third) {
        (None, _, _) => Operands::Nothing,
        (Some(first), None, _) => Operands::One(first),
        (Some(first), Some(second), None) => Operands::Two(first, second),
        (Some(first), Some(second), Some(third)) => Operands::Three(first, second, third),
    }
}

#[tactic(auto, unfolding(crate::specs::Found::steps_in))]
fn steps_asked(word: Option<&str>) -> Option<Option<u32>>
    ensures { result ≡ steps_in (option_map (λ s. s.now) word.entry) }
{
    match word {
        None => Some(None),
        Some(word) => Some(Some(number(word, MOST_STEPS)?)),
    }
}
