//! Why a statement never began, line by line.

ghost use Rattle.std.specs.Prelude.{◌≡◌, List, Some};
ghost use Rattle.wy_ask.specs.Opened.{IsOpenedOf};
ghost use Rattle.wy_telling.specs.Whynot.{TellsNamed, TellsWhynot};
ghost use Rattle.wy_event.specs.Record.{Recorded};
ghost use Rattle.wy_kernel.specs.Parts.{program_of};
ghost use Rattle.wy_static.specs.LookUps.{AreLinksOf};

use crate::item::put_items;
use std::alloc::{AllocError, Global};
use wy_ask::{AskError, NamedStatement, Opened, statement};
use wy_static::Links;
use wy_static::links::links;
use wy_view::EventView;
use wy_whynot::{WhynotError, whynot};

/// Why a word has no answer.
#[derive(Clone, Copy, Debug, PartialEq, Eq)]
pub enum Unanswered {
    /// It is no line and place.
    NotRead,
    /// The line has no such statement.
    NoSuch(u32),
    /// The statement began so often, first at that moment.
    Ran {
        line: u32,
        place: u32,
        count: u32,
        first: u32,
    },
    NoMemory,
}

impl From<AllocError> for Unanswered {
    ghost use Rattle.std.specs.Prelude.{◌≡◌};
    ghost use Rattle.wy_telling.specs.declared.whynot.Unanswered.TheVariants.{NoMemory};

    ghost from_gives = { λ _ error. error ≡ NoMemory };

    fn from(_error: AllocError) -> Unanswered {
        Unanswered::NoMemory
    }
}

/// Why the statement of a word never began: a line for each link that was reached and not crossed.
pub fn whynot_text<V: EventView>(
    alloc: Global,
    opened: &Opened<'_, V>,
    word: &str,
) -> Result<Vec<u8>, Unanswered>
    requires { IsOpenedOf (V.tells opened.now.view) opened.now }
    ensures { (rs : List Recorded) → (V.tells opened.now.view).records ≡ Some rs
        → TellsWhynot (program_of opened.now.program.now) opened.now.program.now.lines.items
        rs opened.now.coverage.now word.now result }
{
    match statement(alloc, opened.program, word) {
        Ok(named) => whynot_lines(alloc, opened, &links(alloc, opened.program)?, named),
        Err(AskError::BadQuestion) => Err(Unanswered::NotRead),
        Err(AskError::NoSuch(line)) => Err(Unanswered::NoSuch(line)),
        Err(AskError::NoMemory) => Err(Unanswered::NoMemory),
    }
}

/// Why a statement never began, from the links of the program, which serve any number of statements.
pub fn whynot_lines<V: EventView>(
    alloc: Global,
    opened: &Opened<'_, V>,
    links: &Links,
    named: NamedStatement,
) -> Result<Vec<u8>, Unanswered>
    requires opened { IsOpenedOf (V.tells opened.now.view) opened.now }
    requires links { AreLinksOf links.now (program_of opened.now.program.now) }
    ensures { (rs : List Recorded) → (V.tells opened.now.view).records ≡ Some rs
        → TellsNamed (program_of opened.now.program.now) opened.now.program.now.lines.items
        rs opened.now.coverage.now named result }
{
    match whynot(alloc, links, opened.coverage, &opened.index, named.number) {
        Ok(items) => {
            let mut text = Vec::new(alloc);
            put_items(alloc, &mut text, opened.program, &items)?;
            Ok(text)
        }
        Err(WhynotError::Ran { count, first }) => Err(Unanswered::Ran {
            line: named.line,
            place: named.place,
            count,
            first,
        }),
        Err(WhynotError::NoMemory) => Err(Unanswered::NoMemory),
    }
}
