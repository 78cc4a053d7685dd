//! The statements that print and never ran, and why.
ghost use Rattle.std.specs.Prelude.{◌≡◌, ◌++◌, true, None, IfOk, List, OnOk, map};
ghost use Rattle.std.specs.List.{All};
ghost use Rattle.wy_ask.specs.Listing.{never_began};
ghost use Rattle.wy_ask.specs.Opened.{IsOpenedOf};
ghost use Rattle.wy_event.specs.Record.{recorded};
ghost use Rattle.wy_expect.specs.Printers.{unprinted};
ghost use Rattle.wy_expect.specs.Texts.{NeverPrinted, NeverText, all_ran_line};
ghost use Rattle.wy_kernel.specs.Parts.{program_of};
ghost use Rattle.wy_static.specs.LookUps.{AreLinksOf};
ghost use Rattle.wy_telling.specs.Items.{items_text};
ghost use Rattle.wy_telling.specs.Questions.{never_line};
ghost use Rattle.wy_view.specs.Whole.{whole};
ghost use Rattle.wy_whynot.specs.Evidence.{Evidence};
ghost use Rattle.wy_whynot.specs.Items.{AreItems};

use crate::line::put;
use crate::printers::unprinted;
use std::alloc::{AllocError, Global};
use wy_ask::never::PlacedStatement;
use wy_ask::{NamedStatement, Opened};
use wy_static::Links;
use wy_static::links::links;
use wy_telling::{Unanswered, whynot_lines};
use wy_view::MemoryView;

/// The words that ask why a statement never ran.
#[tactic(auto, unfolding(wy_telling::specs::Questions::never_line))]
fn heading(alloc: Global, line: u32, place: u32) -> Result<Vec<u8>, AllocError>
    ensures { IfOk result (λ text. text.items ≡ never_line line place) }
{
    let text = format!(in alloc; "whynot {line}.{place}\n")?;
    Ok(text.into_bytes())
}

/// Why a statement never ran, by the lines of the links that were reached and not crossed.
fn reasons(
    alloc: Global,
    opened: &Opened<'_, MemoryView>,
    links: &Links,
    s: PlacedStatement,
) -> Result<Vec<u8>, AllocError>
    requires opened { IsOpenedOf (whole opened.now.view.events.items None) opened.now }
    requires links { AreLinksOf links.now (program_of opened.now.program.now) }
    requires never { never_began opened.now.coverage.now s ≡ true }
    ensures { IfOk result (λ text. (items : List Evidence)
        × AreItems (program_of opened.now.program.now) (map recorded opened.now.view.events.items)
        opened.now.coverage.now s.statement.number items
        × (text.items ≡ items_text (program_of opened.now.program.now)
        opened.now.program.now.lines.items items)) }
{
    let named = NamedStatement {
        line: s.statement.line,
        place: s.place,
        number: s.statement.number,
    };
    match whynot_lines(alloc, opened, links, named) {
        Ok(text) => Ok(text),
        Err(Unanswered::NoMemory) => Err(AllocError),
        Err(_) => unreachable!(),
    }
}

/// Puts the words that ask why a statement never ran, and the answer.
fn put_never(
    alloc: Global,
    out: &mut Vec<u8>,
    opened: &Opened<'_, MemoryView>,
    links: &Links,
    s: PlacedStatement,
) -> Result<(), AllocError>
    requires opened { IsOpenedOf (whole opened.now.view.events.items None) opened.now }
    requires links { AreLinksOf links.now (program_of opened.now.program.now) }
    requires never { never_began opened.now.coverage.now s ≡ true }
    ensures { OnOk result ((items : List Evidence)
        × AreItems (program_of opened.now.program.now) (map recorded opened.now.view.events.items)
        opened.now.coverage.now s.statement.number items
        × (out.new.items ≡ out.old.items ++ (never_line s.statement.line s.place
        ++ items_text (program_of opened.now.program.now) opened.now.program.now.lines.items
        items))) }
{
    let words = heading(alloc, s.statement.line, s.place)?;
    out.extend_from_slice(words.as_slice())?;
    let answer = reasons(alloc, opened, links, s)?;
    out.extend_from_slice(answer.as_slice())
}

/// Each of these statements by the words that ask why it never ran, and the answer.
fn each_never(
    alloc: Global,
    opened: &Opened<'_, MemoryView>,
    links: &Links,
    never: &[PlacedStatement],
) -> Result<Vec<u8>, AllocError>
    requires opened { IsOpenedOf (whole opened.now.view.events.items None) opened.now }
    requires links { AreLinksOf links.now (program_of opened.now.program.now) }
    requires never { All (λ s. never_began opened.now.coverage.now s ≡ true) never.now }
    ensures { IfOk result (λ text. NeverPrinted (program_of opened.now.program.now)
        opened.now.program.now.lines.items (map recorded opened.now.view.events.items)
        opened.now.coverage.now never.now text.items) }
{
    let mut out = Vec::new(alloc);
    for s in never {
        put_never(alloc, &mut out, opened, links, *s)?;
    }
    Ok(out)
}

#[tactic(auto, unfolding(crate::specs::Texts::all_ran_line))]
fn all_ran(alloc: Global) -> Result<Vec<u8>, AllocError>
    ensures { IfOk result (λ text. text.items ≡ all_ran_line) }
{
    let mut text = Vec::new(alloc);
    put(&mut text, "each statement that prints began\n")?;
    Ok(text)
}

/// What is said of the statements that print and never ran.
pub(crate) fn never_text(
    alloc: Global,
    opened: &Opened<'_, MemoryView>,
) -> Result<Vec<u8>, AllocError>
    requires { IsOpenedOf (whole opened.now.view.events.items None) opened.now }
    ensures { IfOk result (λ text. NeverText (program_of opened.now.program.now)
        opened.now.program.now.lines.items (map recorded opened.now.view.events.items)
        opened.now.coverage.now (unprinted (program_of opened.now.program.now)
        opened.now.program.now.lines.items opened.now.coverage.now) text.items) }
{
    let never = unprinted(alloc, opened.program, opened.coverage)?;
    if never.is_empty() {
        return all_ran(alloc);
    }
    let links = links(alloc, opened.program)?;
    each_never(alloc, opened, &links, never.as_slice())
}
