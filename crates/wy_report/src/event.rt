//! The rows of the answer's events.
ghost use Rattle.std.specs.Prelude.{◌≡◌, ◌++◌, OnOk};
ghost use Rattle.std.specs.List.{flat_map};
ghost use Rattle.wy_report.specs.Page.{event_row, line_link, role_text, source_link, text_cell};
ghost use Rattle.wy_report.specs.Pieces.{written};

use crate::line::{Mark, class_text};
use crate::piece::{Piece, Target, put_pieces};
use std::alloc::AllocError;
use wy_why::{Role, Source};

/// What the row of an event shows.
#[derive(Clone, Copy)]
pub(crate) struct Row<'a> {
    pub(crate) event: u32,
    pub(crate) mark: Mark,
    /// The line on which it stands; 0 where it is one of the library.
    pub(crate) line: u32,
    pub(crate) text: &'a [u8],
    pub(crate) sources: &'a [Source],
}

/// Puts what leads to a line, if the source has it.
fn put_line_link(out: &mut Vec<u8>, line: u32, many: usize) -> Result<(), AllocError>
    ensures { OnOk result (out.new.items
        ≡ out.old.items ++ flat_map written (line_link many line)) }
{
    if line == 0 || line as usize > many {
        return Ok(());
    }
    put_pieces(out, &[Piece::Link(Target::Line(line as usize))])
}

fn role_text(role: Role) -> &'static str
    ensures { result.now ≡ role_text role }
{
    match role {
        Role::Data => ">data #",
        Role::Choice => ">choice #",
        Role::Control => ">control #",
    }
}

fn put_source_link(out: &mut Vec<u8>, source: Source) -> Result<(), AllocError>
    ensures { OnOk result (out.new.items ≡ out.old.items ++ flat_map written (source_link source)) }
{
    put_pieces(
        out,
        &[
            Piece::Markup("<a"),
            Piece::Link(Target::Event(source.event)),
            Piece::Markup(role_text(source.role)),
            Piece::Number(source.event as usize),
            Piece::Markup("</a> "),
        ],
    )
}

fn put_source_links(out: &mut Vec<u8>, sources: &[Source]) -> Result<(), AllocError>
    ensures { OnOk result (out.new.items
        ≡ out.old.items ++ flat_map (λ s. flat_map written (source_link s)) sources.now) }
{
    for source in sources {
        put_source_link(out, *source)?;
    }
    Ok(())
}

/// Puts the text of an event in the link to its line.
fn put_text_cell(out: &mut Vec<u8>, text: &[u8]) -> Result<(), AllocError>
    ensures { OnOk result (out.new.items
        ≡ out.old.items ++ flat_map written (text_cell text.now)) }
{
    put_pieces(
        out,
        &[
            Piece::Markup(">"),
            Piece::Shown(text),
            Piece::Markup("</a></td><td>"),
        ],
    )
}

/// Puts an event, with links to its line, one of so many, and to the events that it comes from.
pub(crate) fn put_event_row(out: &mut Vec<u8>, row: Row<'_>, many: usize) -> Result<(), AllocError>
    ensures { OnOk result (out.new.items ≡ out.old.items
        ++ flat_map written (event_row many row.entry.event row.entry.mark row.entry.line
        row.entry.text.now row.entry.sources.now)) }
{
    put_pieces(
        out,
        &[
            Piece::Markup("<tr"),
            Piece::Anchor(Target::Event(row.event)),
            Piece::Markup(class_text(row.mark)),
            Piece::Markup("<a"),
        ],
    )?;
    put_line_link(out, row.line, many)?;
    put_text_cell(out, row.text)?;
    put_source_links(out, row.sources)?;
    put_pieces(out, &[Piece::Markup("</td></tr>\n")])
}
