//! The rows of the source's lines.
ghost use Rattle.std.specs.Prelude.{◌≡◌, ◌++◌, OnOk, map};
ghost use Rattle.std.specs.List.{flat_map};
ghost use Rattle.wy_fold.specs.Groups.{IsTable};
ghost use Rattle.wy_fold.specs.Places.{Places, stands_on};
ghost use Rattle.wy_report.specs.Page.{class_text, line_row, line_rows, mark_of, star_text};
ghost use Rattle.wy_report.specs.Pieces.{written};

use crate::piece::{Piece, Target, put_pieces};
use std::alloc::AllocError;
use wy_fold::{Table, stands_on};

/// What an answer has of a row.
#[derive(Clone, Copy, Debug, PartialEq, Eq)]
pub enum Mark {
    Nothing,
    /// Some of it, and none of the data.
    Other,
    /// Some of the data.
    Data,
}

pub(crate) fn mark_of(in_all: bool, in_flow: bool) -> Mark
    ensures { result ≡ mark_of in_all in_flow }
{
    match (in_all, in_flow) {
        (_, true) => Mark::Data,
        (true, false) => Mark::Other,
        (false, false) => Mark::Nothing,
    }
}

pub(crate) fn class_text(mark: Mark) -> &'static str
    ensures { result.now ≡ class_text mark }
{
    match mark {
        Mark::Nothing => "><td>",
        Mark::Other => " class='other'><td>",
        Mark::Data => " class='data'><td>",
    }
}

fn star_text(mark: Mark) -> &'static str
    ensures { result.now ≡ star_text mark }
{
    match mark {
        Mark::Nothing => "</td><td></td><td>",
        Mark::Other => "</td><td>-</td><td>",
        Mark::Data => "</td><td>*</td><td>",
    }
}

fn put_line_row(out: &mut Vec<u8>, mark: Mark, number: usize, text: &[u8]) -> Result<(), AllocError>
    ensures { OnOk result (out.new.items
        ≡ out.old.items ++ flat_map written (line_row mark number text.now)) }
{
    put_pieces(
        out,
        &[
            Piece::Markup("<tr"),
            Piece::Anchor(Target::Line(number)),
            Piece::Markup(class_text(mark)),
            Piece::Number(number),
            Piece::Markup(star_text(mark)),
            Piece::Shown(text),
            Piece::Markup("</td></tr>\n"),
        ],
    )
}

/// Puts the lines of the source, those marked on which some of the answer stands.
pub(crate) fn put_line_rows(
    out: &mut Vec<u8>,
    lines: &[&[u8]],
    all: &Table<'_>,
    flow: &Table<'_>,
) -> Result<(), AllocError>
    ensures { (at : Places) → IsTable at all.now → IsTable at flow.now → OnOk result (out.new.items
        ≡ out.old.items ++ flat_map written (line_rows at all.now.events.now flow.now.events.now 1
        (map (λ l. l.now) lines.now))) }
{
    for (i, line) in lines.iter().enumerate() {
        let mark = mark_of(stands_on(all, i + 1), stands_on(flow, i + 1));
        put_line_row(out, mark, i + 1, line)?;
    }
    Ok(())
}
