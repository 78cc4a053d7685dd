//! The pieces of which a page is made.
ghost use Rattle.std.specs.Prelude.{◌≡◌, ◌++◌, OnOk};
ghost use Rattle.wy_report.specs.Pieces.{attribute_text, piece_of, pieces_text, target_text, written};

use crate::escape::put_escaped;
use std::alloc::AllocError;
use wy_text::{put_count, put_decimal};

/// A place of the page to which a link can lead.
#[derive(Clone, Copy, Debug, PartialEq, Eq)]
pub enum Target {
    /// A line of the source, by its number from 1.
    Line(usize),
    Event(u32),
}

/// A piece of the page.
#[derive(Clone, Copy)]
pub enum Piece<'a> {
    /// A part of the template.
    Markup(&'static str),
    Number(usize),
    /// What the source or an event holds.
    Shown(&'a [u8]),
    /// The tag that is open is this place of the page.
    Anchor(Target),
    /// The tag that is open leads to this place.
    Link(Target),
}

fn put(out: &mut Vec<u8>, text: &str) -> Result<(), AllocError>
    ensures { OnOk result (out.new.items ≡ out.old.items ++ text.now) }
{
    out.extend_from_slice(text.as_bytes())
}

fn put_target(out: &mut Vec<u8>, target: Target) -> Result<(), AllocError>
    ensures { OnOk result (out.new.items ≡ out.old.items ++ target_text target) }
{
    match target {
        Target::Line(line) => {
            put(out, "L")?;
            put_count(out, line)
        }
        Target::Event(event) => {
            put(out, "e")?;
            put_decimal(out, event)
        }
    }
}

/// Puts an attribute whose value is the name of a place.
fn put_attribute(out: &mut Vec<u8>, before: &str, target: Target) -> Result<(), AllocError>
    ensures { OnOk result (out.new.items
        ≡ out.old.items ++ attribute_text before.now target) }
{
    put(out, before)?;
    put_target(out, target)?;
    put(out, "\"")
}

fn put_piece(out: &mut Vec<u8>, piece: Piece<'_>) -> Result<(), AllocError>
    ensures { OnOk result (out.new.items ≡ out.old.items ++ written (piece_of piece.entry)) }
{
    match piece {
        Piece::Markup(text) => put(out, text),
        Piece::Number(number) => put_count(out, number),
        Piece::Shown(text) => put_escaped(out, text),
        Piece::Anchor(target) => put_attribute(out, " id=\"", target),
        Piece::Link(target) => put_attribute(out, " href=\"#", target),
    }
}

/// Puts the pieces one behind another.
pub(crate) fn put_pieces(out: &mut Vec<u8>, pieces: &[Piece<'_>]) -> Result<(), AllocError>
    ensures { OnOk result (out.new.items
        ≡ out.old.items ++ pieces_text pieces.now) }
{
    for piece in pieces {
        put_piece(out, *piece)?;
    }
    Ok(())
}
