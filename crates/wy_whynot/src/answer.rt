//! The answer to why a statement never began.

ghost use Rattle.std.specs.Prelude.{◌≡◌, IfOk, List, map};
ghost use Rattle.wy_kernel.specs.Program as kernel;
ghost use Rattle.wy_event.specs.Record.{Recorded};
ghost use Rattle.wy_index.specs.Index.{IsIndexOf};
ghost use Rattle.wy_static.specs.LookUps.{AreLinksOf};
ghost use Rattle.wy_whynot.specs.Evidence.{evidence, evidence_in};
ghost use Rattle.wy_whynot.specs.Items.{WhynotIs};

use crate::blocked::blocked_links;
use crate::evidence::item;
use crate::executed::cover_of;
use crate::item::{Item, WhynotError};
use std::alloc::{AllocError, Global};
use wy_event::record::Cover;
use wy_index::Index;
use wy_static::Links;
use wy_static::point::Link;

fn items(
    alloc: Global,
    links: &Links,
    coverage: &[Cover],
    index: &Index,
    blocked: &[Link],
) -> Result<Vec<Item>, AllocError>
    ensures { (p : kernel.Program) (rs : List Recorded)
        → AreLinksOf links.now p → IsIndexOf index.now rs → IfOk result (λ items.
        map evidence_in items.items ≡ map (evidence p rs coverage.now) blocked.now) }
{
    let mut items = Vec::new(alloc);
    for link in blocked {
        items.push(item(alloc, links, coverage, index, link)?)?;
    }
    Ok(items)
}

/// The links that a run reached and did not cross on the ways to a statement, which never began.
pub fn whynot(
    alloc: Global,
    links: &Links,
    coverage: &[Cover],
    index: &Index,
    statement: u32,
) -> Result<Vec<Item>, WhynotError>
    ensures { (p : kernel.Program) (rs : List Recorded)
        → AreLinksOf links.now p → IsIndexOf index.now rs
        → WhynotIs p rs coverage.now statement result }
{
    let cover = cover_of(coverage, statement);
    if cover.begins != 0 {
        return Err(WhynotError::Ran {
            count: cover.begins,
            first: cover.first,
        });
    }
    let blocked = blocked_links(alloc, links.all(), coverage, index, statement)?;
    let items = items(alloc, links, coverage, index, &blocked)?;
    Ok(items)
}
