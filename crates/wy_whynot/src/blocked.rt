//! The links that were reached and not crossed on the ways to a statement.

ghost use Rattle.std.specs.Prelude.{IfOk, List};
ghost use Rattle.wy_kernel.specs.Program as kernel;
ghost use Rattle.wy_event.specs.Record.{Recorded};
ghost use Rattle.wy_index.specs.Index.{IsIndexOf};
ghost use Rattle.wy_static.specs.Links.{AreLinks};
ghost use Rattle.wy_whynot.specs.Items.{AreBlocked};
ghost use Rattle.wy_whynot.specs.Laws.{NeverBegan};

use crate::executed::executed_points;
use std::alloc::{AllocError, Global};
use wy_event::record::Cover;
use wy_index::Index;
use wy_paths::{frontier, points_of};
use wy_static::point::{Link, Point};

/// The links that are blocked for a statement that never began, in the order of items.
pub(crate) fn blocked_links(
    alloc: Global,
    links: &[Link],
    coverage: &[Cover],
    index: &Index,
    statement: u32,
) -> Result<Vec<Link>, AllocError>
    ensures { (p : kernel.Program) (rs : List Recorded)
        → AreLinks p links.now → IsIndexOf index.now rs → NeverBegan coverage.now statement
        → IfOk result (λ blocked. AreBlocked p rs coverage.now statement blocked.items) }
{
    let goal = Point::Statement(statement);
    let points = points_of(alloc, links, Point::Start, goal)?;
    let begun = executed_points(alloc, coverage, index, &points)?;
    let blocked = frontier(alloc, links, points, begun, Point::Start, goal)?;
    Ok(blocked)
}
