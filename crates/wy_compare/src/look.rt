//! When two events are the same by what is looked at.
ghost use Rattle.std.specs.Prelude.{◌≡◌, ◌↔◌, IsTrue};
ghost use Rattle.wy_compare.specs.Parting.{Same};
ghost use Rattle.wy_event.specs.Record.{recorded};

use wy_event::record::{Event, Kind};
use wy_record::same_event;

/// What is looked at of an event.
#[derive(Clone, Copy, Debug, PartialEq, Eq)]
pub enum Look {
    /// All that is recorded.
    Values,
    /// The step of the path that the run took: what the event is, and where.
    Path,
}

fn same_kind(a: Kind, b: Kind) -> bool
    ensures { IsTrue result ↔ (a ≡ b) }
{
    a == b
}

/// Whether two events are of one kind, and at one place, in one frame and of one entity.
fn same_step(a: &Event, b: &Event) -> bool
    ensures { IsTrue result ↔ ((a.now.kind ≡ b.now.kind) × (a.now.site ≡ b.now.site)
        × (a.now.frame ≡ b.now.frame) × (a.now.entity ≡ b.now.entity)) }
{
    same_kind(a.kind, b.kind) && a.site == b.site && a.frame == b.frame && a.entity == b.entity
}

pub(crate) fn is_same(look: Look, a: &Event, b: &Event) -> bool
    ensures { IsTrue result ↔ Same look (recorded a.now) (recorded b.now) }
{
    match look {
        Look::Values => same_event(a, b),
        Look::Path => same_step(a, b),
    }
}
