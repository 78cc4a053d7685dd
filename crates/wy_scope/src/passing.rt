//! What an event passes.

ghost use Rattle.std.specs.Prelude.{◌≡◌};
ghost use Rattle.wy_event.specs.Record.{recorded};
ghost use Rattle.wy_scope.specs.Passing.{arm_taken, passed_by};

use wy_event::record::{Event, Kind};
use wy_kernel::types::NONE;
use wy_static::point::Point;
use wy_value::Value;

/// The arm that a test took by its value.
fn arm_taken(site: u32, value: Value) -> Option<Point>
    ensures { result ≡ arm_taken site value }
{
    match value {
        Value::Arm(arm) => Some(Point::Arm { site, value: arm }),
        _ => None,
    }
}

/// The entry, the class, the clause or the arm that an event passes.
#[tactic(auto, unfolding(wy_event::specs::Record::recorded, wy_kernel::specs::View::present))]
pub(crate) fn point_passed(event: &Event) -> Option<Point>
    ensures { result ≡ passed_by (recorded event.now) }
{
    match event.kind {
        Kind::Call if event.entity != NONE => Some(Point::Entry(event.entity)),
        Kind::Init if event.entity != NONE => Some(Point::Init(event.entity)),
        Kind::Test => arm_taken(event.site, event.value),
        Kind::Catch => Some(Point::Catch(event.site)),
        _ => None,
    }
}
