//! The order of points, and that of the links of an answer.

ghost use Rattle.std.specs.Prelude.{◌≡◌};
ghost use Rattle.wy_static.specs.Order.{kind_key, point_cmp, point_key};
ghost use Rattle.wy_paths.specs.Order.{item_cmp};

use std::cmp::Ordering;
use wy_static::point::{Link, LinkKind, Point};

/// What orders points: their kind, and their numbers.
pub fn point_key(point: Point) -> (u8, u32, u32)
    ensures { result ≡ point_key point }
{
    match point {
        Point::Start => (0, 0, 0),
        Point::Entry(method) => (1, method, 0),
        Point::Init(class) => (2, class, 0),
        Point::Statement(number) => (3, number, 0),
        Point::Arm { site, value } => (4, site, value),
        Point::Catch(site) => (5, site, 0),
    }
}

/// The kind of a link, and the value of its arm.
fn kind_key(kind: LinkKind) -> (u8, u32)
    ensures { result ≡ kind_key kind }
{
    match kind {
        LinkKind::Into => (0, 0),
        LinkKind::Next => (1, 0),
        LinkKind::Arm(value) => (2, value),
        LinkKind::Call => (3, 0),
        LinkKind::Catch => (4, 0),
    }
}

pub(crate) fn compare_points(a: Point, b: Point) -> Ordering
    ensures { result ≡ point_cmp a b }
{
    point_key(a).cmp(&point_key(b))
}

/// By site, kind and target, and then by the value of an arm and by source.
pub(crate) fn compare_items(a: &Link, b: &Link) -> Ordering
    ensures { result ≡ item_cmp a.now b.now }
{
    let (kind, other) = (kind_key(a.kind), kind_key(b.kind));
    a.site
        .cmp(&b.site)
        .then(kind.0.cmp(&other.0))
        .then(compare_points(a.to, b.to))
        .then(kind.1.cmp(&other.1))
        .then(compare_points(a.from, b.from))
}
