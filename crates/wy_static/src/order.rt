//! The order of points and of links.

ghost use Rattle.std.specs.Prelude.{◌≡◌};
ghost use Rattle.wy_static.specs.Order.{kind_cmp, kind_key, link_cmp, point_cmp, point_key};

use crate::point::{Link, LinkKind, Point};
use std::cmp::Ordering;

/// What orders points: their kind, and their numbers.
pub fn point_key(point: Point) -> (u8, u32, u32)
    ensures { result ≡ point_key point }
{
    match point {
        Point::Start => (0, 0, 0),
        Point::Entry(method) => (1, method, 0),
        Point::Init(class) => (2, class, 0),
        Point::Statement(number) => (3, number, 0),
        Point::Arm { site, value } => (4, site, value),
        Point::Catch(site) => (5, site, 0),
    }
}

pub fn compare_points(a: Point, b: Point) -> Ordering
    ensures { result ≡ point_cmp a b }
{
    point_key(a).cmp(&point_key(b))
}

fn kind_key(kind: LinkKind) -> (u8, u32)
    ensures { result ≡ kind_key kind }
{
    match kind {
        LinkKind::Into => (0, 0),
        LinkKind::Next => (1, 0),
        LinkKind::Arm(value) => (2, value),
        LinkKind::Call => (3, 0),
        LinkKind::Catch => (4, 0),
    }
}

fn compare_kinds(a: LinkKind, b: LinkKind) -> Ordering
    ensures { result ≡ kind_cmp a b }
{
    kind_key(a).cmp(&kind_key(b))
}

pub fn compare(a: &Link, b: &Link) -> Ordering
    ensures { result ≡ link_cmp a.now b.now }
{
    compare_points(a.to, b.to)
        .then(a.site.cmp(&b.site))
        .then(compare_kinds(a.kind, b.kind))
        .then(compare_points(a.from, b.from))
}
