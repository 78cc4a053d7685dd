//! Points by their numbers.

ghost use Rattle.std.specs.Prelude.{◌≡◌, ◌<◌, IfOk, All, length, map};
ghost use Rattle.std.specs.List.{Contains};
ghost use Rattle.wy_paths.specs.Graph.{LiesIn};
ghost use Rattle.wy_paths.specs.Numbers.{AreNumbered, ArePoints, HasEnds, IsInOrder, edge_of, point_number};

use crate::graph::Edge;
use crate::order::compare_points;
use std::alloc::{AllocError, Global};
use wy_static::point::{Link, Point};

/// The ends of links, the start and the goal, as they come.
fn ends(alloc: Global, links: &[Link], start: Point, goal: Point) -> Result<Vec<Point>, AllocError>
    ensures { IfOk result (λ points. HasEnds links.now start goal points.items) }
{
    let mut points = Vec::new(alloc);
    points.push(start)?;
    points.push(goal)?;
    for link in links {
        points.push(link.from)?;
        points.push(link.to)?;
    }
    Ok(points)
}

/// The ends of links, a start and a goal, in order and each once.
pub fn points_of(
    alloc: Global,
    links: &[Link],
    start: Point,
    goal: Point,
) -> Result<Vec<Point>, AllocError>
    ensures { IfOk result (λ points. ArePoints links.now start goal points.items) }
{
    let mut points = ends(alloc, links, start, goal)?;
    points.sort_unstable_by(|a, b| compare_points(*a, *b));
    points.dedup_by(|a, b| compare_points(*a, *b).is_eq());
    Ok(points)
}

/// The number of a point: its place among points.
pub(crate) fn number(points: &[Point], point: Point) -> usize
    requires in_order { IsInOrder points.now }
    requires there { Contains points.now point }
    ensures place { result ≡ point_number points.now point }
    ensures within { result < length points.now }
{
    points.partition_point(|other| compare_points(*other, point).is_lt())
}

/// Links between numbers.
pub(crate) fn edges_of(
    alloc: Global,
    points: &[Point],
    links: &[Link],
) -> Result<Vec<Edge>, AllocError>
    requires { AreNumbered links.now points.now }
    ensures edges { IfOk result (λ edges. edges.items ≡ map (edge_of points.now) links.now) }
    ensures lie { IfOk result (λ edges. All (LiesIn (length points.now)) edges.items) }
{
    let mut edges = Vec::new(alloc);
    for link in links {
        let from = number(points, link.from);
        let to = number(points, link.to);
        edges.push(Edge { from, to })?;
    }
    Ok(edges)
}
