//! The links at which what was met ends on the ways to a point.

ghost use Rattle.std.specs.Prelude.{◌≡◌, All, Bool, IfOk, false, filter, length, map, not, replicate, true};
ghost use Rattle.std.specs.List.{Contains};
ghost use Rattle.wy_static.specs.declared.point.Point.{Point as AnyPoint};
ghost use Rattle.wy_paths.specs.Frontier.{AreFrontier};
ghost use Rattle.wy_paths.specs.Graph.{IsSpread};
ghost use Rattle.wy_paths.specs.Numbers.{AreNumbered, ArePoints, IsFound, IsPlaced, edge_of, is_picked, point_number, turned};

use crate::graph::{Edge, spread};
use crate::order::compare_items;
use crate::points::{edges_of, number};
use std::alloc::{AllocError, Global};
use wy_static::point::{Link, Point};

/// What is known of each point, by its number: whether it was met, whether links lead to it from the start, and whether
/// links lead from it to the goal through points that were not met.
#[derive(Drop)]
pub(crate) struct Found {
    pub(crate) points: Vec<Point>,
    pub(crate) begun: Vec<bool>,
    pub(crate) reached: Vec<bool>,
    pub(crate) leading: Vec<bool>,
}

fn turned(alloc: Global, edges: &[Edge]) -> Result<Vec<Edge>, AllocError>
    ensures { IfOk result (λ back. back.items ≡ map turned edges.now) }
{
    edges
        .iter()
        .map(|edge| Edge {
            from: edge.to,
            to: edge.from,
        })
        .collect(alloc)
}

/// The points that were not met.
fn idle(alloc: Global, begun: &[bool]) -> Result<Vec<bool>, AllocError>
    ensures { IfOk result (λ idle. idle.items ≡ map not begun.now) }
{
    begun.iter().map(|begun| !*begun).collect(alloc)
}

/// The points to which links lead from a point.
fn reached(
    alloc: Global,
    points: &[Point],
    links: &[Link],
    start: Point,
) -> Result<Vec<bool>, AllocError>
    requires numbered { AreNumbered links.now points.now }
    requires start { Contains points.now start }
    ensures { IfOk result (λ marks. IsSpread (map (edge_of points.now) links.now)
        (replicate (length points.now) true) (point_number points.now start) marks.items) }
{
    let edges = edges_of(alloc, points, links)?;
    let open = vec![in alloc; true; points.len()]?;
    let marks = spread(alloc, edges, &open, number(points, start))?;
    Ok(marks)
}

/// The points from which links lead to a point through points that were not met.
fn leading(
    alloc: Global,
    points: &[Point],
    begun: &[bool],
    links: &[Link],
    goal: Point,
) -> Result<Vec<bool>, AllocError>
    requires numbered { AreNumbered links.now points.now }
    requires goal { Contains points.now goal }
    requires sized { length begun.now ≡ length points.now }
    ensures { IfOk result (λ marks. IsSpread (map turned (map (edge_of points.now) links.now))
        (map not begun.now) (point_number points.now goal) marks.items) }
{
    let edges = edges_of(alloc, points, links)?;
    let back = turned(alloc, &edges)?;
    let open = idle(alloc, begun)?;
    let marks = spread(alloc, back, &open, number(points, goal))?;
    Ok(marks)
}

impl Found {
    fn new(
        alloc: Global,
        links: &[Link],
        points: Vec<Point>,
        begun: Vec<bool>,
        start: Point,
        goal: Point,
    ) -> Result<Found, AllocError>
        requires points { ArePoints links.now start goal points.items }
        requires sized { length begun.items ≡ length points.items }
        ensures found { IfOk result (λ found. IsFound links.now start goal found) }
        ensures begun { IfOk result (λ found. found.begun ≡ begun) }
        ensures points { IfOk result (λ found. found.points ≡ points) }
    {
        let reached = reached(alloc, &points, links, start)?;
        let leading = leading(alloc, &points, &begun, links, goal)?;
        Ok(Found {
            points,
            begun,
            reached,
            leading,
        })
    }

    /// Whether a link leads from a point that was met and reached to one that leads on.
    fn picks(&self, link: &Link) -> bool
        requires { IsPlaced self.now link.now }
        ensures { result ≡ is_picked self.now link.now }
    {
        let from = number(&self.points, link.from);
        self.begun[from] && self.reached[from] && self.leading[number(&self.points, link.to)]
    }

    fn picked(&self, alloc: Global, links: &[Link]) -> Result<Vec<Link>, AllocError>
        requires { All (IsPlaced self.now) links.now }
        ensures { IfOk result (λ picked. picked.items ≡ filter (is_picked self.now) links.now) }
    {
        let mut picked = Vec::new(alloc);
        for link in links {
            if self.picks(link) {
                picked.push(*link)?;
            }
        }
        Ok(picked)
    }
}

/// The links at which what was met ends on the ways from a start to a goal that was not met, each once and in order. `begun`
/// says of each of the points whether it was met.
pub fn frontier(
    alloc: Global,
    links: &[Link],
    points: Vec<Point>,
    begun: Vec<bool>,
    start: Point,
    goal: Point,
) -> Result<Vec<Link>, AllocError>
    requires points { ArePoints links.now start goal points.items }
    requires sized { length begun.items ≡ length points.items }
    ensures { (met : AnyPoint → Bool) → begun.items ≡ map met points.items → met goal ≡ false
        → IfOk result (λ found. AreFrontier (Contains links.now) met start goal found.items) }
{
    let found = Found::new(alloc, links, points, begun, start, goal)?;
    let mut frontier = found.picked(alloc, links)?;
    frontier.sort_unstable_by(|a, b| compare_items(a, b));
    frontier.dedup_by(|a, b| compare_items(a, b).is_eq());
    Ok(frontier)
}
