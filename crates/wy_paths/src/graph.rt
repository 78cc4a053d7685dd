//! Edges between numbered points, and where they lead.

ghost use Rattle.std.specs.Prelude.{◌≡◌, ◌<◌, ◌↔◌, All, IfOk, IsPermutation, OnOk, [], ◌∷◌, length};
ghost use Rattle.std.specs.List.{Contains};
ghost use Rattle.std.specs.List.Sorted.{IsNonDecreasingBy};
ghost use Rattle.wy_paths.specs.declared.graph.Edge.{Edge};
ghost use Rattle.wy_paths.specs.Graph.{HasVisited, IsSpread, LiesIn, ends_of};

use std::alloc::{AllocError, Global};

/// An edge from a point to a point, by their numbers.
#[derive(Clone, Copy, Debug)]
pub(crate) struct Edge {
    pub(crate) from: usize,
    pub(crate) to: usize,
}

/// Which points were met, and those of them whose edges are still to be followed.
#[derive(Drop)]
struct Walk {
    marks: Vec<bool>,
    waiting: Vec<usize>,
}

/// Edges by the points at which they begin.
fn in_order(edges: Vec<Edge>) -> Vec<Edge>
    ensures permutation { IsPermutation edges.items result.items }
    ensures sorted { IsNonDecreasingBy (λ e. e.from) result.items }
{
    let mut edges = edges;
    edges.sort_unstable_by_key(|edge| edge.from);
    edges
}

/// Those of edges in order that begin at a point.
fn edges_from(edges: &[Edge], point: usize) -> &[Edge]
    requires { IsNonDecreasingBy (λ e. e.from) edges.now }
    ensures { (e : Edge) → Contains result.now e ↔ (Contains edges.now e × (e.from ≡ point)) }
{
    let low = edges.partition_point(|edge| edge.from < point);
    let high = edges.partition_point(|edge| edge.from <= point);
    &edges[low..high]
}

impl Walk {
    /// Meets a point, if it is open.
    fn visit(&mut self, open: &[bool], point: usize) -> Result<(), AllocError>
        requires sized { length self.old.marks.items ≡ length open.now }
        requires lies { point < length open.now }
        ensures visited { OnOk result (HasVisited open.now (point ∷ []) self.old self.new) }
    {
        if open[point] && !self.marks[point] {
            self.marks[point] = true;
            self.waiting.push(point)?;
        }
        Ok(())
    }

    /// Meets the points at which edges end.
    fn visit_all(&mut self, open: &[bool], edges: &[Edge]) -> Result<(), AllocError>
        requires sized { length self.old.marks.items ≡ length open.now }
        requires lie { All (LiesIn (length open.now)) edges.now }
        ensures visited { OnOk result (HasVisited open.now (ends_of edges.now) self.old self.new) }
    {
        for edge in edges {
            self.visit(open, edge.to)?;
        }
        Ok(())
    }
}

/// Marks of the points to which edges in order lead from a point through open points alone.
fn walked(
    alloc: Global,
    edges: &[Edge],
    open: &[bool],
    start: usize,
) -> Result<Vec<bool>, AllocError>
    requires sorted { IsNonDecreasingBy (λ e. e.from) edges.now }
    requires lie { All (LiesIn (length open.now)) edges.now }
    requires start { start < length open.now }
    ensures { IfOk result (λ marks. IsSpread edges.now open.now start marks.items) }
{
    let mut walk = Walk {
        marks: vec![in alloc; false; open.len()]?,
        waiting: Vec::new(alloc),
    };
    walk.visit(open, start)?;
    while let Some(point) = walk.waiting.pop() {
        walk.visit_all(open, edges_from(edges, point))?;
    }
    let Walk { marks, waiting: _ } = walk;
    Ok(marks)
}

/// Marks of the points to which edges lead from a point, itself among them, through open points alone.
pub(crate) fn spread(
    alloc: Global,
    edges: Vec<Edge>,
    open: &[bool],
    start: usize,
) -> Result<Vec<bool>, AllocError>
    requires lie { All (LiesIn (length open.now)) edges.items }
    requires start { start < length open.now }
    ensures { IfOk result (λ marks. IsSpread edges.items open.now start marks.items) }
{
    let edges = in_order(edges);
    let marks = walked(alloc, &edges, open, start)?;
    Ok(marks)
}
