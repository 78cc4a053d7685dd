//! The answer to why the guards around a statement were not passed in a call.

ghost use Rattle.std.specs.Prelude.{◌≡◌, ◌<◌, ◌≤◌, IfOk, List, Some, ℕ, length, map};
ghost use Rattle.wy_kernel.specs.Parts.{program_of};
ghost use Rattle.wy_kernel.specs.Program as kernel;
ghost use Rattle.wy_event.specs.Record.{Recorded};
ghost use Rattle.wy_index.specs.Index.{IsIndexOf, IsIndexOfView};
ghost use Rattle.wy_static.specs.LookUps.{AreLinksOf};
ghost use Rattle.wy_view.specs.Counts.{RoseAtMost};
ghost use Rattle.wy_view.specs.View.{Keeps};
ghost use Rattle.wy_scope.specs.Evidence.{evidence, evidence_in};
ghost use Rattle.wy_scope.specs.Items.{AreBlockedBetween, KeepsView, ScopedIs};
ghost use Rattle.wy_scope.specs.Kept.{IsScopeTo};

use crate::evidence::item;
use crate::graph::scoped_links;
use crate::item::{ScopeError, ScopeItem};
use crate::passed::{first_pass, passed_regions};
use crate::region::{region_of, regions_of};
use crate::scope::{Scope, scope_of};
use std::alloc::{AllocError, Global};
use std::sync::ledger::Ledger;
use wy_index::Index;
use wy_kernel::program::Program;
use wy_paths::{frontier, points_of};
use wy_static::Links;
use wy_static::point::{Link, Point};
use wy_view::{EventView, Steps};

/// The links between regions that the scope reached and did not cross on the ways to a region that it did not pass.
fn blocked_links(
    alloc: Global,
    scope: &Scope,
    links: &Links,
    between: &[Link],
    region: Point,
) -> Result<Vec<Link>, AllocError>
    ensures { (p : kernel.Program) (rs : List Recorded) (call : ℕ) → AreLinksOf links.now p
        → IsScopeTo rs call (length rs) scope.now
        → IfOk result (λ blocked. AreBlockedBetween p rs call region between.now blocked.items) }
{
    let points = points_of(alloc, between, scope.entry, region)?;
    let passed = passed_regions(alloc, scope, links, &points)?;
    let blocked = frontier(alloc, between, points, passed, scope.entry, region)?;
    Ok(blocked)
}

fn items(
    alloc: Global,
    scope: &Scope,
    links: &Links,
    index: &Index,
    blocked: &[Link],
) -> Result<Vec<ScopeItem>, AllocError>
    ensures { (p : kernel.Program) (rs : List Recorded) (call : ℕ) → AreLinksOf links.now p
        → IsIndexOf index.now rs → IsScopeTo rs call (length rs) scope.now → IfOk result (λ items.
        map evidence_in items.items ≡ map (evidence p rs call) blocked.now) }
{
    let mut items = Vec::new(alloc);
    for link in blocked {
        items.push(item(alloc, scope, links, index, link)?)?;
    }
    Ok(items)
}

/// Why the regions around a statement were not passed in the scope of a call: the links between regions that the scope
/// reached and did not cross on the ways to it. Each event from the call on is looked at once. It needs an index of the view,
/// and the program of its trace with its links; that the event is a Call is for the caller to see to.
pub fn scoped<V: EventView, L: Ledger>(
    alloc: Global,
    program: &Program,
    links: &Links,
    view: &mut V,
    index: &Index,
    call: u32,
    statement: u32,
    steps: &mut Steps<L>,
) -> Result<Vec<ScopeItem>, ScopeError>
    requires there { call < (V.tells view.old).count }
    requires links { AreLinksOf links.now (program_of program.now) }
    requires index { IsIndexOfView index.now (V.tells view.old) }
    ensures answer { (rs : List Recorded) → (V.tells view.old).records ≡ Some rs
        → ScopedIs (program_of program.now) rs call statement result }
    ensures keeps { Keeps (V.tells view.old) (V.tells view.new) }
    ensures answers { KeepsView result (V.tells view.old) (V.tells view.new) }
    ensures reads { RoseAtMost (V.tells view.old).count
        (V.tells view.old).reads (V.tells view.new).reads }
    ensures forward { steps.old ≤ steps.new }
{
    let scope = scope_of(alloc, view, call, steps)?;
    let regions = regions_of(alloc, program)?;
    let region = region_of(&regions, Point::Statement(statement));
    if let Some(event) = first_pass(&scope, links, region) {
        return Err(ScopeError::Passed { event });
    }
    let between = scoped_links(alloc, &regions, links.all())?;
    let blocked = blocked_links(alloc, &scope, links, &between, region)?;
    let items = items(alloc, &scope, links, index, &blocked)?;
    Ok(items)
}
