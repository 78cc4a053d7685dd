//! Which regions were passed in a scope, and by which event first.

ghost use Rattle.std.specs.Prelude.{◌≡◌, IfOk, List, ℕ, length, map};
ghost use Rattle.wy_kernel.specs.Program as kernel;
ghost use Rattle.wy_event.specs.Record.{Recorded};
ghost use Rattle.wy_static.specs.LookUps.{AreLinksOf};
ghost use Rattle.wy_scope.specs.Kept.{IsFirstBelow, IsScopeTo, first_of_arm, first_of_arms, sooner};
ghost use Rattle.wy_scope.specs.Passing.{passed, passes_at};

use crate::scope::Scope;
use std::alloc::{AllocError, Global};
use wy_static::Links;
use wy_static::point::{Link, LinkKind, Point};

/// The smaller of two numbers, where there are any.
fn sooner(first: Option<u32>, other: Option<u32>) -> Option<u32>
    ensures { result ≡ sooner first other }
{
    match (first, other) {
        (Some(a), Some(b)) => Some(if b < a { b } else { a }),
        (Some(a), None) => Some(a),
        (None, other) => other,
    }
}

/// The first event that took the arm of a link.
fn first_of_arm(scope: &Scope, link: &Link) -> Option<u32>
    ensures { result ≡ first_of_arm scope.now.firsts link.now }
{
    match link.kind {
        LinkKind::Arm(value) => scope.first(Point::Arm {
            site: link.site,
            value,
        }),
        LinkKind::Into | LinkKind::Next | LinkKind::Call | LinkKind::Catch => None,
    }
}

/// The first event that took the arm of one of some links.
fn first_of_arms(scope: &Scope, links: &[Link]) -> Option<u32>
    ensures { result ≡ first_of_arms scope.now.firsts links.now }
{
    let mut first = None;
    for link in links {
        first = sooner(first, first_of_arm(scope, link));
    }
    first
}

/// The first event of the scope that passed a region.
pub(crate) fn first_pass(scope: &Scope, links: &Links, region: Point) -> Option<u32>
    ensures { (p : kernel.Program) (rs : List Recorded) (call : ℕ) → AreLinksOf links.now p
        → IsScopeTo rs call (length rs) scope.now
        → IsFirstBelow (passes_at p rs call region) (length rs) result }
{
    match region {
        Point::Statement(_) => first_of_arms(scope, links.into(region)),
        Point::Start | Point::Entry(_) | Point::Init(_) | Point::Arm { .. } | Point::Catch(_) =>
            scope.first(region),
    }
}

fn is_passed(scope: &Scope, links: &Links, region: Point) -> bool
    ensures { (p : kernel.Program) (rs : List Recorded) (call : ℕ) → AreLinksOf links.now p
        → IsScopeTo rs call (length rs) scope.now → result ≡ passed p rs call region }
{
    first_pass(scope, links, region).is_some()
}

/// Which of regions were passed.
pub(crate) fn passed_regions(
    alloc: Global,
    scope: &Scope,
    links: &Links,
    regions: &[Point],
) -> Result<Vec<bool>, AllocError>
    ensures sized { IfOk result (λ begun. length begun.items ≡ length regions.now) }
    ensures passed { (p : kernel.Program) (rs : List Recorded) (call : ℕ) → AreLinksOf links.now p
        → IsScopeTo rs call (length rs) scope.now
        → IfOk result (λ begun. begun.items ≡ map (passed p rs call) regions.now) }
{
    let mut begun = Vec::new(alloc);
    for region in regions {
        begun.push(is_passed(scope, links, *region))?;
    }
    Ok(begun)
}
