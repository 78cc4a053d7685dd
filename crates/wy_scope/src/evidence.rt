//! What a scope shows of a link that it did not cross.

ghost use Rattle.std.specs.Prelude.{◌≡◌, IfOk, List, filter, length, ℕ};
ghost use Rattle.wy_kernel.specs.Program as kernel;
ghost use Rattle.wy_event.specs.Record.{Recorded};
ghost use Rattle.wy_index.specs.Index.{IsIndexOf};
ghost use Rattle.wy_static.specs.LookUps.{AreLinksOf};
ghost use Rattle.wy_whynot.specs.Evidence.{arm_of, is_call_from, targets_of, tests_at};
ghost use Rattle.wy_scope.specs.Evidence.{evidence, evidence_in, made_of};
ghost use Rattle.wy_scope.specs.Kept.{IsScopeTo, is_marked};

use crate::item::ScopeItem;
use crate::scope::Scope;
use std::alloc::{AllocError, Global};
use wy_index::{Hit, Index};
use wy_static::Links;
use wy_static::point::Link;
use wy_whynot::Made;
use wy_whynot::evidence::{arm_of, calls_method, other_tests, targets_of};

/// Those of hits that are in the scope.
fn hits_in_scope(alloc: Global, scope: &Scope, hits: &[Hit]) -> Result<Vec<Hit>, AllocError>
    ensures { IfOk result (λ kept. kept.items ≡ filter (is_marked scope.now) hits.now) }
{
    let mut kept = Vec::new(alloc);
    for hit in hits {
        if scope.holds(hit.event) {
            kept.push(*hit)?;
        }
    }
    Ok(kept)
}

/// The tests that gave another value than that of a link's arm.
fn tests_of(alloc: Global, hits: &[Hit], link: &Link) -> Result<Vec<u32>, AllocError>
    ensures { IfOk result (λ tests. tests.items ≡ tests_at (arm_of link.now.kind) hits.now) }
{
    match arm_of(link.kind) {
        Some(arm) => other_tests(alloc, hits, arm),
        None => Ok(Vec::new(alloc)),
    }
}

/// The methods that were called there, where a link calls one.
fn made_of(alloc: Global, hits: &[Hit], link: &Link, body: u32) -> Result<Vec<Made>, AllocError>
    ensures { IfOk result (λ made. made.items ≡ made_of hits.now link.now body) }
{
    if !calls_method(link) {
        return Ok(Vec::new(alloc));
    }
    let made = targets_of(alloc, hits, body)?;
    Ok(made)
}

/// A link with its evidence.
pub(crate) fn item(
    alloc: Global,
    scope: &Scope,
    links: &Links,
    index: &Index,
    link: &Link,
) -> Result<ScopeItem, AllocError>
    ensures { (p : kernel.Program) (rs : List Recorded) (call : ℕ) → AreLinksOf links.now p
        → IsIndexOf index.now rs → IsScopeTo rs call (length rs) scope.now
        → IfOk result (λ item. evidence_in item ≡ evidence p rs call link.now) }
{
    let hits = hits_in_scope(alloc, scope, index.at_site(link.site))?;
    Ok(ScopeItem {
        link: *link,
        tests: tests_of(alloc, &hits, link)?,
        made: made_of(alloc, &hits, link, links.method(link.from))?,
    })
}
