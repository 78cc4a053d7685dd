//! What a run shows of a link that it did not cross.

ghost use Rattle.std.specs.Prelude.{◌≡◌, IfOk, List, OnOk, filter};
ghost use Rattle.wy_kernel.specs.Program as kernel;
ghost use Rattle.wy_event.specs.Record.{Recorded};
ghost use Rattle.wy_index.specs.Index.{IsIndexOf};
ghost use Rattle.wy_static.specs.LookUps.{AreLinksOf};
ghost use Rattle.wy_whynot.specs.Evidence.{arm_of, calls_method, cause_of, events_of, evidence, evidence_in, gave_another, is_call_from, made_of, site_of_tests, targets_of, tests_of};
ghost use Rattle.wy_whynot.specs.Targets.{KnowsTargets, with_target};

use crate::executed::{cover_of, is_test, is_value};
use crate::item::{Item, Made};
use std::alloc::{AllocError, Global};
use std::collections::BTreeSet;
use wy_event::record::{Cover, GOING_ON, Kind};
use wy_index::{Hit, Index};
use wy_kernel::types::NONE;
use wy_static::Links;
use wy_static::point::{Link, LinkKind, Point};

fn gave_another(arm: u32, hit: &Hit) -> bool
    ensures { result ≡ gave_another arm hit.now }
{
    is_test(hit.kind) && !is_value(arm, hit.value)
}

/// The value of an arm.
pub fn arm_of(kind: LinkKind) -> Option<u32>
    ensures { result ≡ arm_of kind }
{
    match kind {
        LinkKind::Arm(arm) => Some(arm),
        LinkKind::Into | LinkKind::Next | LinkKind::Call | LinkKind::Catch => None,
    }
}

/// The site at which the tests of a link's arm stand, and that of the link where it is no arm.
pub fn site_of_tests(link: &Link) -> u32
    ensures { result ≡ site_of_tests link.now link.now.to }
{
    match link.to {
        Point::Arm { site, .. } => site,
        _ => link.site,
    }
}

/// The tests that gave another value than that of an arm.
pub fn other_tests(alloc: Global, hits: &[Hit], arm: u32) -> Result<Vec<u32>, AllocError>
    ensures { IfOk result (λ tests. tests.items ≡ events_of (filter (gave_another arm) hits.now)) }
{
    let mut tests = Vec::new(alloc);
    for hit in hits {
        if gave_another(arm, hit) {
            tests.push(hit.event)?;
        }
    }
    Ok(tests)
}

/// The tests that gave another value than that of a link's arm.
fn tests_of(alloc: Global, index: &Index, link: &Link) -> Result<Vec<u32>, AllocError>
    ensures { (rs : List Recorded) → IsIndexOf index.now rs
        → IfOk result (λ tests. tests.items ≡ tests_of link.now rs) }
{
    let Some(arm) = arm_of(link.kind) else {
        return Ok(Vec::new(alloc));
    };
    let tests = other_tests(alloc, index.at_site(site_of_tests(link)), arm)?;
    Ok(tests)
}

fn is_call_from(body: u32, hit: &Hit) -> bool
    ensures { result ≡ is_call_from body hit.now }
{
    matches!(hit.kind, Kind::Call) && hit.caller == body
}

/// Notes the target of a call, if it is the first one with it.
fn note(methods: &mut BTreeSet<u32>, made: &mut Vec<Made>, call: &Hit) -> Result<(), AllocError>
    ensures { OnOk result (KnowsTargets methods.old made.old.items
        → KnowsTargets methods.new made.new.items
        × (made.new.items ≡ with_target made.old.items call.now)) }
{
    if methods.insert(call.entity)? {
        made.push(Made {
            method: call.entity,
            event: call.event,
        })?;
    }
    Ok(())
}

/// The targets of the calls from a body, each with its first event.
pub fn targets_of(alloc: Global, hits: &[Hit], body: u32) -> Result<Vec<Made>, AllocError>
    ensures { IfOk result (λ made. made.items ≡ targets_of (filter (is_call_from body) hits.now)) }
{
    let mut methods = BTreeSet::new(alloc);
    let mut made = Vec::new(alloc);
    for hit in hits {
        if is_call_from(body, hit) {
            note(&mut methods, &mut made, hit)?;
        }
    }
    Ok(made)
}

/// Whether a link calls a method.
pub fn calls_method(link: &Link) -> bool
    ensures { result ≡ calls_method link.now }
{
    matches!(link.kind, LinkKind::Call) && matches!(link.to, Point::Entry(_))
}

/// The methods that were called at the site of a link, where it calls one.
fn made_of(alloc: Global, index: &Index, link: &Link, body: u32) -> Result<Vec<Made>, AllocError>
    ensures { (rs : List Recorded) → IsIndexOf index.now rs
        → IfOk result (λ made. made.items ≡ made_of link.now rs body) }
{
    if !calls_method(link) {
        return Ok(Vec::new(alloc));
    }
    let made = targets_of(alloc, index.at_site(link.site), body)?;
    Ok(made)
}

/// The cause of a statement, if there is one.
#[tactic(auto, unfolding(crate::specs::Evidence::cause_of))]
fn cause_of(coverage: &[Cover], statement: u32) -> u32
    ensures { result ≡ cause_of coverage.now statement }
{
    if statement == NONE {
        GOING_ON
    } else {
        cover_of(coverage, statement).cause
    }
}

/// A link with its evidence.
pub(crate) fn item(
    alloc: Global,
    links: &Links,
    coverage: &[Cover],
    index: &Index,
    link: &Link,
) -> Result<Item, AllocError>
    ensures { (p : kernel.Program) (rs : List Recorded)
        → AreLinksOf links.now p → IsIndexOf index.now rs
        → IfOk result (λ item. evidence_in item ≡ evidence p rs coverage.now link.now) }
{
    Ok(Item {
        link: *link,
        tests: tests_of(alloc, index, link)?,
        made: made_of(alloc, index, link, links.method(link.from))?,
        cause: cause_of(coverage, links.around(link.from)),
    })
}
