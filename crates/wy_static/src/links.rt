//! The links of a program, found from its ways.

ghost use Rattle.std.specs.Prelude.{◌≡◌, ◌++◌, ◌∷◌, [], ◌↔◌, ℕ, IfOk, IsTrue, OnOk, Some};
ghost use Rattle.std.specs.List.Sorted.{IsStrictlySortedBy};
ghost use Rattle.wy_kernel.specs.Parts.{program_of};
ghost use Rattle.std.specs.Option.{option_or};
ghost use Rattle.wy_static.specs.declared.point.Point.{Point};
ghost use Rattle.wy_static.specs.Seen.{seen_by};
ghost use Rattle.wy_static.specs.Along.{AddsAlong, AddsCall, AreAlong, AreCalled, SameLinks, entry_of, its_standing, kept_at, link_along, links_to_each, method_called};
ghost use Rattle.wy_static.specs.LookUps.{AreLinksOf, standing_at};
ghost use Rattle.wy_static.specs.Order.{link_cmp};
ghost use Rattle.wy_static.specs.Receivers.{AreTargets};
ghost use Rattle.wy_static.specs.Rows.{kept_under, last_of};

use crate::answer::Links;
use crate::class::Targets;
use crate::order::{compare, point_key};
use crate::point::{Link, LinkKind, Point};
use crate::rows::{keep, numbers_under};
use crate::rule::ways_of;
use crate::standing::{Standing, standings_of};
use crate::way::{Goal, Way};
use std::alloc::{AllocError, Global};
use std::collections::BTreeMap;
use wy_calls::Dispatcher;
use wy_kernel::program::Program;

fn put_along(out: &mut Vec<Link>, way: Way, to: Point) -> Result<(), AllocError>
    ensures { OnOk result (out.new.items ≡ out.old.items ++ link_along way to ∷ []) }
{
    out.push(Link {
        kind: way.kind,
        from: way.from,
        to,
        site: way.site,
    })?;
    Ok(())
}

fn put_to_each(out: &mut Vec<Link>, way: Way, methods: &[u32]) -> Result<(), AllocError>
    ensures { OnOk result (out.new.items ≡ out.old.items ++ links_to_each way methods.now) }
{
    for method in methods {
        put_along(out, way, Point::Entry(*method))?;
    }
    Ok(())
}

/// Puts the links along a way behind those that are there.
fn put_way(
    alloc: Global,
    out: &mut Vec<Link>,
    dispatcher: &Dispatcher,
    targets: &mut Targets,
    way: Way,
) -> Result<(), AllocError>
    requires { AreTargets targets.old (seen_by dispatcher.now) }
    ensures added { OnOk result
        (AddsAlong (seen_by dispatcher.now) way out.old.items out.new.items) }
    ensures targets { OnOk result (AreTargets targets.new (seen_by dispatcher.now)) }
{
    match way.goal {
        Goal::Known(point) => put_along(out, way, point),
        Goal::Chosen { method, class } => {
            targets.find(alloc, dispatcher, method, class)?;
            put_to_each(out, way, targets.of(method, class))
        }
    }
}

/// The links along ways, some of them more than once.
fn along(alloc: Global, dispatcher: &Dispatcher, ways: &[Way]) -> Result<Vec<Link>, AllocError>
    ensures { IfOk result (λ links. AreAlong (seen_by dispatcher.now) ways.now links.items) }
{
    let mut targets = Targets::new(alloc, dispatcher.program)?;
    let mut out = Vec::new(alloc);
    for way in ways {
        put_way(alloc, &mut out, dispatcher, &mut targets, *way)?;
    }
    Ok(out)
}

/// Puts links in order, each once.
fn settle(links: &mut Vec<Link>)
    ensures same { SameLinks links.old.items links.new.items }
    ensures in_order { IsStrictlySortedBy link_cmp links.new.items }
{
    links.sort_unstable_by(|a, b| compare(a, b));
    links.dedup_by(|a, b| compare(a, b).is_eq());
}

/// Whether a number is the last that is kept under a key.
fn is_last(rows: &BTreeMap<u32, Vec<u32>>, key: u32, number: u32) -> bool
    ensures { IsTrue result ↔ (last_of (kept_under rows.now key) ≡ Some number) }
{
    match numbers_under(rows, key).last() {
        Some(last) => *last == number,
        None => false,
    }
}

/// The method at whose entry a point is.
fn entry(point: Point) -> Option<u32>
    ensures { result ≡ entry_of point }
{
    match point {
        Point::Entry(method) => Some(method),
        Point::Start | Point::Init(_) | Point::Statement(_) | Point::Arm { .. } | Point::Catch(_) =>
            None,
    }
}

/// The method to whose entry a call leads.
fn called(link: &Link) -> Option<u32>
    ensures { result ≡ method_called link.now }
{
    match link.kind {
        LinkKind::Call => entry(link.to),
        LinkKind::Into | LinkKind::Next | LinkKind::Arm(_) | LinkKind::Catch => None,
    }
}

/// Keeps the method that a link calls, unless it is the last at its site.
fn keep_called(
    alloc: Global,
    targets: &mut BTreeMap<u32, Vec<u32>>,
    link: &Link,
) -> Result<(), AllocError>
    ensures { OnOk result (AddsCall targets.old targets.new link.now) }
{
    let Some(method) = called(link) else {
        return Ok(());
    };
    if is_last(targets, link.site, method) {
        return Ok(());
    }
    keep(alloc, targets, link.site, method)?;
    Ok(())
}

/// The methods to which the calls at each site lead, of links in order.
fn targets_at(alloc: Global, links: &[Link]) -> Result<BTreeMap<u32, Vec<u32>>, AllocError>
    requires { IsStrictlySortedBy link_cmp links.now }
    ensures { IfOk result (λ rows. AreCalled links.now rows) }
{
    let mut targets = BTreeMap::new(alloc);
    for link in links {
        keep_called(alloc, &mut targets, link)?;
    }
    Ok(targets)
}

/// Keeps a standing, unless its point stands already.
fn keep_first(
    standings: &mut BTreeMap<(u8, u32, u32), Standing>,
    standing: Standing,
) -> Result<(), AllocError>
    ensures { OnOk result ((q : Point) → kept_at standings.new q
        ≡ option_or (kept_at standings.old q) (its_standing standing q)) }
{
    let key = point_key(standing.point);
    if !standings.contains_key(&key) {
        standings.insert(key, standing)?;
    }
    Ok(())
}

/// Where each point first stands.
fn standings_at(
    alloc: Global,
    all: &[Standing],
) -> Result<BTreeMap<(u8, u32, u32), Standing>, AllocError>
    ensures { IfOk result (λ kept. (q : Point) → kept_at kept q ≡ standing_at all.now q) }
{
    let mut standings = BTreeMap::new(alloc);
    for standing in all {
        keep_first(&mut standings, *standing)?;
    }
    Ok(standings)
}

/// The links of a program. A number that the program hasn't is refused.
pub fn links(alloc: Global, program: &Program) -> Result<Links, AllocError>
    ensures { IfOk result (λ links. AreLinksOf links (program_of program.now)) }
{
    let dispatcher = Dispatcher::new(alloc, program)?;
    let ways = ways_of(alloc, &dispatcher)?;
    let mut items = along(alloc, &dispatcher, &ways)?;
    settle(&mut items);
    let targets = targets_at(alloc, &items)?;
    let standings = standings_at(alloc, &standings_of(alloc, program)?)?;
    Ok(Links {
        items,
        targets,
        standings,
    })
}
