//! The links between regions.

ghost use Rattle.std.specs.Prelude.{◌≡◌, IfOk, List, filter, map};
ghost use Rattle.wy_scope.specs.declared.region.Located.{Located};
ghost use Rattle.wy_scope.specs.Graph.{between_regions, goes_between, leads_out};
ghost use Rattle.wy_scope.specs.Kept.{AreKept};

use crate::region::region_of;
use std::alloc::{AllocError, Global};
use std::collections::BTreeMap;
use wy_static::point::{Link, LinkKind, Point};
use wy_whynot::evidence::site_of_tests;

fn leads_out(kind: LinkKind) -> bool
    ensures { result ≡ leads_out kind }
{
    match kind {
        LinkKind::Arm(_) | LinkKind::Call | LinkKind::Catch => true,
        LinkKind::Into | LinkKind::Next => false,
    }
}

/// Whether a link leads out of a region.
fn goes_between(link: &Link) -> bool
    ensures { result ≡ goes_between link.now }
{
    leads_out(link.kind) && !matches!(link.from, Point::Start)
}

/// The link from the region in which its source stands.
fn between_regions(kept: &BTreeMap<u32, Point>, link: &Link) -> Link
    ensures { (all : List Located) → AreKept all kept.now → result ≡ between_regions all link.now }
{
    Link {
        kind: link.kind,
        from: region_of(kept, link.from),
        to: link.to,
        site: site_of_tests(link),
    }
}

/// Those of the links of a program that lead out of a region, from their regions.
pub(crate) fn scoped_links(
    alloc: Global,
    kept: &BTreeMap<u32, Point>,
    links: &[Link],
) -> Result<Vec<Link>, AllocError>
    ensures { (all : List Located) → AreKept all kept.now → IfOk result (λ found.
        found.items ≡ map (between_regions all) (filter goes_between links.now)) }
{
    let mut found = Vec::new(alloc);
    for link in links {
        if goes_between(link) {
            found.push(between_regions(kept, link))?;
        }
    }
    Ok(found)
}
