//! What is asked of the links of a program.

ghost use Rattle.std.specs.Prelude.{◌≡◌};
ghost use Rattle.std.specs.Option.{option_map_or};
ghost use Rattle.wy_kernel.specs.Program as kernel;
ghost use Rattle.wy_static.specs.Standings.{standings_of};
ghost use Rattle.wy_static.specs.LookUps.{AreLinksOf, AreTargetsAt, around_of, method_of, standing_at};
ghost use Rattle.wy_static.specs.Links.{AreLinks, AreLinksInto};

use crate::order::{compare_points, point_key};
use crate::point::{Link, Point};
use crate::rows::numbers_under;
use crate::standing::{Standing, initializer_number};
use std::collections::BTreeMap;
use wy_kernel::types::NONE;

/// The links of a program.
#[derive(Drop)]
pub struct Links {
    /// In the order of the points at which they end.
    pub(crate) items: Vec<Link>,
    /// The methods to which the calls at each site lead.
    pub(crate) targets: BTreeMap<u32, Vec<u32>>,
    /// Where each point first stands.
    pub(crate) standings: BTreeMap<(u8, u32, u32), Standing>,
}

impl Links {
    /// All links, in order.
    pub fn all(&self) -> &[Link]
        ensures { (p : kernel.Program) → AreLinksOf self.now p → AreLinks p result.now }
    {
        &self.items
    }

    /// The links that end at a point, in order.
    pub fn into(&self, point: Point) -> &[Link]
        ensures { (p : kernel.Program) → AreLinksOf self.now p → AreLinksInto p point result.now }
    {
        let first = self
            .items
            .partition_point(|link| compare_points(link.to, point).is_lt());
        let from_first = &self.items[first..];
        let many = from_first.partition_point(|link| compare_points(link.to, point).is_le());
        &from_first[..many]
    }

    /// The methods to which the calls at a site may lead, rising.
    pub fn targets(&self, site: u32) -> &[u32]
        ensures { (p : kernel.Program) → AreLinksOf self.now p → AreTargetsAt p site result.now }
    {
        numbers_under(&self.targets, site)
    }

    /// The method in whose body a point stands, for an entry its own, and for an initialization its number behind the methods.
    /// Start has NONE.
    pub fn method(&self, point: Point) -> u32
        ensures { (p : kernel.Program) → AreLinksOf self.now p → result ≡ method_of p point }
    {
        match point {
            Point::Start => NONE,
            Point::Entry(method) => method,
            Point::Init(class) => initializer_number(class),
            Point::Statement(_) | Point::Arm { .. } | Point::Catch(_) => self.method_around(point),
        }
    }

    /// The statement that a point is, or for an arm the one around it, else NONE.
    pub fn around(&self, point: Point) -> u32
        ensures { (p : kernel.Program) → AreLinksOf self.now p → result ≡ around_of p point }
    {
        match self.standing(point) {
            Some(standing) => standing.around,
            None => NONE,
        }
    }

    fn method_around(&self, point: Point) -> u32
        ensures { (p : kernel.Program) → AreLinksOf self.now p → result
            ≡ option_map_or (λ x. x.method) (standing_at (standings_of p) point) NONE }
    {
        match self.standing(point) {
            Some(standing) => standing.method,
            None => NONE,
        }
    }

    fn standing(&self, point: Point) -> Option<Standing>
        ensures { (p : kernel.Program) → AreLinksOf self.now p
            → result ≡ standing_at (standings_of p) point }
    {
        self.standings.get(&point_key(point)).copied()
    }
}
