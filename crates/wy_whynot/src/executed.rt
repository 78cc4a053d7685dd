//! What a run executed.

ghost use Rattle.std.specs.Prelude.{◌≡◌, IfOk, List, length, map};
ghost use Rattle.std.specs.List.{list_any};
ghost use Rattle.wy_event.specs.Record.{Recorded};
ghost use Rattle.wy_index.specs.Index.{IsIndexOf};
ghost use Rattle.wy_whynot.specs.Executed.{caught, cover_of, executed, gave, is_catch, is_test, is_value};

use std::alloc::{AllocError, Global};
use wy_event::record::{Cover, Kind};
use wy_index::{Hit, Index};
use wy_kernel::types::NONE;
use wy_static::point::Point;
use wy_value::Value;

/// What is known of a statement.
pub(crate) fn cover_of(coverage: &[Cover], statement: u32) -> Cover
    ensures { result ≡ cover_of coverage.now statement }
{
    match coverage.get(statement as usize) {
        Some(cover) => *cover,
        None => Cover {
            begins: 0,
            ends: 0,
            first: NONE,
            cause: NONE,
        },
    }
}

pub(crate) fn is_test(kind: Kind) -> bool
    ensures { result ≡ is_test kind }
{
    matches!(kind, Kind::Test)
}

fn is_catch(kind: Kind) -> bool
    ensures { result ≡ is_catch kind }
{
    matches!(kind, Kind::Catch)
}

/// Whether a value is that arm.
pub(crate) fn is_value(arm: u32, value: Value) -> bool
    ensures { result ≡ is_value arm value }
{
    match value {
        Value::Arm(number) => arm == number,
        _ => false,
    }
}

fn gave(arm: u32, hit: &Hit) -> bool
    ensures { result ≡ gave arm hit.now }
{
    is_test(hit.kind) && is_value(arm, hit.value)
}

fn caught(hit: &Hit) -> bool
    ensures { result ≡ caught hit.now }
{
    is_catch(hit.kind)
}

fn any_gave(arm: u32, hits: &[Hit]) -> bool
    ensures { result ≡ list_any (gave arm) hits.now }
{
    hits.iter().any(|hit| gave(arm, hit))
}

fn any_caught(hits: &[Hit]) -> bool
    ensures { result ≡ list_any caught hits.now }
{
    hits.iter().any(|hit| caught(hit))
}

fn is_executed(coverage: &[Cover], index: &Index, point: Point) -> bool
    ensures { (rs : List Recorded) → IsIndexOf index.now rs
        → result ≡ executed rs coverage.now point }
{
    match point {
        Point::Start => true,
        Point::Entry(method) => index.first_call(method) != NONE,
        Point::Init(class) => index.first_init(class) != NONE,
        Point::Statement(number) => cover_of(coverage, number).begins != 0,
        Point::Arm { site, value } => any_gave(value, index.at_site(site)),
        Point::Catch(site) => any_caught(index.at_site(site)),
    }
}

/// Which of points were executed.
pub(crate) fn executed_points(
    alloc: Global,
    coverage: &[Cover],
    index: &Index,
    points: &[Point],
) -> Result<Vec<bool>, AllocError>
    ensures sized { IfOk result (λ begun. length begun.items ≡ length points.now) }
    ensures executed { (rs : List Recorded) → IsIndexOf index.now rs
        → IfOk result (λ begun. begun.items ≡ map (executed rs coverage.now) points.now) }
{
    let mut begun = Vec::new(alloc);
    for point in points {
        begun.push(is_executed(coverage, index, *point))?;
    }
    Ok(begun)
}
