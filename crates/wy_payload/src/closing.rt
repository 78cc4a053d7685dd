//! The head of a trace, its coverage and how its run ended.

ghost use Rattle.std.specs.Prelude.{◌≡◌, ◌<◌, ◌^◌, length};
ghost use Rattle.wy_payload.specs.Reading.{Gives, block_at, passed, rows_from};
ghost use Rattle.wy_payload.specs.Closing.{cause_rule, count_rule, counts_at, cover_at, coverage_at, first_rule, head_at, last_rule, tail_at};

use crate::fault::{DamageRule, Fault};
use crate::field::{at_most, passing, u8_at, u32_at};
use crate::known::{Known, Role};
use crate::rules;
use std::alloc::Global;
use wy_event::record::{Cover, Coverage, GOING_ON, Head, Tail};
use wy_event::sequence::Sequence;
use wy_kernel::limit::{INPUT_LIMIT, SOURCE_LIMIT, STEPS_LIMIT};
use wy_kernel::types::NONE;

/// The step budget of a trace, and what its events used and wrote in all.
#[derive(Clone, Copy, Debug, PartialEq, Eq)]
pub struct Totals {
    pub steps: u32,
    pub uses: u32,
    pub output: u32,
}

const LAST_STOP: u8 = 11;

#[tactic(auto, unfolding(crate::specs::Reading::block_at))]
fn block(alloc: Global, limit: usize, bytes: &[u8]) -> Result<(Vec<u8>, &[u8]), Fault>
    ensures { Gives (λ x. (x.0.items, x.1.now)) result (block_at limit bytes.now) }
{
    let (length, rest) = at_most(limit, bytes)?;
    let length = length as usize;
    if rest.len() < length {
        return Err(Fault::Broken(DamageRule::Length));
    }
    let (front, rest) = rest.split_at(length);
    Ok((Vec::from_slice(alloc, front)?, rest))
}

/// The head that a payload begins with.
#[tactic(auto, unfolding(crate::specs::Closing::head_at))]
pub fn head(alloc: Global, bytes: &[u8]) -> Result<(Head, &[u8]), Fault>
    ensures { Gives (λ x. (x.0, x.1.now)) result (head_at bytes.now) }
{
    let (steps, rest) = u32_at(bytes)?;
    let rest = passing(rules::range_rule(steps >= 1 && steps <= STEPS_LIMIT), rest)?;
    let (input, rest) = block(alloc, INPUT_LIMIT as usize, rest)?;
    let (source, rest) = block(alloc, SOURCE_LIMIT as usize, rest)?;
    let head = Head {
        steps,
        input: Sequence::new(input),
        source: Sequence::new(source),
    };
    Ok((head, rest))
}

fn of_first(begins: u32, count: usize, n: u32) -> Option<DamageRule>
    ensures { result ≡ first_rule begins count n }
{
    if begins == 0 {
        rules::range_rule(n == NONE)
    } else {
        rules::range_rule(n as usize <= count)
    }
}

#[tactic(auto, unfolding(crate::specs::Closing::cause_rule))]
fn of_cause(earlier: &[Known], n: u32) -> Option<DamageRule>
    ensures { result ≡ cause_rule earlier.now n }
{
    if n == NONE || n == GOING_ON {
        None
    } else {
        rules::of_reference(Role::Leaving, earlier, n)
    }
}

fn of_count(wanted: usize, n: u32) -> Option<DamageRule>
    ensures { result ≡ count_rule wanted n }
{
    if n as usize == wanted {
        None
    } else {
        Some(DamageRule::Count)
    }
}

#[tactic(auto, unfolding(crate::specs::Closing::cover_at))]
fn cover<'a>(earlier: &[Known], bytes: &'a [u8]) -> Result<(Cover, &'a [u8]), Fault>
    ensures { Gives (λ x. (x.0, x.1.now)) result (cover_at earlier.now bytes.now) }
{
    let (begins, rest) = u32_at(bytes)?;
    let (ends, rest) = at_most(begins as usize, rest)?;
    let (first, rest) = u32_at(rest)?;
    let rest = passing(of_first(begins, earlier.len(), first), rest)?;
    let (cause, rest) = u32_at(rest)?;
    let rest = passing(of_cause(earlier, cause), rest)?;
    let cover = Cover {
        begins,
        ends,
        first,
        cause,
    };
    Ok((cover, rest))
}

fn covers_behind<'a>(
    alloc: Global,
    earlier: &[Known],
    count: u32,
    bytes: &'a [u8],
) -> Result<(Vec<Cover>, &'a [u8]), Fault>
    ensures { Gives (λ x. (x.0.items, x.1.now)) result
        (rows_from (cover_at earlier.now) count bytes.now) }
{
    let mut covers = Vec::new(alloc);
    let mut rest = bytes;
    'covers: for _ in 0..count {
        let (one, after) = cover(earlier, rest)?;
        covers.push(one)?;
        rest = after;
    }
    Ok((covers, rest))
}

/// The coverage of so many statements.
#[tactic(auto, unfolding(crate::specs::Closing::coverage_at))]
pub fn coverage<'a>(
    alloc: Global,
    statements: u32,
    earlier: &[Known],
    bytes: &'a [u8],
) -> Result<(Coverage, &'a [u8]), Fault>
    ensures { Gives (λ x. (x.0, x.1.now)) result
        (coverage_at statements earlier.now bytes.now) }
{
    let (count, rest) = u32_at(bytes)?;
    let rest = passing(of_count(statements as usize, count), rest)?;
    let (covers, rest) = covers_behind(alloc, earlier, count, rest)?;
    let statements = Sequence::new(covers);
    Ok((Coverage { statements }, rest))
}

#[tactic(auto, unfolding(crate::specs::Closing::last_rule))]
fn of_last(earlier: &[Known], stop: u8, n: u32) -> Option<DamageRule>
    ensures { result ≡ last_rule earlier.now stop n }
{
    if stop == 1 || stop == LAST_STOP {
        rules::of_reference(Role::Throw, earlier, n)
    } else {
        rules::range_rule(n == NONE)
    }
}

#[tactic(auto, unfolding(crate::specs::Closing::counts_at))]
fn counts(events: usize, totals: Totals, bytes: &[u8]) -> Result<(u32, &[u8]), Fault>
    ensures { Gives (λ x. (x.0, x.1.now)) result
        (counts_at events totals.uses totals.output bytes.now) }
{
    let (n, rest) = u32_at(bytes)?;
    let rest = passing(of_count(events, n), rest)?;
    let (n, rest) = u32_at(rest)?;
    let rest = passing(of_count(totals.uses as usize, n), rest)?;
    let (n, rest) = u32_at(rest)?;
    let rest = passing(of_count(totals.output as usize, n), rest)?;
    Ok((n, rest))
}

/// How the run ended, behind its events and its coverage.
#[tactic(auto, unfolding(crate::specs::Closing::tail_at))]
pub fn tail<'a>(
    earlier: &[Known],
    totals: Totals,
    coverage: Coverage,
    bytes: &'a [u8],
) -> Result<(Tail, &'a [u8]), Fault>
    requires { length earlier.now < 2 ^ 32 }
    ensures { Gives (λ x. (x.0, x.1.now)) result
        (tail_at earlier.now totals coverage bytes.now) }
{
    let (stop, rest) = u8_at(bytes)?;
    let rest = passing(rules::range_rule(stop <= LAST_STOP), rest)?;
    let (last, rest) = u32_at(rest)?;
    let rest = passing(of_last(earlier, stop, last), rest)?;
    let (steps, rest) = at_most(totals.steps as usize, rest)?;
    let (_, rest) = counts(earlier.len(), totals, rest)?;
    let tail = Tail {
        coverage,
        stop,
        last,
        steps,
        events: earlier.len() as u32,
        uses: totals.uses,
        output: totals.output,
    };
    Ok((tail, rest))
}
