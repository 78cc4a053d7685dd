//! The writes of a trace, by their slots.

ghost use Rattle.std.specs.Prelude.{◌≡◌, ◌⊎◌, ◌+◌, ◌*◌, ◌-◌, ◌^◌, ◌<◌, ◌≤◌, ℕ, List, length, slice_get, Some, IfSome, IsPermutation};
ghost use Rattle.wy_index.specs.declared.posting.Posting.{Posting};
ghost use Rattle.wy_index.specs.Finds.{IsFound, IsGap, IsLastBefore};
ghost use Rattle.wy_index.specs.Halving.{IsHalvings};
ghost use Rattle.wy_index.specs.Order.{IsInOrder, posting_cmp};

use crate::slot;
use std::cmp::Ordering;
use std::marker::Model;
use std::sync::ledger::Ledger;
use wy_event::record::Slot;
use wy_view::Steps;

/// A write: the slot, and the event that wrote it.
#[derive(Clone, Copy, Debug, PartialEq, Eq)]
pub struct Posting {
    pub slot: Slot,
    pub event: u32,
}

/// A posting and its place among all, as a look-up found it.
#[derive(Clone, Copy)]
pub(crate) struct Find {
    pub(crate) place: u32,
    pub(crate) posting: Posting,
}

/// The places from `low` on and below `high`, which are still to be looked at for what comes before a posting.
/// All before `low` do, and `last` is the last of them, if there is one; none from `high` on does.
#[derive(Clone, Copy)]
struct Gap {
    low: u32,
    high: u32,
    last: Posting,
}

/// Postings in order: by slot, and then by event.
#[derive(Drop)]
pub struct Postings {
    items: Vec<Posting>,
}

impl Model for Postings {
    ghost use Rattle.std.specs.Prelude.{List, ◌<◌, ◌^◌, length};
    ghost use Rattle.wy_index.specs.declared.posting.Posting.{Posting};
    ghost use Rattle.wy_index.specs.Order.{IsInOrder};

    ghost Value = { List Posting };

    ghost view = { λ p. p.items.items };

    ghost invariant = { λ p. (length p.items.items < 2 ^ 32) × IsInOrder p.items.items };
}

fn compare(a: &Posting, b: &Posting) -> Ordering
    ensures { result ≡ posting_cmp a.now b.now }
{
    slot::compare(a.slot, b.slot).then(a.event.cmp(&b.event))
}

impl Postings {
    pub fn new(items: Vec<Posting>) -> Postings
        requires { length items.items < 2 ^ 32 }
        ensures permutation { IsPermutation items.items result }
        ensures in_order { IsInOrder result }
    {
        let mut items = items;
        items.sort_unstable_by(|a, b| compare(a, b));
        Postings { items }
    }

    pub fn len(&self) -> u32
        ensures { result ≡ length self.now }
    {
        self.items.len() as u32
    }

    /// One posting: one step. No other call reads one.
    pub fn at<L: Ledger>(&self, i: u32, steps: &mut Steps<L>) -> Posting
        requires { i < length self.now }
        ensures posting { slice_get self.now i ≡ Some result }
        ensures step { steps.new ≡ steps.old + 1 }
    {
        steps.tick();
        self.items[i as usize]
    }

    /// The last that comes before a posting. What another look-up found tells where to look first, beside it.
    pub(crate) fn last_before<L: Ledger>(
        &self,
        target: Posting,
        near: Option<Find>,
        steps: &mut Steps<L>,
    ) -> Option<Find>
        requires near { IfSome near (IsFound self.now) }
        ensures last { IsLastBefore self.now target result }
        ensures forward { steps.old ≤ steps.new }
        ensures steps { (l : ℕ) → IsHalvings (length self.now) l → steps.new ≤ steps.old + (l + 1) }
    {
        let gap = self.beside(target, near, steps);
        let gap = self.closed(target, gap, steps);
        if gap.low == 0 {
            return None;
        }
        Some(Find {
            place: gap.low - 1,
            posting: gap.last,
        })
    }

    /// What is left to look at when the neighbour of a posting that was found was looked at: one step at most.
    fn beside<L: Ledger>(&self, target: Posting, near: Option<Find>, steps: &mut Steps<L>) -> Gap
        requires near { IfSome near (IsFound self.now) }
        ensures gap { IsGap self.now target result }
        ensures forward { steps.old ≤ steps.new }
        ensures steps { steps.new ≤ steps.old + 1 }
    {
        let gap = self.parted(target, near);
        if gap.low == gap.high {
            return gap;
        }
        let neighbour = if gap.low == 0 { gap.high - 1 } else { gap.low };
        self.look(target, gap, neighbour, steps)
    }

    /// What is left to look at by what was found alone.
    fn parted(&self, target: Posting, near: Option<Find>) -> Gap
        requires near { IfSome near (IsFound self.now) }
        ensures { IsGap self.now target result }
    {
        match near {
            Some(find) => self.cut(target, find),
            None => Gap {
                low: 0,
                high: self.items.len() as u32,
                last: target,
            },
        }
    }

    fn cut(&self, target: Posting, find: Find) -> Gap
        requires found { IsFound self.now find }
        ensures { IsGap self.now target result }
    {
        let high = self.items.len() as u32;
        if compare(&find.posting, &target).is_lt() {
            Gap {
                low: find.place + 1,
                high,
                last: find.posting,
            }
        } else {
            Gap {
                low: 0,
                high: find.place,
                last: target,
            }
        }
    }

    /// Looks at a place: one step.
    fn look<L: Ledger>(&self, target: Posting, gap: Gap, place: u32, steps: &mut Steps<L>) -> Gap
        requires gap { IsGap self.now target gap }
        requires from { gap.low ≤ place }
        requires below { place < gap.high }
        ensures gap { IsGap self.now target result }
        ensures narrower { ((result.low ≡ place + 1) × (result.high ≡ gap.high))
            ⊎ ((result.low ≡ gap.low) × (result.high ≡ place)) }
        ensures step { steps.new ≡ steps.old + 1 }
    {
        let posting = self.at(place, steps);
        if compare(&posting, &target).is_lt() {
            Gap {
                low: place + 1,
                high: gap.high,
                last: posting,
            }
        } else {
            Gap {
                low: gap.low,
                high: place,
                last: gap.last,
            }
        }
    }

    /// Halves what is left until nothing is: each look is a step.
    fn closed<L: Ledger>(&self, target: Posting, gap: Gap, steps: &mut Steps<L>) -> Gap
        requires gap { IsGap self.now target gap }
        ensures gap { IsGap self.now target result }
        ensures closed { result.low ≡ result.high }
        ensures forward { steps.old ≤ steps.new }
        ensures steps { 2 ^ (steps.new - steps.old) ≤ 2 * length self.now + 1 }
    {
        let mut gap = gap;
        while gap.low < gap.high {
            let middle = gap.low + (gap.high - gap.low) / 2;
            gap = self.look(target, gap, middle, steps);
        }
        gap
    }
}
