//! A view of the records of a trace that stays on its shelf.

ghost use Rattle.std.specs.Prelude.{◌≡◌, ◌/◌, ◌<◌, ◌≤◌, IfOk, IsSome, Option, is_ok, length, nat_eq};
ghost use Rattle.std.specs.Map.{lookup};
ghost use Rattle.wy_outside.specs.Shelf.{Files};
ghost use Rattle.wy_page.specs.Blocks.{Asked, block_length};

use crate::error::refusal;
use crate::pages::{BLOCK, Pages};
use std::sync::ledger::Ledger;
use wy_event::record::Event;
use wy_outside::shelf::Shelf;
use wy_view::{EventView, Steps, ViewError};

/// What is kept of a file on a shelf.
pub trait Over {
    /// That it is of what the shelf holds.
    ghost fits: { Self → Option Files → Type 0 };
}

impl Over for Pages {
    ghost use Rattle.wy_page.specs.Paged.{IsOfShelf};

    ghost fits = { IsOfShelf };
}

/// A trace on a shelf that is borrowed for as long as the view is there.
#[derive(Drop)]
pub struct PagedView<'a, S: Shelf, P: Over> {
    shelf: &'a mut S,
    pages: P,
    ghost fits: { ∥ P.fits pages (S.held shelf.now) ∥₁ },
}

impl<'a, S: Shelf, P: Over + Drop> PagedView<'a, S, P> {
    /// A view of what is kept of a file of this shelf.
    pub fn over(shelf: &'a mut S, pages: P) -> PagedView<'a, S, P>
        requires { P.fits pages (S.held shelf.old) }
        ensures same_reference { result.shelf.ghost_name ≡ shelf.entry.ghost_name }
        ensures shelf { result.shelf.now ≡ shelf.old }
        ensures pages { result.pages ≡ pages }
    {
        PagedView { shelf, pages }
    }

    /// Ends the borrow of the shelf.
    pub fn close(self)
        ensures { self.exit.0.now ≡ self.entry.shelf.now }
    {
        let PagedView {
            shelf: _shelf,
            pages: _pages,
        } = self;
    }
}

impl<'a, S: Shelf> PagedView<'a, S, Pages> {
    ghost use Rattle.wy_view.specs.View.{KeepsCounts};
    ghost use Rattle.wy_view.specs.Counts.{count_after};
    ghost use Rattle.wy_page.specs.Blocks.{IsBlock};
    ghost use Rattle.wy_page.specs.Paged.{HasDigest, IsBlockTold, KeepsFile, order_of, told_by};

    /// How many blocks were read since the trace was opened.
    pub fn loads(&self) -> u64
        ensures { result ≡ self.now.pages.loads }
    {
        self.pages.loads()
    }

    /// The digest that the trace ends with. It takes no memory.
    pub fn seal(&self) -> &[u8; 32]
        ensures { result.now ≡ self.now.pages.seal }
    {
        self.pages.seal()
    }

    /// The events of a block, read from the shelf.
    fn load(&mut self, block: u32) -> Result<Vec<Event>, ViewError>
        requires { block < length self.old.pages.digests.items }
        ensures block { IfOk result (λ events. IsBlock self.old.pages.count block events.items) }
        ensures told { IfOk result (λ events.
            IsBlockTold self.old.pages (S.held self.old.shelf.now) block events.items) }
        ensures kept { IfOk result (λ events.
            HasDigest self.old.pages block events.items) }
        ensures counts { KeepsCounts result
            (told_by self.old.pages (S.held self.old.shelf.now) (S.faults self.old.shelf.now)
            (S.misses self.old.shelf.now) self.old.shelf.ghost_name)
            (told_by self.new.pages (S.held self.new.shelf.now) (S.faults self.new.shelf.now)
            (S.misses self.new.shelf.now) self.new.shelf.ghost_name) }
        ensures got { S.gets self.new.shelf.now ≡ count_after (S.gets self.old.shelf.now) 1 }
        ensures file { KeepsFile self.old.pages self.new.pages }
        ensures reads { self.new.pages.reads ≡ self.old.pages.reads }
        ensures held_stay { self.new.pages.held ≡ self.old.pages.held }
        ensures loads_stay { self.new.pages.loads ≡ self.old.pages.loads }
        ensures changes { self.old.pages.changes ≤ self.new.pages.changes }
        ensures same_reference { self.new.shelf.ghost_name ≡ self.old.shelf.ghost_name }
        ensures held { S.held self.new.shelf.now ≡ S.held self.old.shelf.now }
        ensures faults_kept { S.faults self.old.shelf.now ≤ S.faults self.new.shelf.now }
        ensures misses_kept { S.misses self.old.shelf.now ≤ S.misses self.new.shelf.now }
    {
        match self.pages.read(&mut *self.shelf, block) {
            Ok(bytes) => self.pages.events_of(block, bytes.as_slice()),
            Err(error) => Err(refusal(error)),
        }
    }

    /// Has a block held, and first: one that isn't held is read.
    fn ask(&mut self, block: u32) -> Result<(), ViewError>
        requires { block < length self.old.pages.digests.items }
        ensures there { IfOk result (λ _. IsSome (lookup (nat_eq block) self.new.pages.held.entries)) }
        ensures asked { Asked block (is_ok result)
            (order_of self.old.pages (S.gets self.old.shelf.now))
            (order_of self.new.pages (S.gets self.new.shelf.now)) }
        ensures counts { KeepsCounts result
            (told_by self.old.pages (S.held self.old.shelf.now) (S.faults self.old.shelf.now)
            (S.misses self.old.shelf.now) self.old.shelf.ghost_name)
            (told_by self.new.pages (S.held self.new.shelf.now) (S.faults self.new.shelf.now)
            (S.misses self.new.shelf.now) self.new.shelf.ghost_name) }
        ensures file { KeepsFile self.old.pages self.new.pages }
        ensures reads { self.new.pages.reads ≡ self.old.pages.reads }
        ensures changes { self.old.pages.changes ≤ self.new.pages.changes }
        ensures same_reference { self.new.shelf.ghost_name ≡ self.old.shelf.ghost_name }
        ensures held { S.held self.new.shelf.now ≡ S.held self.old.shelf.now }
        ensures faults_kept { S.faults self.old.shelf.now ≤ S.faults self.new.shelf.now }
        ensures misses_kept { S.misses self.old.shelf.now ≤ S.misses self.new.shelf.now }
    {
        if self.pages.brings_first(block) {
            return Ok(());
        }
        match self.load(block) {
            Ok(events) => self.pages.hold(block, events),
            Err(error) => Err(error),
        }
    }
}

impl<'a, S: Shelf> EventView for PagedView<'a, S, Pages> {
    ghost use Rattle.wy_page.specs.Paged.{order_of, told_by};

    ghost tells = { λ v. told_by v.pages (S.held v.shelf.now) (S.faults v.shelf.now)
        (S.misses v.shelf.now) v.shelf.ghost_name };

    ghost asked = { λ old n ok new. Asked (n / block_length) ok
        (order_of old.pages (S.gets old.shelf.now)) (order_of new.pages (S.gets new.shelf.now)) };

    fn count(&self) -> u32 {
        self.pages.count()
    }

    fn event<L: Ledger>(&mut self, n: u32, steps: &mut Steps<L>) -> Result<&Event, ViewError> {
        steps.tick();
        self.pages.note_read();
        match self.ask(n / BLOCK) {
            Ok(()) => Ok(self.pages.at(n)),
            Err(error) => Err(error),
        }
    }
}
