//! What is kept of a trace on a shelf.

ghost use Rattle.lru.specs.LruCache.{lru_cache, promoted, put_entries};
ghost use Rattle.sha2.specs.Sha256.{sha256};
ghost use Rattle.std.specs.Int.NonZero.{non_zero_usize_get};
ghost use Rattle.std.specs.Map.{lookup};
ghost use Rattle.std.specs.Prelude.{◌≡◌, ◌+◌, ◌-◌, ◌*◌, ◌/◌, ◌%◌, ◌<◌, ◌≤◌, Err, false, IfErr, IfOk, IfSome, IsSome, OnErr, OnOk, Some, is_some, length, nat_eq, slice_get, slice_index, string_bytes};
ghost use Rattle.wy_outside.specs.Counts.{RoseAt};
ghost use Rattle.wy_outside.specs.Shelf.{ReadsPart, is_absent, is_failed};
ghost use Rattle.wy_page.specs.Blocks.{AreBlocks, AreBlocks-prop, ArePlaces, ArePlaces-prop, IsBlock, block_length, held_blocks, size_of_block};
ghost use Rattle.wy_page.specs.Frames.{ReadAs};
ghost use Rattle.wy_view.specs.Counts.{count_after};

use crate::block::read_block;
use lru::LruCache;
use sha2::{Digest, Sha256};
use std::alloc::{AllocError, Global};
use std::num::NonZeroUsize;
use wy_event::record::{Event, Version};
use wy_outside::count::one_more;
use wy_outside::shelf::{Shelf, ShelfError};
use wy_view::ViewError;

/// How many events a block has, but the last.
pub const BLOCK: u32 = 1024;

/// A named file that was read as a trace of a version: where each block of its events begins, where the last ends, and the digest of
/// each block's bytes; the seal of the trace; the blocks that are held, and what was counted.
#[derive(Drop)]
pub struct Pages {
    pub(crate) alloc: Global,
    pub(crate) name: String,
    pub(crate) version: Version,
    pub(crate) starts: Vec<u32>,
    pub(crate) digests: Vec<[u8; 32]>,
    pub(crate) seal: [u8; 32],
    pub(crate) count: u32,
    pub(crate) reads: u64,
    pub(crate) loads: u64,
    pub(crate) changes: u64,
    pub(crate) held: LruCache<u32, Vec<Event>>,
    ghost places: { ArePlaces count starts.items digests.items } by { ArePlaces-prop count starts.items digests.items },
    ghost room: { held.cap ≡ held_blocks },
    ghost blocks: { AreBlocks count held.entries } by { AreBlocks-prop count held.entries },
}

/// The place of a block in the file, and how many bytes it has.
#[derive(Clone, Copy)]
pub(crate) struct Place {
    pub from: u32,
    pub len: u32,
}

// How many blocks are held at most.
fn most_blocks() -> NonZeroUsize
    ensures { non_zero_usize_get result ≡ held_blocks }
{
    match NonZeroUsize::new(64) {
        Some(most) => most,
        None => unreachable!(),
    }
}

impl Pages {
    ghost use Rattle.wy_page.specs.Paged.{IsChange, IsFresh, IsNoBlock, KeepsFile};
    ghost use Rattle.wy_view.specs.declared.view.ViewError.TheVariants.{NoMemory};

    /// What is kept of the named file, before anything is asked for.
    pub(crate) fn fresh(
        alloc: Global,
        name: String,
        version: Version,
        starts: Vec<u32>,
        digests: Vec<[u8; 32]>,
        seal: [u8; 32],
        count: u32,
    ) -> Result<Pages, AllocError>
        requires { ArePlaces count starts.items digests.items }
        ensures version { IfOk result (λ p. p.version ≡ version) }
        ensures starts { IfOk result (λ p. p.starts ≡ starts) }
        ensures digests { IfOk result (λ p. p.digests ≡ digests) }
        ensures seal { IfOk result (λ p. p.seal ≡ seal) }
        ensures count { IfOk result (λ p. p.count ≡ count) }
        ensures fresh { IfOk result (λ p. IsFresh p name) }
    {
        let held = LruCache::new(alloc, most_blocks())?;
        Ok(Pages {
            alloc,
            name,
            version,
            starts,
            digests,
            seal,
            count,
            reads: 0,
            loads: 0,
            changes: 0,
            held,
        })
    }

    /// How many events there are.
    pub fn count(&self) -> u32
        ensures { result ≡ self.now.count }
    {
        self.count
    }

    /// How many blocks were read since the trace was opened.
    pub fn loads(&self) -> u64
        ensures { result ≡ self.now.loads }
    {
        self.loads
    }

    /// The digest that the trace ends with.
    pub fn seal(&self) -> &[u8; 32]
        ensures { result.now ≡ self.now.seal }
    {
        &self.seal
    }

    pub(crate) fn note_read(&mut self)
        ensures file { KeepsFile self.old self.new }
        ensures reads { self.new.reads ≡ count_after self.old.reads 1 }
        ensures held { self.new.held ≡ self.old.held }
        ensures loads { self.new.loads ≡ self.old.loads }
        ensures changes { self.new.changes ≡ self.old.changes }
    {
        self.reads = self.reads.saturating_add(1);
    }

    /// Whether a block is held. It comes first then.
    #[tactic(auto, using(crate::proofs::Held::promoted_blocks))]
    pub(crate) fn brings_first(&mut self, block: u32) -> bool
        ensures there { result ≡ is_some (lookup (nat_eq block) self.old.held.entries) }
        ensures first { self.new.held ≡ lru_cache (promoted (nat_eq block) self.old.held.entries) held_blocks }
        ensures file { KeepsFile self.old self.new }
        ensures reads { self.new.reads ≡ self.old.reads }
        ensures loads { self.new.loads ≡ self.old.loads }
        ensures changes { self.new.changes ≡ self.old.changes }
    {
        self.held.promote(&block)
    }

    pub(crate) fn place(&self, block: u32) -> Place
        requires { block < length self.now.digests.items }
        ensures from { result.from ≡ slice_index self.now.starts.items block }
        ensures len { result.len ≡ slice_index self.now.starts.items (block + 1)
            - slice_index self.now.starts.items block }
    {
        let from = self.starts[block as usize];
        let end = self.starts[block as usize + 1];
        Place {
            from,
            len: end - from,
        }
    }

    /// The bytes of a block, as far as the file has them now.
    #[tactic(auto, using(crate::proofs::Parts::same_part))]
    pub(crate) fn read<S: Shelf>(&self, shelf: &mut S, block: u32) -> Result<Vec<u8>, ShelfError>
        requires { block < length self.now.digests.items }
        ensures content { ReadsPart (S.held shelf.old) (string_bytes self.now.name)
            (slice_index self.now.starts.items block)
            (slice_index self.now.starts.items (block + 1)
            - slice_index self.now.starts.items block) result }
        ensures failed { RoseAt is_failed result (S.faults shelf.old) (S.faults shelf.new) }
        ensures absent { RoseAt is_absent result (S.misses shelf.old) (S.misses shelf.new) }
        ensures got { S.gets shelf.new ≡ count_after (S.gets shelf.old) 1 }
        ensures held { S.held shelf.new ≡ S.held shelf.old }
        ensures faults_kept { S.faults shelf.old ≤ S.faults shelf.new }
        ensures misses_kept { S.misses shelf.old ≤ S.misses shelf.new }
    {
        let place = self.place(block);
        shelf.read_at(self.alloc, self.name.as_str(), place.from, place.len)
    }

    /// Refuses bytes whose digest isn't the one that was kept of a block.
    fn compare(&mut self, block: u32, bytes: &[u8]) -> Result<(), ViewError>
        requires { block < length self.old.digests.items }
        ensures same { IfOk result (λ _.
            (slice_get self.old.digests.items block ≡ Some (sha256 bytes.now))
            × (self.new ≡ self.old)) }
        ensures changed { IfErr result (λ e. IsChange self.old self.new block bytes.now e) }
        ensures file { KeepsFile self.old self.new }
        ensures held { self.new.held ≡ self.old.held }
        ensures changes { self.old.changes ≤ self.new.changes }
    {
        let found = Sha256::digest(bytes);
        let kept = self.digests[block as usize];
        if kept == found {
            return Ok(());
        }
        self.changes = one_more(self.changes);
        Err(ViewError::Changed { block, kept, found })
    }

    fn decode(&self, block: u32, bytes: &[u8]) -> Result<Vec<Event>, AllocError>
        requires { block < length self.now.digests.items }
        ensures block { IfOk result (λ events. IsBlock self.now.count block events.items) }
        ensures read { IfOk result (λ events. ReadAs self.now.version (block_length * block)
            (size_of_block self.now.count block) bytes.now events.items) }
    {
        let count = self.count;
        let first = block * BLOCK;
        read_block(
            self.alloc,
            self.version,
            first,
            BLOCK.min(count - first),
            bytes,
        )
    }

    /// The events of a block, by its bytes, where these have the digest that was kept.
    pub(crate) fn events_of(&mut self, block: u32, bytes: &[u8]) -> Result<Vec<Event>, ViewError>
        requires { block < length self.old.digests.items }
        ensures block { IfOk result (λ events. IsBlock self.old.count block events.items) }
        ensures read { IfOk result (λ events. ReadAs self.old.version (block_length * block)
            (size_of_block self.old.count block) bytes.now events.items) }
        ensures kept { IfOk result (λ _.
            slice_get self.old.digests.items block ≡ Some (sha256 bytes.now)) }
        ensures same { IfOk result (λ _. self.new ≡ self.old) }
        ensures refused { IfErr result (λ e. IsNoBlock self.old self.new block bytes.now e) }
        ensures file { KeepsFile self.old self.new }
        ensures held { self.new.held ≡ self.old.held }
        ensures changes { self.old.changes ≤ self.new.changes }
    {
        match self.compare(block, bytes) {
            Ok(()) => match self.decode(block, bytes) {
                Ok(events) => Ok(events),
                Err(_) => Err(ViewError::NoMemory),
            },
            Err(error) => Err(error),
        }
    }

    /// Holds a block that was read, before all others. The last of 64 goes.
    #[tactic(auto, using(crate::proofs::Held::put_blocks))]
    pub(crate) fn hold(&mut self, block: u32, events: Vec<Event>) -> Result<(), ViewError>
        requires lacks { is_some (lookup (nat_eq block) self.old.held.entries) ≡ false }
        requires block { IsBlock self.old.count block events.items }
        ensures held { OnOk result (self.new.held
            ≡ lru_cache (put_entries nat_eq self.old.held block events) held_blocks) }
        ensures loads { OnOk result (self.new.loads ≡ count_after self.old.loads 1) }
        ensures file { KeepsFile self.old self.new }
        ensures reads { self.new.reads ≡ self.old.reads }
        ensures changes { self.new.changes ≡ self.old.changes }
        ensures err { OnErr result (self.new ≡ self.old) }
        ensures memory { OnErr result (result ≡ Err NoMemory) }
    {
        match self.held.put(block, events) {
            Ok(_) => {
                self.loads = self.loads.saturating_add(1);
                Ok(())
            }
            Err(_) => Err(ViewError::NoMemory),
        }
    }

    /// Event n, whose block is held.
    #[tactic(auto, using(crate::proofs::Held::found_within))]
    pub(crate) fn at(&self, n: u32) -> &Event
        requires within { n < self.now.count }
        requires held { IsSome (lookup (nat_eq (n / block_length)) self.now.held.entries) }
        ensures { IfSome (lookup (nat_eq (n / block_length)) self.now.held.entries)
            (λ events. slice_get events.items (n % block_length) ≡ Some result.now) }
    {
        match self.held.peek(&(n / BLOCK)) {
            Some(events) => &events[(n % BLOCK) as usize],
            None => unreachable!(),
        }
    }
}
