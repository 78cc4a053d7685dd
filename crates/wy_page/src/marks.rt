//! Where the blocks of a trace lie and the digests of their bytes, found while its events are read one after another.

ghost use Rattle.std.specs.Prelude.{◌≡◌, ◌+◌, ◌-◌, ◌<◌, ◌≤◌, ◌++◌, ◌∷◌, [], ℕ, List, OnOk, drop, length};
ghost use Rattle.sha2.specs.Sha256.{sha256};

use crate::pages::BLOCK;
use sha2::{Digest, Sha256};
use std::alloc::{AllocError, Global};

/// Where each whole block begins, and the digest of its bytes; where the block begins that isn't whole yet; how many
/// events there were, and where the last of them ends.
#[derive(Drop)]
pub(crate) struct Marks {
    pub starts: Vec<u32>,
    pub digests: Vec<[u8; 32]>,
    pub from: u32,
    pub count: u32,
    pub end: u32,
    ghost few: { count ≤ end },
    ghost order: { from ≤ end },
}

impl Marks {
    ghost use Rattle.wy_page.specs.Places.{AreAllMarked, AreMarked, RiseTo, part};

    /// Before the first event, which begins there.
    pub fn begin(alloc: Global, at: u32) -> Marks
        ensures marked { (all : List ℕ) → AreMarked result (at ∷ []) all }
        ensures from { result.from ≡ at }
        ensures end { result.end ≡ at }
    {
        Marks {
            starts: Vec::new(alloc),
            digests: Vec::new(alloc),
            from: at,
            count: 0,
            end: at,
        }
    }

    // The events behind the last whole block are one, whose bytes are among these, which begin at a place.
    fn close(&mut self, base: u32, bytes: &[u8]) -> Result<(), AllocError>
        requires from { base ≤ self.old.from }
        requires within { self.old.end ≤ base + length bytes.now }
        ensures starts { OnOk result (self.new.starts.items
            ≡ self.old.starts.items ++ self.old.from ∷ []) }
        ensures digests { OnOk result (self.new.digests.items ≡ self.old.digests.items
            ++ sha256 (part (self.old.from - base) (self.old.end - base) bytes.now) ∷ []) }
        ensures moved { OnOk result (self.new.from ≡ self.old.end) }
        ensures left { base ≤ self.new.from }
        ensures count { self.new.count ≡ self.old.count }
        ensures end { self.new.end ≡ self.old.end }
    {
        let from = (self.from - base) as usize;
        let end = (self.end - base) as usize;
        self.digests.push(Sha256::digest(&bytes[from..end]))?;
        self.starts.push(self.from)?;
        self.from = self.end;
        Ok(())
    }

    // One event more, which ends there.
    fn note(&mut self, base: u32, bytes: &[u8], end: u32) -> Result<(), AllocError>
        requires from { base ≤ self.old.from }
        requires more { self.old.end < end }
        requires within { end ≤ base + length bytes.now }
        ensures marked { OnOk result ((places all : List ℕ) → bytes.now ≡ drop base all
            → AreMarked self.old places all → AreMarked self.new (places ++ end ∷ []) all) }
        ensures from { base ≤ self.new.from }
        ensures end { self.new.end ≡ end }
    {
        self.end = end;
        self.count += 1;
        if self.count % BLOCK == 0 {
            self.close(base, bytes)
        } else {
            Ok(())
        }
    }

    /// Events more, which end there: their bytes are among these, which begin at a place.
    pub fn note_all(&mut self, base: u32, bytes: &[u8], ends: &[u32]) -> Result<(), AllocError>
        requires from { base ≤ self.old.from }
        requires within { self.old.end ≤ base + length bytes.now }
        requires rise { RiseTo (base + length bytes.now) self.old.end ends.now }
        ensures marked { OnOk result ((places all : List ℕ) → bytes.now ≡ drop base all
            → AreMarked self.old places all → AreMarked self.new (places ++ ends.now) all) }
        ensures from { base ≤ self.new.from }
        ensures within { OnOk result (self.new.end ≤ base + length bytes.now) }
    {
        for end in ends {
            self.note(base, bytes, *end)?;
        }
        Ok(())
    }

    // The last block ends where the next one would begin.
    fn bound(&mut self) -> Result<(), AllocError>
        ensures starts { OnOk result (self.new.starts.items
            ≡ self.old.starts.items ++ self.old.from ∷ []) }
        ensures digests { self.new.digests ≡ self.old.digests }
        ensures count { self.new.count ≡ self.old.count }
    {
        self.starts.push(self.from)?;
        Ok(())
    }

    /// No event follows. The last block may have fewer than the others.
    pub fn end(&mut self, bytes: &[u8]) -> Result<(), AllocError>
        requires within { self.old.end ≤ self.old.from + length bytes.now }
        ensures marked { OnOk result ((places all : List ℕ) → bytes.now ≡ drop self.old.from all
            → AreMarked self.old places all
            → AreAllMarked self.new.starts.items self.new.digests.items self.new.count places all) }
    {
        if self.count % BLOCK == 0 {
            return self.bound();
        }
        self.close(self.from, bytes)?;
        self.bound()
    }
}
