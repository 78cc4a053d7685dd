//! A shelf in memory: it tells its files, and exactly the listed calls fail.
ghost use Rattle.std.specs.Prelude.{◌≡◌, ◌≤◌, Some, IfOk, vec_len};
ghost use Rattle.wy_outside.specs.Counts.{count_after, RoseAt};
ghost use Rattle.wy_outside.specs.Failing.{uncalled, fails_next, after_call, FailsExactly};
ghost use Rattle.wy_outside.specs.Shelf.{files_of, AreDistinct, is_failed, is_absent, ReadsFile, ReadsPart, Reaches, RoseWhenFull, RoseWhenReached};

use crate::count::ShelfCounts;
use crate::failing::FailingCalls;
use crate::memory::files::{held_reaches, read_held, read_held_at};
use crate::shelf::{Shelf, ShelfError};
use std::alloc::Global;

/// Files in memory.
#[derive(Drop)]
pub struct MemoryShelf {
    files: Vec<(String, Vec<u8>)>,
    script: FailingCalls,
    counts: ShelfCounts,
}

impl MemoryShelf {
    /// The files by name, and the numbers of the calls that fail, counted from 1.
    pub fn new(files: Vec<(String, Vec<u8>)>, fails: Vec<u32>) -> Self
        requires { AreDistinct files.items }
        ensures held { ⟦<MemoryShelf as Shelf>⟧.held result ≡ Some (files_of files.items) }
        ensures script { result.script ≡ uncalled fails }
        ensures faults { ⟦<MemoryShelf as Shelf>⟧.faults result ≡ 0 }
        ensures misses { ⟦<MemoryShelf as Shelf>⟧.misses result ≡ 0 }
        ensures fulls { ⟦<MemoryShelf as Shelf>⟧.fulls result ≡ 0 }
        ensures gets { ⟦<MemoryShelf as Shelf>⟧.gets result ≡ 0 }
    {
        MemoryShelf {
            files,
            script: FailingCalls::new(fails),
            counts: ShelfCounts::new(),
        }
    }
}

impl Shelf for MemoryShelf {
    ghost held = { λ s. Some (files_of s.files.items) };

    ghost faults = { λ s. s.counts.faults };

    ghost misses = { λ s. s.counts.misses };

    ghost fulls = { λ s. s.counts.fulls };

    ghost gets = { λ s. s.counts.gets };

    fn read(&mut self, alloc: Global, name: &str, max: u32) -> Result<Vec<u8>, ShelfError>
        ensures fails { FailsExactly is_failed (fails_next self.old.script) result }
        ensures script { self.new.script ≡ after_call self.old.script }
        ensures files_stay { self.new.files ≡ self.old.files }
        ensures content { ReadsFile (Some (files_of self.old.files.items)) name.now max result }
        ensures bound { IfOk result (λ bytes. vec_len bytes ≤ max) }
        ensures failed { RoseAt is_failed result self.old.counts.faults self.new.counts.faults }
        ensures absent { RoseAt is_absent result self.old.counts.misses self.new.counts.misses }
        ensures full { RoseWhenFull max result self.old.counts.fulls self.new.counts.fulls }
        ensures got { self.new.counts.gets ≡ count_after self.old.counts.gets 1 }
        ensures faults_kept { self.old.counts.faults ≤ self.new.counts.faults }
        ensures misses_kept { self.old.counts.misses ≤ self.new.counts.misses }
        ensures fulls_kept { self.old.counts.fulls ≤ self.new.counts.fulls }
        ensures gets_kept { self.old.counts.gets ≤ self.new.counts.gets }
    {
        let answer = if self.script.count_call() {
            Err(ShelfError::Failed)
        } else {
            read_held(alloc, &self.files, name, max)
        };
        self.counts.count_read(&answer, max);
        answer
    }

    fn read_at(
        &mut self,
        alloc: Global,
        name: &str,
        from: u32,
        len: u32,
    ) -> Result<Vec<u8>, ShelfError>
        ensures fails { FailsExactly is_failed (fails_next self.old.script) result }
        ensures script { self.new.script ≡ after_call self.old.script }
        ensures files_stay { self.new.files ≡ self.old.files }
        ensures content { ReadsPart (Some (files_of self.old.files.items)) name.now from len result }
        ensures bound { IfOk result (λ bytes. vec_len bytes ≤ len) }
        ensures failed { RoseAt is_failed result self.old.counts.faults self.new.counts.faults }
        ensures absent { RoseAt is_absent result self.old.counts.misses self.new.counts.misses }
        ensures full { self.new.counts.fulls ≡ self.old.counts.fulls }
        ensures got { self.new.counts.gets ≡ count_after self.old.counts.gets 1 }
        ensures faults_kept { self.old.counts.faults ≤ self.new.counts.faults }
        ensures misses_kept { self.old.counts.misses ≤ self.new.counts.misses }
        ensures gets_kept { self.old.counts.gets ≤ self.new.counts.gets }
    {
        let answer = if self.script.count_call() {
            Err(ShelfError::Failed)
        } else {
            read_held_at(alloc, &self.files, name, from, len)
        };
        self.counts.count_read_at(&answer);
        answer
    }

    fn reaches(&mut self, name: &str, size: u32) -> Result<bool, ShelfError>
        ensures fails { FailsExactly is_failed (fails_next self.old.script) result }
        ensures script { self.new.script ≡ after_call self.old.script }
        ensures files_stay { self.new.files ≡ self.old.files }
        ensures content { Reaches (Some (files_of self.old.files.items)) name.now size result }
        ensures failed { RoseAt is_failed result self.old.counts.faults self.new.counts.faults }
        ensures absent { RoseAt is_absent result self.old.counts.misses self.new.counts.misses }
        ensures full { RoseWhenReached result self.old.counts.fulls self.new.counts.fulls }
        ensures got { self.new.counts.gets ≡ self.old.counts.gets }
        ensures faults_kept { self.old.counts.faults ≤ self.new.counts.faults }
        ensures misses_kept { self.old.counts.misses ≤ self.new.counts.misses }
        ensures fulls_kept { self.old.counts.fulls ≤ self.new.counts.fulls }
    {
        let answer = if self.script.count_call() {
            Err(ShelfError::Failed)
        } else {
            held_reaches(&self.files, name, size)
        };
        self.counts.count_reaches(&answer);
        answer
    }
}
