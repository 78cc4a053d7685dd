//! A shelf in memory of which one file changes, for tests of what is read again. It tells nothing.
ghost use Rattle.std.specs.Prelude.{◌≡◌, None};

use crate::count::{ShelfCounts, one_more};
use crate::memory::files::{held_reaches, read_held, read_held_at};
use crate::shelf::{Shelf, ShelfError};
use std::alloc::Global;

/// Files in memory, of which one has other bytes from a numbered call on. No call fails.
#[derive(Drop)]
pub struct SwapShelf {
    files: Vec<(String, Vec<u8>)>,
    changed: [(String, Vec<u8>); 1],
    swap: u32,
    calls: u64,
    counts: ShelfCounts,
}

impl SwapShelf {
    /// The files, and one of them as it is from the call of a number on, counted from 1.
    pub fn new(files: Vec<(String, Vec<u8>)>, changed: (String, Vec<u8>), swap: u32) -> Self
        ensures untold { ⟦<SwapShelf as Shelf>⟧.held result ≡ None }
        ensures faults { ⟦<SwapShelf as Shelf>⟧.faults result ≡ 0 }
        ensures misses { ⟦<SwapShelf as Shelf>⟧.misses result ≡ 0 }
        ensures fulls { ⟦<SwapShelf as Shelf>⟧.fulls result ≡ 0 }
        ensures gets { ⟦<SwapShelf as Shelf>⟧.gets result ≡ 0 }
    {
        SwapShelf {
            files,
            changed: [changed],
            swap,
            calls: 0,
            counts: ShelfCounts::new(),
        }
    }

    fn count_call(&mut self)
        ensures { self.new.counts ≡ self.old.counts }
    {
        self.calls = one_more(self.calls);
    }

    /// Files among which the named one is as it is at the call that was counted last.
    fn files(&self, name: &str) -> &[(String, Vec<u8>)] {
        if self.calls >= u64::from(self.swap) && self.changed[0].0.as_str() == name {
            &self.changed
        } else {
            &self.files
        }
    }
}

impl Shelf for SwapShelf {
    ghost held = { λ _. None };

    ghost faults = { λ s. s.counts.faults };

    ghost misses = { λ s. s.counts.misses };

    ghost fulls = { λ s. s.counts.fulls };

    ghost gets = { λ s. s.counts.gets };

    fn read(&mut self, alloc: Global, name: &str, max: u32) -> Result<Vec<u8>, ShelfError> {
        self.count_call();
        let answer = read_held(alloc, self.files(name), name, max);
        self.counts.count_read(&answer, max);
        answer
    }

    fn read_at(
        &mut self,
        alloc: Global,
        name: &str,
        from: u32,
        len: u32,
    ) -> Result<Vec<u8>, ShelfError> {
        self.count_call();
        let answer = read_held_at(alloc, self.files(name), name, from, len);
        self.counts.count_read_at(&answer);
        answer
    }

    fn reaches(&mut self, name: &str, size: u32) -> Result<bool, ShelfError> {
        self.count_call();
        let answer = held_reaches(self.files(name), name, size);
        self.counts.count_reaches(&answer);
        answer
    }
}
