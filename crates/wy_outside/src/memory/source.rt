//! A source in memory: it tells what is left, and exactly the listed calls fail.
ghost use Rattle.std.specs.Prelude.{◌≡◌, ◌≤◌, take, Some, IfOk, vec_len};
ghost use Rattle.wy_outside.specs.Counts.{RoseAt};
ghost use Rattle.wy_outside.specs.Failing.{uncalled, fails_next, after_call, FailsExactly};
ghost use Rattle.wy_outside.specs.Source.{is_failed, Takes, EndsExactly, CountsTaken};

use crate::count::SourceCounts;
use crate::failing::FailingCalls;
use crate::piece::first_bytes;
use crate::source::{Source, SourceError};
use std::alloc::Global;

/// An input in memory.
#[derive(Drop)]
pub struct MemorySource {
    bytes: Vec<u8>,
    at: usize,
    script: FailingCalls,
    counts: SourceCounts,
    ghost within: { at ≤ vec_len bytes },
}

impl MemorySource {
    /// The input, and the numbers of the calls that fail, counted from 1.
    pub fn new(bytes: Vec<u8>, fails: Vec<u32>) -> Self
        ensures left { ⟦<MemorySource as Source>⟧.left result ≡ Some bytes.items }
        ensures script { result.script ≡ uncalled fails }
        ensures faults { ⟦<MemorySource as Source>⟧.faults result ≡ 0 }
        ensures taken { ⟦<MemorySource as Source>⟧.taken result ≡ 0 }
    {
        MemorySource {
            bytes,
            at: 0,
            script: FailingCalls::new(fails),
            counts: SourceCounts::new(),
        }
    }

    /// What is still to come.
    pub fn rest(&self) -> &[u8]
        ensures { ⟦<MemorySource as Source>⟧.left self.now ≡ Some result.now }
    {
        &self.bytes[self.at..]
    }
}

impl Source for MemorySource {
    ghost use Rattle.wy_outside.specs.Memory.{left_of};

    ghost left = { λ s. Some (left_of s) };

    ghost faults = { λ s. s.counts.faults };

    ghost taken = { λ s. s.counts.taken };

    /// As many bytes as are asked for, as long as there are so many.
    #[tactic(auto, using(crate::proofs::Pieces::piece_and_rest))]
    fn read(&mut self, alloc: Global, max: u32) -> Result<Vec<u8>, SourceError>
        requires { 1 ≤ max }
        ensures fails { FailsExactly is_failed (fails_next self.old.script) result }
        ensures script { self.new.script ≡ after_call self.old.script }
        ensures piece { IfOk result (λ bytes. bytes.items ≡ take max (left_of self.old)) }
        ensures content { Takes (Some (left_of self.old)) (Some (left_of self.new)) result }
        ensures end { EndsExactly (Some (left_of self.old)) result }
        ensures bound { IfOk result (λ bytes. vec_len bytes ≤ max) }
        ensures count { CountsTaken self.old.counts.taken self.new.counts.taken result }
        ensures failed { RoseAt is_failed result self.old.counts.faults self.new.counts.faults }
        ensures faults_kept { self.old.counts.faults ≤ self.new.counts.faults }
        ensures taken_kept { self.old.counts.taken ≤ self.new.counts.taken }
    {
        let answer = if self.script.count_call() {
            Err(SourceError::Failed)
        } else {
            first_bytes(alloc, self.rest(), max).map_err(|_| SourceError::NoMemory)
        };
        if let Ok(bytes) = &answer {
            self.at += bytes.len();
        }
        self.counts.count_read(&answer);
        answer
    }
}
