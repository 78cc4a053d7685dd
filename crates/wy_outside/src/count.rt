//! The counts of 64 bits that an object of the outside keeps. A count never falls, and stays at its
//! last value.
ghost use Rattle.std.specs.Prelude.{◌≡◌, ◌≤◌, MatchBool};
ghost use Rattle.wy_outside.specs.Counts.{count_after, Rose, RoseAt};

use crate::shelf::ShelfError;
use crate::source::SourceError;

/// The count once one more was counted.
pub fn one_more(count: u64) -> u64
    ensures value { result ≡ count_after count 1 }
    ensures rose { Rose count result }
    ensures kept { count ≤ result }
{
    count.saturating_add(1)
}

/// What a shelf counts: its reads, and of its calls the failed, the absent and the full ones.
#[derive(Clone, Copy)]
pub struct ShelfCounts {
    pub faults: u64,
    pub misses: u64,
    pub fulls: u64,
    pub gets: u64,
}

impl ShelfCounts {
    ghost use Rattle.wy_outside.specs.Shelf.{is_failed, is_absent, RoseWhenFull, RoseWhenReached};

    pub fn new() -> Self
        ensures { result ≡ record { faults = 0; misses = 0; fulls = 0; gets = 0 } }
    {
        ShelfCounts {
            faults: 0,
            misses: 0,
            fulls: 0,
            gets: 0,
        }
    }

    /// Counts a read of the first `max` bytes by its answer.
    pub fn count_read(&mut self, answer: &Result<Vec<u8>, ShelfError>, max: u32)
        ensures failed { RoseAt is_failed answer.now self.old.faults self.new.faults }
        ensures absent { RoseAt is_absent answer.now self.old.misses self.new.misses }
        ensures full { RoseWhenFull max answer.now self.old.fulls self.new.fulls }
        ensures got { self.new.gets ≡ count_after self.old.gets 1 }
        ensures faults_kept { self.old.faults ≤ self.new.faults }
        ensures misses_kept { self.old.misses ≤ self.new.misses }
        ensures fulls_kept { self.old.fulls ≤ self.new.fulls }
        ensures gets_kept { self.old.gets ≤ self.new.gets }
    {
        self.gets = one_more(self.gets);
        match answer {
            Ok(bytes) if bytes.len() == max as usize => self.fulls = one_more(self.fulls),
            Ok(_) => {}
            Err(error) => self.count_error(*error),
        }
    }

    /// Counts a read from a place on by its answer.
    pub fn count_read_at(&mut self, answer: &Result<Vec<u8>, ShelfError>)
        ensures failed { RoseAt is_failed answer.now self.old.faults self.new.faults }
        ensures absent { RoseAt is_absent answer.now self.old.misses self.new.misses }
        ensures full { self.new.fulls ≡ self.old.fulls }
        ensures got { self.new.gets ≡ count_after self.old.gets 1 }
        ensures faults_kept { self.old.faults ≤ self.new.faults }
        ensures misses_kept { self.old.misses ≤ self.new.misses }
        ensures gets_kept { self.old.gets ≤ self.new.gets }
    {
        self.gets = one_more(self.gets);
        if let Err(error) = answer {
            self.count_error(*error);
        }
    }

    /// Counts an answer to whether a file has so many bytes.
    pub fn count_reaches(&mut self, answer: &Result<bool, ShelfError>)
        ensures failed { RoseAt is_failed answer.now self.old.faults self.new.faults }
        ensures absent { RoseAt is_absent answer.now self.old.misses self.new.misses }
        ensures full { RoseWhenReached answer.now self.old.fulls self.new.fulls }
        ensures got { self.new.gets ≡ self.old.gets }
        ensures faults_kept { self.old.faults ≤ self.new.faults }
        ensures misses_kept { self.old.misses ≤ self.new.misses }
        ensures fulls_kept { self.old.fulls ≤ self.new.fulls }
    {
        match answer {
            Ok(true) => self.fulls = one_more(self.fulls),
            Ok(false) => {}
            Err(error) => self.count_error(*error),
        }
    }

    fn count_error(&mut self, error: ShelfError)
        ensures failed { MatchBool (is_failed error)
            (Rose self.old.faults self.new.faults) (self.new.faults ≡ self.old.faults) }
        ensures absent { MatchBool (is_absent error)
            (Rose self.old.misses self.new.misses) (self.new.misses ≡ self.old.misses) }
        ensures full { self.new.fulls ≡ self.old.fulls }
        ensures got { self.new.gets ≡ self.old.gets }
        ensures faults_kept { self.old.faults ≤ self.new.faults }
        ensures misses_kept { self.old.misses ≤ self.new.misses }
    {
        match error {
            ShelfError::Failed => self.faults = one_more(self.faults),
            ShelfError::Absent => self.misses = one_more(self.misses),
            ShelfError::NoMemory => {}
        }
    }
}

/// What a source counts: the reads that failed, and the bytes that it gave.
#[derive(Clone, Copy)]
pub struct SourceCounts {
    pub faults: u64,
    pub taken: u64,
}

impl SourceCounts {
    ghost use Rattle.wy_outside.specs.Source.{is_failed, CountsTaken};

    pub fn new() -> Self
        ensures { result ≡ record { faults = 0; taken = 0 } }
    {
        SourceCounts {
            faults: 0,
            taken: 0,
        }
    }

    /// Counts a read by its answer.
    pub fn count_read(&mut self, answer: &Result<Vec<u8>, SourceError>)
        ensures count { CountsTaken self.old.taken self.new.taken answer.now }
        ensures failed { RoseAt is_failed answer.now self.old.faults self.new.faults }
        ensures faults_kept { self.old.faults ≤ self.new.faults }
        ensures taken_kept { self.old.taken ≤ self.new.taken }
    {
        match answer {
            Ok(bytes) => self.taken = self.taken.saturating_add(bytes.len() as u64),
            Err(SourceError::Failed) => self.faults = one_more(self.faults),
            Err(SourceError::NoMemory) => {}
        }
    }
}
