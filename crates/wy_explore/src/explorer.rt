//! An explorer: where a session stands, the changes that can be undone, and the moves that take no memory.

ghost use Rattle.std.specs.Prelude.{◌≡◌};

use crate::search::{greatest_below, least_above};
use circular_buffer::HeapCircularBuffer;
use std::alloc::{AllocError, Global};
use wy_why::Answer;

/// The changes that can be undone.
const MOST_CHANGES: usize = 64;

/// An event that was asked about, and all that it comes from.
#[derive(Drop)]
pub struct Answered {
    pub event: u32,
    pub answer: Answer,
}

/// What a change replaced.
#[derive(Drop)]
pub enum Change {
    /// The cursor alone.
    Looked {
        cursor: Option<u32>,
    },
    /// The question, with its answer, and the cursor.
    Asked {
        question: Option<Answered>,
        cursor: Option<u32>,
    },
}

/// A session over one trace. Answers are moved into the past and back, and never copied.
#[derive(Drop)]
pub struct Explorer {
    pub question: Option<Answered>,
    pub cursor: Option<u32>,
    /// The changes that can be undone, the last one at the end.
    pub past: HeapCircularBuffer<Change>,
    ghost room: { past.capacity ≡ 64 },
}

impl Explorer {
    ghost use Rattle.std.specs.Prelude.{◌<◌, ◌≤◌, ℕ, List, IfOk, IfSome, MatchBool, MatchOption, option_copied};
    ghost use Rattle.wy_event.specs.Record.{Recorded};
    ghost use Rattle.wy_kernel.specs.Program.{Program};
    ghost use Rattle.wy_explore.specs.Explorer.{AllAnswered, AllWithin, IsAnswered, IsWithin, Leads, Moves, Rising, Undoes, session_of};
    ghost use Rattle.wy_explore.specs.Session.{IsGreatestBelow, IsLeastAbove, asking, begun, looking_at};

    /// A session in which nothing was asked, with room for its past.
    pub fn open(alloc: Global) -> Result<Explorer, AllocError>
        ensures begun { IfOk result (λ x. session_of x ≡ begun) }
        ensures within { (count : ℕ) → IfOk result (AllWithin count) }
        ensures answered { (p : Program) (rs : List Recorded) → IfOk result (AllAnswered p rs) }
    {
        Ok(Explorer {
            question: None,
            cursor: None,
            past: HeapCircularBuffer::with_capacity(alloc, MOST_CHANGES)?,
        })
    }

    /// The event that was asked about last, with its answer.
    pub fn answer(&self) -> Option<&Answered>
        ensures { option_copied result ≡ self.now.question }
    {
        self.question.as_ref()
    }

    /// Looks at an event; the question stays.
    fn look_at(&mut self, event: u32)
        ensures session { session_of self.new ≡ looking_at (session_of self.old) event }
        ensures within { (count : ℕ) → event < count → AllWithin count self.old
            → AllWithin count self.new }
        ensures answered { (p : Program) (rs : List Recorded) → AllAnswered p rs self.old
            → AllAnswered p rs self.new }
    {
        let cursor = self.cursor.replace(event);
        self.past.push_back(Change::Looked { cursor });
    }

    /// Asks about an event, and looks at it.
    pub(crate) fn ask_about(&mut self, asked: Answered)
        ensures session { session_of self.new ≡ asking (session_of self.old) asked.event }
        ensures within { (count : ℕ) → IsWithin count asked → AllWithin count self.old
            → AllWithin count self.new }
        ensures answered { (p : Program) (rs : List Recorded) → IsAnswered p rs asked
            → AllAnswered p rs self.old → AllAnswered p rs self.new }
    {
        let cursor = self.cursor.replace(asked.event);
        let question = self.question.replace(asked);
        self.past.push_back(Change::Asked { question, cursor });
    }

    /// The event to which `up` goes.
    fn next_up(&self) -> Option<u32>
        requires { IfSome self.now.question Rising }
        ensures { MatchOption result ((event : ℕ) → ¬ Leads IsGreatestBelow self.now event)
            (Leads IsGreatestBelow self.now) }
    {
        let cursor = self.cursor?;
        let asked = self.question.as_ref()?;
        greatest_below(asked.answer.all.as_slice(), cursor)
    }

    /// The event to which `down` goes.
    fn next_down(&self) -> Option<u32>
        requires { IfSome self.now.question Rising }
        ensures { MatchOption result ((event : ℕ) → ¬ Leads IsLeastAbove self.now event)
            (Leads IsLeastAbove self.now) }
    {
        let cursor = self.cursor?;
        let asked = self.question.as_ref()?;
        least_above(asked.answer.all.as_slice(), cursor)
    }

    /// Looks at the greatest smaller event of the answer, if there is one.
    pub fn up(&mut self) -> bool
        requires { IfSome self.old.question Rising }
        ensures moves { Moves IsGreatestBelow result self.old self.new }
        ensures within { (count : ℕ) → AllWithin count self.old → AllWithin count self.new }
        ensures answered { (p : Program) (rs : List Recorded) → AllAnswered p rs self.old
            → AllAnswered p rs self.new }
    {
        let Some(event) = self.next_up() else {
            return false;
        };
        self.look_at(event);
        true
    }

    /// Looks at the least greater event of the answer, if there is one.
    pub fn down(&mut self) -> bool
        requires { IfSome self.old.question Rising }
        ensures moves { Moves IsLeastAbove result self.old self.new }
        ensures within { (count : ℕ) → AllWithin count self.old → AllWithin count self.new }
        ensures answered { (p : Program) (rs : List Recorded) → AllAnswered p rs self.old
            → AllAnswered p rs self.new }
    {
        let Some(event) = self.next_down() else {
            return false;
        };
        self.look_at(event);
        true
    }

    /// Looks at an event by its number, if there are more events than that.
    pub fn go(&mut self, n: u32, count: u32) -> bool
        ensures goes { MatchBool result
            ((n < count) × (session_of self.new ≡ looking_at (session_of self.old) n))
            ((count ≤ n) × (self.new ≡ self.old)) }
        ensures within { AllWithin count self.old → AllWithin count self.new }
        ensures answered { (p : Program) (rs : List Recorded) → AllAnswered p rs self.old
            → AllAnswered p rs self.new }
    {
        if n < count {
            self.look_at(n);
            true
        } else {
            false
        }
    }

    /// Brings back question and cursor as they were before the last change, if one is kept.
    pub fn undo(&mut self) -> bool
        ensures undoes { Undoes result self.old self.new }
        ensures within { (count : ℕ) → AllWithin count self.old → AllWithin count self.new }
        ensures answered { (p : Program) (rs : List Recorded) → AllAnswered p rs self.old
            → AllAnswered p rs self.new }
    {
        match self.past.pop_back() {
            Some(Change::Looked { cursor }) => {
                self.cursor = cursor;
                true
            }
            Some(Change::Asked { question, cursor }) => {
                self.question = question;
                self.cursor = cursor;
                true
            }
            None => false,
        }
    }
}
