//! The state, its budget, and its input and output.

ghost use Rattle.std.specs.Prelude.{◌≡◌, ◌≤◌, ◌+◌, ℕ, IfOk, OnOk, OnErr};
ghost use Rattle.wy_kernel.specs.Program.{Program};
ghost use Rattle.wy_meaning.specs.Text.{print};
ghost use Rattle.wy_steps.specs.State.{return};
ghost use Rattle.wy_steps.specs.Steps.{next_byte, steps_left, tick};
ghost use Rattle.wy_state.specs.Agrees.{shape, StepGives, Onward, itself};
ghost use Rattle.wy_state.specs.Seen.{given};

use crate::parts::{Draft, Halt, Limit, Throw};
use crate::register::Register;
use std::alloc::{AllocError, Global};
use wy_calls::Calls;
use wy_event::record::{Cover, Kind, Use};
use wy_heap::Heap;
use wy_kernel::limit::OUTPUT_LIMIT;
use wy_value::Value;

/// What stands of a run.
#[derive(Drop)]
pub struct State<'a, R> {
    /// The bodies that run, with their locals, and what is active.
    pub calls: Calls,
    /// Static fields, objects, arrays and texts.
    pub heap: Heap,
    /// No frame from this number on was entered.
    pub entered: u32,
    /// How many events and uses there are, how many steps are left, and how many elements and units were made.
    pub events: u32,
    pub uses: u32,
    pub left: u32,
    pub elements: u32,
    pub units: u32,
    pub output: Vec<u8>,
    pub input: &'a [u8],
    pub covers: Vec<Cover>,
    /// The Throws among the events, the newest last.
    pub throws: Vec<Throw>,
    /// Where the events are entered.
    pub register: R,
    /// Room for the uses of the event that is noted.
    pub spare: Vec<Use>,
    pub alloc: Global,
}

impl<'a, R: Register> State<'a, R> {
    /// One step of the budget.
    pub fn tick(&mut self) -> Result<(), Halt>
        ensures step { (p : Program) → StepGives p itself result
            (shape R.keeps R.kept self.old) tick (shape R.keeps R.kept self.new) }
        ensures calls { self.new.calls ≡ self.old.calls }
        ensures spent { OnOk result (self.new.left + 1 ≡ self.old.left) }
        ensures events { self.new.events ≡ self.old.events }
    {
        if self.left == 0 {
            return Err(Halt::Stopped(Limit::Steps));
        }
        self.left -= 1;
        Ok(())
    }

    /// How many steps are left.
    pub fn steps_left(&self) -> u32
        ensures step { (p : Program) → Onward p (shape R.keeps R.kept self.now) steps_left
            (shape R.keeps R.kept self.now) (return result) }
        ensures left { result ≡ self.now.left }
    {
        self.left
    }

    /// The next byte of the input.
    pub fn next_byte(&mut self) -> Option<u8>
        ensures step { (p : Program) → Onward p (shape R.keeps R.kept self.old) next_byte
            (shape R.keeps R.kept self.new) (return result) }
        ensures calls { self.new.calls ≡ self.old.calls }
        ensures left { self.new.left ≡ self.old.left }
        ensures events { self.new.events ≡ self.old.events }
    {
        match self.input.split_first() {
            None => None,
            Some((first, rest)) => {
                self.input = rest;
                Some(*first)
            }
        }
    }

    /// Records a Print and writes its bytes.
    pub fn print(&mut self, site: u32, value: Value, bytes: &[u8], uses: &[Use]) -> Result<(), Halt>
        ensures step { (p : Program) → StepGives p itself result (shape R.keeps R.kept self.old)
            (print site bytes.now (given value uses.now)) (shape R.keeps R.kept self.new) }
        ensures calls { self.new.calls ≡ self.old.calls }
        ensures left { self.new.left ≡ self.old.left }
        ensures events { OnOk result (self.new.events ≡ self.old.events + 1) }
    {
        let total = self.output.len().saturating_add(bytes.len());
        if total > OUTPUT_LIMIT {
            return Err(Halt::Stopped(Limit::Output));
        }
        self.note(Draft::plain(Kind::Print, site, value), uses)?;
        self.output.extend_from_slice(bytes)?;
        Ok(())
    }
}
