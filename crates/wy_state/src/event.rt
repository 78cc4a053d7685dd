//! Records: each is entered in the register, and a write is stored.

ghost use Rattle.std.specs.Prelude.{◌≡◌, ◌≢◌, ◌+◌, [], false, reverse, IfOk, OnOk};
ghost use Rattle.wy_event.specs.declared.record.Kind.{Kind};
ghost use Rattle.wy_event.specs.Record.{recorded};
ghost use Rattle.wy_kernel.specs.Program.{Program};
ghost use Rattle.wy_steps.specs.Steps.{note, note_write};
ghost use Rattle.wy_state.specs.Agrees.{shape, StepGives, KeepsFrames, Recording, event_of, itself, throw_at};
ghost use Rattle.wy_state.specs.Seen.{draft_of, given, made_of};

use crate::parts::{Draft, Halt, Limit, Throw};
use crate::register::Register;
use crate::state::State;
use std::alloc::AllocError;
use std::mem;
use wy_event::record::{Event, Kind, Use};
use wy_event::sequence::Sequence;
use wy_kernel::limit::{EVENT_LIMIT, USE_LIMIT};

impl<'a, R: Register> State<'a, R> {
    /// Records an event with these units and uses, and gives its number and the units back. The state then has one event more.
    pub fn record(
        &mut self,
        draft: Draft,
        units: Vec<u16>,
        uses: &[Use],
    ) -> Result<(u32, Vec<u16>), Halt>
        ensures recorded { Recording (draft_of draft units.items) uses.now result
            (shape R.keeps R.kept self.old) (shape R.keeps R.kept self.new) }
        ensures units { IfOk result (λ pair. pair.1.items ≡ units.items) }
        ensures calls { self.new.calls ≡ self.old.calls }
        ensures left { self.new.left ≡ self.old.left }
        ensures events { OnOk result (self.new.events ≡ self.old.events + 1) }
    {
        let number = self.events;
        if number >= EVENT_LIMIT {
            return Err(Halt::Stopped(Limit::Events));
        }
        let total = u64::from(self.uses) + uses.len() as u64;
        if total > u64::from(USE_LIMIT) {
            return Err(Halt::Stopped(Limit::Uses));
        }
        let event = self.event(draft, units, uses)?;
        self.register.note(&event)?;
        remember(&mut self.throws, draft, number)?;
        self.spare = event.uses.into_vec();
        self.events = number + 1;
        self.uses = total as u32;
        Ok((number, event.units.into_vec()))
    }

    /// The next event.
    fn event(&mut self, draft: Draft, units: Vec<u16>, uses: &[Use]) -> Result<Event, AllocError>
        ensures event { IfOk result (λ e.
            recorded e ≡ event_of (draft_of draft units.items) uses.now
            (shape R.keeps R.kept self.old)) }
        ensures units { IfOk result (λ e. e.units ≡ units.items) }
        ensures same { shape R.keeps R.kept self.new ≡ shape R.keeps R.kept self.old }
    {
        let mut copied = mem::replace(&mut self.spare, Vec::new(self.alloc));
        copied.clear();
        copied.extend_from_slice(uses)?;
        Ok(Event {
            kind: draft.kind,
            site: draft.site,
            frame: self.calls.frame(),
            control: self.calls.control(),
            entity: draft.entity,
            slot: draft.slot,
            value: draft.value,
            units: Sequence::new(units),
            uses: Sequence::new(copied),
        })
    }

    /// Records an event that makes nothing, and gives its number.
    pub fn note(&mut self, draft: Draft, uses: &[Use]) -> Result<u32, Halt>
        ensures step { (p : Program) → StepGives p made_of result (shape R.keeps R.kept self.old)
            (note (draft_of draft []) (given draft.value uses.now))
            (shape R.keeps R.kept self.new) }
        ensures number { IfOk result (λ n. n ≡ self.old.events) }
        ensures calls { self.new.calls ≡ self.old.calls }
        ensures left { self.new.left ≡ self.old.left }
        ensures events { OnOk result (self.new.events ≡ self.old.events + 1) }
    {
        if is_init(draft.kind) {
            return Err(Halt::Memory);
        }
        let (number, _units) = self.record(draft, Vec::new(self.alloc), uses)?;
        Ok(number)
    }

    /// Records a Bind, Set or Catch, whose slot then holds the value.
    pub fn note_write(&mut self, draft: Draft, uses: &[Use]) -> Result<u32, Halt>
        ensures step { (p : Program) → StepGives p made_of result (shape R.keeps R.kept self.old)
            (note_write (draft_of draft []) (given draft.value uses.now))
            (shape R.keeps R.kept self.new) }
        ensures frames { KeepsFrames result self.old.calls self.new.calls }
        ensures left { self.new.left ≡ self.old.left }
        ensures events { OnOk result (self.new.events ≡ self.old.events + 1) }
    {
        let number = self.note(draft, uses)?;
        self.put(draft.slot, draft.value)?;
        Ok(number)
    }
}

/// Whether an event of the kind makes a class.
fn is_init(kind: Kind) -> bool
    ensures { result ≡ false → kind ≢ Kind.Init }
{
    match kind {
        Kind::Init => true,
        _ => false,
    }
}

/// Puts a Throw with its number behind those before it.
fn remember(throws: &mut Vec<Throw>, draft: Draft, number: u32) -> Result<(), AllocError>
    ensures { OnOk result (reverse throws.new.items
        ≡ throw_at number draft.kind draft.site draft.value (reverse throws.old.items)) }
{
    if let Draft {
        kind: Kind::Throw,
        site,
        value,
        ..
    } = draft
    {
        throws.push(Throw {
            event: number,
            site,
            value,
        })?;
    }
    Ok(())
}
