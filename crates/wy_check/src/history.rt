//! What happened to the slots that are asked about, up to an event: who wrote them, and who made them.

ghost use Rattle.std.specs.Prelude.{◌≡◌, ◌<◌, ◌≤◌, ◌++◌, ◌∷◌, [], ℕ, List, OnOk, Some, None, if◌then◌else◌, option_map, length, slice_get};
ghost use Rattle.std.specs.List.Sorted.{IsNonDecreasing};
ghost use Rattle.wy_event.specs.declared.record.Slot.{Slot};
ghost use Rattle.wy_event.specs.Record.{Recorded, recorded};
ghost use Rattle.wy_event.specs.Sources.{creation, is_entity, is_write, last_write, or_else, written};
ghost use Rattle.wy_kernel.specs.Parts.{program_of};
ghost use Rattle.wy_index.specs.Found.{earlier, is_init, is_init_of, is_new, made_new, maker_of};
ghost use Rattle.wy_kernel.specs.View.{present};
ghost use Rattle.wy_check.specs.Writes.{IsLastBelow, first_of, owners, write_of, written_in};

use crate::key::{is_no_slot, key_of};
use crate::marks::is_marked;
use std::alloc::{AllocError, Global};
use std::collections::BTreeMap;
use wy_event::record::{Event, Kind, Slot};
use wy_kernel::program::Program;
use wy_kernel::types::NONE;

#[tactic(auto, unfolding(wy_event::specs::Sources::is_write))]
fn is_write(kind: Kind) -> bool
    ensures { result ≡ is_write kind }
{
    matches!(kind, Kind::Bind | Kind::Set | Kind::Catch)
}

fn is_init(kind: Kind) -> bool
    ensures { result ≡ is_init kind }
{
    matches!(kind, Kind::Init)
}

fn is_new(kind: Kind) -> bool
    ensures { result ≡ is_new kind }
{
    matches!(kind, Kind::New)
}

/// The last of some events below a moment, where they are in order.
fn last_below(events: &[u32], moment: u32) -> Option<u32>
    ensures { IsNonDecreasing events.now → IsLastBelow events.now moment result }
{
    let count = events.partition_point(|event| *event < moment);
    if count == 0 {
        return None;
    }
    Some(events[count - 1])
}

/// An event, if it is below a moment.
fn earlier(event: Option<u32>, moment: u32) -> Option<u32>
    ensures { result ≡ earlier moment event }
{
    let event = event?;
    if event < moment { Some(event) } else { None }
}

/// Puts an event behind those that wrote its slot, where the slot is asked about.
fn note_write(
    writes: &mut BTreeMap<(u8, u32, u32), Vec<u32>>,
    n: u32,
    event: &Event,
) -> Result<(), AllocError>
    ensures { OnOk result ((x : Slot) → written_in writes.new x
        ≡ option_map (λ ws. ws ++ write_of x n (recorded event.now)) (written_in writes.old x)) }
{
    if is_write(event.kind) && !is_no_slot(event.slot) {
        if let Some(written) = writes.get_mut(&key_of(event.slot)) {
            written.push(n)?;
        }
    }
    Ok(())
}

/// Keeps the first event under a class, where there is one.
fn note_first(firsts: &mut BTreeMap<u32, u32>, class: u32, n: u32) -> Result<(), AllocError>
    ensures { OnOk result ((q : ℕ) → first_of firsts.new q
        ≡ or_else (first_of firsts.old q) (if is_entity (present class) q then Some n else None)) }
{
    if class != NONE && !firsts.contains_key(&class) {
        firsts.insert(class, n)?;
    }
    Ok(())
}

/// Keeps the first Init of each class.
#[tactic(auto, unfolding(wy_event::specs::Record::recorded))]
fn note_init(inits: &mut BTreeMap<u32, u32>, n: u32, event: &Event) -> Result<(), AllocError>
    ensures { OnOk result ((class : ℕ) → first_of inits.new class
        ≡ or_else (first_of inits.old class)
        (if is_init_of class (recorded event.now) then Some n else None)) }
{
    if is_init(event.kind) {
        note_first(inits, event.entity, n)?;
    }
    Ok(())
}

/// The class that declares a field.
fn owner(program: &Program, field: u32) -> u32
    ensures { result ≡ owners (program_of program.now) field }
{
    if (field as usize) < program.fields.len() {
        program.fields[field as usize].class
    } else {
        0
    }
}

/// The events that wrote each slot that is asked about, which events are News, and the first Init of each class.
#[derive(Drop)]
pub(crate) struct History {
    writes: BTreeMap<(u8, u32, u32), Vec<u32>>,
    made: Vec<bool>,
    inits: BTreeMap<u32, u32>,
}

impl History {
    ghost use Rattle.wy_check.specs.History.{HasSeen, IsAsked};

    pub(crate) fn new(alloc: Global) -> History
        ensures { HasSeen result [] }
    {
        History {
            writes: BTreeMap::new(alloc),
            made: Vec::new(alloc),
            inits: BTreeMap::new(alloc),
        }
    }

    /// Asks about a slot, before any event.
    pub(crate) fn ask(&mut self, alloc: Global, slot: Slot) -> Result<(), AllocError>
        ensures asked { OnOk result (IsAsked self.new slot) }
        ensures keeps { OnOk result ((x : Slot) → IsAsked self.old x → IsAsked self.new x) }
        ensures seen { HasSeen self.old [] → OnOk result (HasSeen self.new []) }
    {
        let key = key_of(slot);
        if !self.writes.contains_key(&key) {
            self.writes.insert(key, Vec::new(alloc))?;
        }
        Ok(())
    }

    /// Takes the next event.
    pub(crate) fn note(&mut self, n: u32, event: &Event) -> Result<(), AllocError>
        ensures seen { (rs : List Recorded) → HasSeen self.old rs → length rs ≡ n
            → OnOk result (HasSeen self.new (rs ++ recorded event.now ∷ [])) }
        ensures keeps { OnOk result ((x : Slot) → IsAsked self.old x → IsAsked self.new x) }
    {
        note_write(&mut self.writes, n, event)?;
        self.made.push(is_new(event.kind))?;
        note_init(&mut self.inits, n, event)?;
        Ok(())
    }

    /// The last write of a slot below a moment, else its creation: of a slot that is asked about, up to the event that is next.
    pub(crate) fn last_write(&self, program: &Program, slot: Slot, moment: u32) -> Option<u32>
        ensures { (rs : List Recorded) → HasSeen self.now rs → IsAsked self.now slot
            → result ≡ last_write (owners (program_of program.now)) rs slot moment }
    {
        match self.written(slot, moment) {
            Some(event) => Some(event),
            None => self.creation(program, slot, moment),
        }
    }

    fn written(&self, slot: Slot, moment: u32) -> Option<u32>
        ensures { (rs : List Recorded) → HasSeen self.now rs → IsAsked self.now slot
            → result ≡ written rs slot moment }
    {
        match self.writes.get(&key_of(slot)) {
            Some(events) => last_below(events, moment),
            None => None,
        }
    }

    fn creation(&self, program: &Program, slot: Slot, moment: u32) -> Option<u32>
        ensures { (rs : List Recorded) → HasSeen self.now rs
            → result ≡ creation (owners (program_of program.now)) rs slot moment }
    {
        earlier(self.maker(program, slot), moment)
    }

    fn maker(&self, program: &Program, slot: Slot) -> Option<u32>
        ensures { (rs : List Recorded) → HasSeen self.now rs
            → result ≡ maker_of (owners (program_of program.now)) rs slot }
    {
        match slot {
            Slot::Static { field } => self.inits.get(&owner(program, field)).copied(),
            Slot::Field { object, .. } => self.new_at(object),
            Slot::Elem { array, .. } => self.new_at(array),
            Slot::None | Slot::Local { .. } => None,
        }
    }

    /// The event, if it is a New.
    fn new_at(&self, event: u32) -> Option<u32>
        ensures { (rs : List Recorded) → HasSeen self.now rs
            → result ≡ made_new event (slice_get rs event) }
    {
        if is_marked(&self.made, event) {
            Some(event)
        } else {
            None
        }
    }
}
