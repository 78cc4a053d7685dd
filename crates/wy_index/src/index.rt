//! The index of a trace, and its look-ups.

ghost use Rattle.std.specs.Prelude.{◌≡◌, ◌+◌, ◌*◌, ◌<◌, ◌≤◌, ◌^◌, ◌++◌, ◌∷◌, ℕ, List, [], IfOk, IfSome, OnOk, length, slice_get, map};
ghost use Rattle.wy_event.specs.Record.{Recorded, recorded};
ghost use Rattle.wy_kernel.specs.View.{present};
ghost use Rattle.wy_event.specs.Sources.{creation, last_write, written};
ghost use Rattle.wy_kernel.specs.Program.{field};
ghost use Rattle.wy_kernel.specs.Parts.{program_of};
ghost use Rattle.wy_view.specs.Counts.{RoseAtMost};
ghost use Rattle.wy_view.specs.View.{KeepsCounts, IsRecordOf, Keeps, ReadsOnce};
ghost use Rattle.wy_index.specs.Found.{earlier, first_from, hits_in, is_call_of, is_init_of, made_at, made_new, maker_of, prints_in};
ghost use Rattle.wy_index.specs.Findings.{HasFound, IsFoundIn, IsOfFew};
ghost use Rattle.wy_index.specs.Finds.{IsLastBefore, IsRecent};
ghost use Rattle.wy_index.specs.Index.{IsIndexOf, IsIndexOfView, owners_of};
ghost use Rattle.wy_index.specs.Halving.{IsHalvings};

use crate::build::Findings;
use crate::found::{Hit, Made};
use crate::posting::{Find, Posting, Postings};
use crate::recent::Recent;
use crate::slot::is_same;
use std::alloc::{AllocError, Global};
use std::collections::BTreeMap;
use std::sync::ledger::Ledger;
use wy_event::record::Slot;
use wy_kernel::program::Program;
use wy_kernel::types::NONE;
use wy_view::{EventView, Steps, ViewError};

/// An index of the events of a trace.
#[derive(Drop)]
pub struct Index {
    postings: Postings,
    /// The class that declares each field, by the field's number.
    owners: Vec<u32>,
    /// What each event made, if it is a New.
    made: Vec<Option<Made>>,
    prints: Vec<u32>,
    /// The first Call of each method, and the first Init of each class.
    calls: BTreeMap<u32, u32>,
    inits: BTreeMap<u32, u32>,
    /// The hits at each site.
    hits: BTreeMap<u32, Vec<Hit>>,
}

/// Looks at the next event.
fn look<V: EventView, L: Ledger>(
    alloc: Global,
    found: &mut Findings,
    view: &mut V,
    n: u32,
    steps: &mut Steps<L>,
) -> Result<(), ViewError>
    requires { n < (V.tells view.old).count }
    ensures found { (rs : List Recorded) → HasFound found.old rs → length rs ≡ n → OnOk result
        ((r : Recorded) × HasFound found.new (rs ++ r ∷ []) × IsRecordOf (V.tells view.old) n r) }
    ensures keeps { Keeps (V.tells view.old) (V.tells view.new) }
    ensures reads { ReadsOnce (V.tells view.old) (V.tells view.new) }
    ensures answers { KeepsCounts result (V.tells view.old) (V.tells view.new) }
    ensures step { steps.new ≡ steps.old + 1 }
{
    let event = view.event(n, steps)?;
    found.note(alloc, n, event)?;
    Ok(())
}

fn owners(alloc: Global, program: &Program) -> Result<Vec<u32>, AllocError>
    ensures { IfOk result (λ owners. owners.items ≡ map (λ f. f.class) program.now.fields.items) }
{
    program
        .fields
        .iter()
        .map(|field| field.class)
        .collect(alloc)
}

/// What a write of the slot at a moment would be.
fn moment(slot: Slot, before: u32) -> Posting
    ensures { result ≡ record { slot = slot; event = before } }
{
    Posting {
        slot,
        event: before,
    }
}

impl Index {
    /// One pass over the events of a view: a step each.
    pub fn build<V: EventView, L: Ledger>(
        alloc: Global,
        view: &mut V,
        program: &Program,
        steps: &mut Steps<L>,
    ) -> Result<Index, ViewError>
        ensures index { IfOk result (λ index. IsIndexOfView index (V.tells view.new)) }
        ensures owners { IfOk result (λ index. (f : ℕ)
            → owners_of index f ≡ (field (program_of program.now) f).class) }
        ensures keeps { Keeps (V.tells view.old) (V.tells view.new) }
        ensures reads { RoseAtMost (V.tells view.old).count
            (V.tells view.old).reads (V.tells view.new).reads }
        ensures answers { KeepsCounts result (V.tells view.old) (V.tells view.new) }
        ensures forward { steps.old ≤ steps.new }
        ensures steps { steps.new ≤ steps.old + (V.tells view.old).count }
    {
        let mut found = Findings::new(alloc);
        for n in 0..view.count() {
            look(alloc, &mut found, view, n, steps)?;
        }
        Ok(Index::of_findings(alloc, found, program)?)
    }

    /// The index of a view's events: of what was found in them before, where it is given, and else of one pass over them.
    pub fn of<V: EventView, L: Ledger>(
        alloc: Global,
        found: Option<Findings>,
        view: &mut V,
        program: &Program,
        steps: &mut Steps<L>,
    ) -> Result<Index, ViewError>
        requires found { IfSome found (IsFoundIn (V.tells view.old)) }
        ensures index { IfOk result (λ index. IsIndexOfView index (V.tells view.new)) }
        ensures owners { IfOk result (λ index. (f : ℕ)
            → owners_of index f ≡ (field (program_of program.now) f).class) }
        ensures keeps { Keeps (V.tells view.old) (V.tells view.new) }
        ensures answers { KeepsCounts result (V.tells view.old) (V.tells view.new) }
    {
        match found {
            Some(found) => Ok(Index::of_findings(alloc, found, program)?),
            None => Index::build(alloc, view, program, steps),
        }
    }

    /// The index of the events that were noted, which takes no further look at them.
    pub fn of_findings(
        alloc: Global,
        found: Findings,
        program: &Program,
    ) -> Result<Index, AllocError>
        requires { IsOfFew found }
        ensures index { (rs : List Recorded) → HasFound found rs → length rs < 2 ^ 32
            → IfOk result (λ index. IsIndexOf index rs) }
        ensures owners { IfOk result (λ index. (f : ℕ)
            → owners_of index f ≡ (field (program_of program.now) f).class) }
    {
        let owners = owners(alloc, program)?;
        let Findings {
            writes,
            made,
            prints,
            calls,
            inits,
            hits,
            bodies: _,
        } = found;
        Ok(Index {
            postings: Postings::new(writes),
            owners,
            made,
            prints,
            calls,
            inits,
            hits,
        })
    }

    /// The greatest event below a moment that wrote the slot, else its creation below the moment.
    pub fn last_write<L: Ledger>(
        &self,
        slot: Slot,
        before: u32,
        steps: &mut Steps<L>,
    ) -> Option<u32>
        ensures write { (rs : List Recorded) → IsIndexOf self.now rs
            → result ≡ last_write (owners_of self.now) rs slot before }
        ensures before { IfSome result (λ event. event < before) }
        ensures forward { steps.old ≤ steps.new }
        ensures steps { (l : ℕ) → IsHalvings (length self.now.postings) l
            → steps.new ≤ steps.old + (l + 1) }
    {
        let found = self.postings.last_before(moment(slot, before), None, steps);
        self.writer(slot, before, found)
    }

    /// The same, and first it looks beside what was found last for the slot.
    pub fn last_write_near<L: Ledger>(
        &self,
        recent: &mut Recent,
        slot: Slot,
        before: u32,
        steps: &mut Steps<L>,
    ) -> Option<u32>
        requires recent { IsRecent self.now.postings recent.old }
        ensures recent { IsRecent self.now.postings recent.new }
        ensures write { (rs : List Recorded) → IsIndexOf self.now rs
            → result ≡ last_write (owners_of self.now) rs slot before }
        ensures before { IfSome result (λ event. event < before) }
        ensures forward { steps.old ≤ steps.new }
        ensures steps { (l : ℕ) → IsHalvings (length self.now.postings) l
            → steps.new ≤ steps.old + (l + 1) }
    {
        let near = recent.at(slot);
        let found = self.postings.last_before(moment(slot, before), near, steps);
        recent.keep(slot, found);
        self.writer(slot, before, found)
    }

    /// What wrote the slot last or created it, by the last posting before the moment.
    fn writer(&self, slot: Slot, before: u32, found: Option<Find>) -> Option<u32>
        requires last { IsLastBefore self.now.postings
            (record { slot = slot; event = before }) found }
        ensures write { (rs : List Recorded) → IsIndexOf self.now rs
            → result ≡ last_write (owners_of self.now) rs slot before }
        ensures before { IfSome result (λ event. event < before) }
    {
        match self.written(slot, before, found) {
            Some(event) => Some(event),
            None => self.creation(slot, before),
        }
    }

    fn written(&self, slot: Slot, before: u32, found: Option<Find>) -> Option<u32>
        requires last { IsLastBefore self.now.postings
            (record { slot = slot; event = before }) found }
        ensures write { (rs : List Recorded) → IsIndexOf self.now rs
            → result ≡ written rs slot before }
        ensures before { IfSome result (λ event. event < before) }
    {
        let Some(find) = found else {
            return None;
        };
        if is_same(slot, find.posting.slot) {
            Some(find.posting.event)
        } else {
            None
        }
    }

    /// The New of an object's field or an array's element, and the Init of a static field's class, if it is below a moment.
    pub fn creation(&self, slot: Slot, before: u32) -> Option<u32>
        ensures creation { (rs : List Recorded) → IsIndexOf self.now rs
            → result ≡ creation (owners_of self.now) rs slot before }
        ensures before { IfSome result (λ event. event < before) }
    {
        match self.maker(slot) {
            Some(event) if event < before => Some(event),
            _ => None,
        }
    }

    fn maker(&self, slot: Slot) -> Option<u32>
        ensures { (rs : List Recorded) → IsIndexOf self.now rs
            → result ≡ maker_of (owners_of self.now) rs slot }
    {
        match slot {
            Slot::Static { field } => self.inits.get(&self.owner(field)).copied(),
            Slot::Field { object, .. } => self.new_at(object),
            Slot::Elem { array, .. } => self.new_at(array),
            _ => None,
        }
    }

    /// The class that declares a field.
    fn owner(&self, field: u32) -> u32
        ensures { result ≡ owners_of self.now field }
    {
        if (field as usize) < self.owners.len() {
            self.owners[field as usize]
        } else {
            0
        }
    }

    /// The event, if it is a New.
    fn new_at(&self, event: u32) -> Option<u32>
        ensures { (rs : List Recorded) → IsIndexOf self.now rs
            → result ≡ made_new event (slice_get rs event) }
    {
        match self.made(event) {
            Some(_) => Some(event),
            None => None,
        }
    }

    /// What an event made, and None exactly where it is no New.
    pub fn made(&self, event: u32) -> Option<Made>
        ensures { (rs : List Recorded) → IsIndexOf self.now rs
            → result ≡ made_at (slice_get rs event) }
    {
        if (event as usize) < self.made.len() {
            self.made[event as usize]
        } else {
            None
        }
    }

    /// The tests, calls, initializations and catches at a site, in order.
    pub fn at_site(&self, site: u32) -> &[Hit]
        ensures { (rs : List Recorded) → IsIndexOf self.now rs → result.now ≡ hits_in rs site }
    {
        match self.hits.get(&site) {
            Some(hits) => hits.as_slice(),
            None => &[],
        }
    }

    /// The Print events, in order.
    pub fn prints(&self) -> &[u32]
        ensures { (rs : List Recorded) → IsIndexOf self.now rs → result.now ≡ prints_in rs }
    {
        self.prints.as_slice()
    }

    /// The first Call of a method, and NONE where there is none.
    pub fn first_call(&self, method: u32) -> u32
        ensures { (rs : List Recorded) → IsIndexOf self.now rs
            → present result ≡ first_from (is_call_of method) 0 rs }
    {
        self.calls.get(&method).copied().unwrap_or(NONE)
    }

    /// The first Init of a class, and NONE where there is none.
    pub fn first_init(&self, class: u32) -> u32
        ensures { (rs : List Recorded) → IsIndexOf self.now rs
            → present result ≡ first_from (is_init_of class) 0 rs }
    {
        self.inits.get(&class).copied().unwrap_or(NONE)
    }
}
