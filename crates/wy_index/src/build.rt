//! One pass over the events of a trace, and what it finds.

ghost use Rattle.std.specs.Prelude.{◌≡◌, ◌<◌, ◌^◌, ◌++◌, ◌∷◌, ℕ, List, [], OnOk, Some, None, if◌then◌else◌, length, vec_len, nat_eq};
ghost use Rattle.std.specs.Ordering.{nat_cmp};
ghost use Rattle.std.specs.BTreeMap.{get};
ghost use Rattle.wy_event.specs.Record.{Recorded, recorded};
ghost use Rattle.wy_kernel.specs.View.{present};
ghost use Rattle.wy_event.specs.Sources.{is_entity, or_else};
ghost use Rattle.wy_index.specs.Found.{posting_of, print_of, is_call_of, is_init_of, body_at, hit_from, one_if};
ghost use Rattle.wy_index.specs.Kept.{kept_under};
ghost use Rattle.wy_view.specs.References.{RefersBelow};

use crate::found::{Hit, Made, body_of, is_call, is_hit, is_init, is_print, is_write, made_by};
use crate::posting::Posting;
use std::alloc::{AllocError, Global};
use std::collections::BTreeMap;
use wy_event::record::Event;
use wy_kernel::types::NONE;

#[tactic(auto, unfolding(wy_event::specs::Record::recorded))]
fn note_write(writes: &mut Vec<Posting>, n: u32, event: &Event) -> Result<(), AllocError>
    ensures { OnOk result
        (writes.new.items ≡ writes.old.items ++ posting_of n (recorded event.now)) }
{
    if is_write(event.kind) {
        writes.push(Posting {
            slot: event.slot,
            event: n,
        })?;
    }
    Ok(())
}

#[tactic(auto, unfolding(wy_event::specs::Record::recorded))]
fn note_print(prints: &mut Vec<u32>, n: u32, event: &Event) -> Result<(), AllocError>
    ensures { OnOk result (prints.new.items ≡ prints.old.items ++ print_of n (recorded event.now)) }
{
    if is_print(event.kind) {
        prints.push(n)?;
    }
    Ok(())
}

/// Keeps the first event under a number, where there is one.
fn note_first(firsts: &mut BTreeMap<u32, u32>, key: u32, n: u32) -> Result<(), AllocError>
    ensures { OnOk result ((q : ℕ) → get nat_cmp firsts.new q
        ≡ or_else (get nat_cmp firsts.old q) (if is_entity (present key) q then Some n else None)) }
{
    if key != NONE && !firsts.contains_key(&key) {
        firsts.insert(key, n)?;
    }
    Ok(())
}

#[tactic(auto, unfolding(wy_event::specs::Record::recorded))]
fn note_call(calls: &mut BTreeMap<u32, u32>, n: u32, event: &Event) -> Result<(), AllocError>
    ensures { OnOk result ((q : ℕ) → get nat_cmp calls.new q
        ≡ or_else (get nat_cmp calls.old q)
        (if is_call_of q (recorded event.now) then Some n else None)) }
{
    if is_call(event.kind) {
        note_first(calls, event.entity, n)?;
    }
    Ok(())
}

#[tactic(auto, unfolding(wy_event::specs::Record::recorded))]
fn note_init(inits: &mut BTreeMap<u32, u32>, n: u32, event: &Event) -> Result<(), AllocError>
    ensures { OnOk result ((q : ℕ) → get nat_cmp inits.new q
        ≡ or_else (get nat_cmp inits.old q)
        (if is_init_of q (recorded event.now) then Some n else None)) }
{
    if is_init(event.kind) {
        note_first(inits, event.entity, n)?;
    }
    Ok(())
}

/// The body of an event's frame, by the bodies that the events before it begin.
fn caller(bodies: &[u32], frame: u32) -> u32
    ensures { result ≡ body_at bodies.now (present frame) }
{
    if (frame as usize) < bodies.len() && frame != NONE {
        bodies[frame as usize]
    } else {
        NONE
    }
}

/// Puts a hit behind those of its site.
fn keep_hit(
    alloc: Global,
    hits: &mut BTreeMap<u32, Vec<Hit>>,
    site: u32,
    hit: Hit,
) -> Result<(), AllocError>
    ensures { OnOk result ((q : ℕ) → kept_under hits.new q
        ≡ kept_under hits.old q ++ one_if (nat_eq site q) hit) }
{
    if let Some(kept) = hits.get_mut(&site) {
        kept.push(hit)?;
    } else {
        let mut kept = Vec::new(alloc);
        kept.push(hit)?;
        hits.insert(site, kept)?;
    }
    Ok(())
}

#[tactic(auto, unfolding(wy_event::specs::Record::recorded), using(crate::proofs::Numbers::number_of_present))]
fn note_hit(
    alloc: Global,
    hits: &mut BTreeMap<u32, Vec<Hit>>,
    caller: u32,
    n: u32,
    event: &Event,
) -> Result<(), AllocError>
    ensures { OnOk result ((q : ℕ) → kept_under hits.new q
        ≡ kept_under hits.old q ++ hit_from caller q n (recorded event.now)) }
{
    if is_hit(event.kind) {
        let hit = Hit {
            event: n,
            kind: event.kind,
            entity: event.entity,
            caller,
            value: event.value,
        };
        keep_hit(alloc, hits, event.site, hit)?;
    }
    Ok(())
}

/// What is found in the events of a trace so far: from it comes an index, once all were noted.
#[derive(Drop)]
pub struct Findings {
    pub(crate) writes: Vec<Posting>,
    pub(crate) made: Vec<Option<Made>>,
    pub(crate) prints: Vec<u32>,
    /// The first Call of each method, and the first Init of each class.
    pub(crate) calls: BTreeMap<u32, u32>,
    pub(crate) inits: BTreeMap<u32, u32>,
    /// The hits at each site.
    pub(crate) hits: BTreeMap<u32, Vec<Hit>>,
    /// The body that each event begins.
    pub(crate) bodies: Vec<u32>,
}

impl Findings {
    ghost use Rattle.wy_index.specs.Findings.{HasFound};

    /// No event was noted yet.
    pub fn new(alloc: Global) -> Findings
        ensures { HasFound result [] }
    {
        Findings {
            writes: Vec::new(alloc),
            made: Vec::new(alloc),
            prints: Vec::new(alloc),
            calls: BTreeMap::new(alloc),
            inits: BTreeMap::new(alloc),
            hits: BTreeMap::new(alloc),
            bodies: Vec::new(alloc),
        }
    }

    /// Takes the next event, with its number.
    pub fn note(&mut self, alloc: Global, n: u32, event: &Event) -> Result<(), AllocError>
        requires refers { RefersBelow n (recorded event.now) }
        ensures { (rs : List Recorded) → HasFound self.old rs → length rs ≡ n
            → OnOk result (HasFound self.new (rs ++ recorded event.now ∷ [])) }
    {
        note_write(&mut self.writes, n, event)?;
        self.made.push(made_by(event))?;
        note_print(&mut self.prints, n, event)?;
        note_call(&mut self.calls, n, event)?;
        note_init(&mut self.inits, n, event)?;
        note_hit(
            alloc,
            &mut self.hits,
            caller(&self.bodies, event.frame),
            n,
            event,
        )?;
        self.bodies.push(body_of(event))?;
        Ok(())
    }
}
