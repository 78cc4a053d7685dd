//! A trace on a shelf that is read for the first time: by pieces, each of which is checked when it comes.

ghost use Rattle.std.specs.Prelude.{◌≡◌, ◌+◌, ◌≤◌, ◌++◌, [], ℕ, List, IfErr, IfOk, IfSome, OnOk, drop, length, map, string_bytes};
ghost use Rattle.wy_event.specs.declared.record.Head.{Head};
ghost use Rattle.wy_event.specs.declared.record.Version.{Version};
ghost use Rattle.wy_event.specs.Record.{recorded};
ghost use Rattle.wy_fitting.specs.Fits.{AllFit};
ghost use Rattle.wy_frames.specs.Progress.{Progress, event_in, start};
ghost use Rattle.wy_kernel.specs.declared.program.Program.{Program};
ghost use Rattle.wy_kernel.specs.Limits.{trace_limit};
ghost use Rattle.wy_spelling.specs.Spelling.{opening};
ghost use Rattle.law_placing.specs.Ended.{EndStands};
ghost use Rattle.law_reading.specs.Spelled.{AreBytes};
ghost use Rattle.wy_page.specs.Opening.{IsUnread, MayBeOpened, OpenCounts, Opens};
ghost use Rattle.wy_page.specs.Paged.{IsFresh, IsOfShelf};
ghost use Rattle.wy_page.specs.Places.{AreMarked, RiseTo, ends_of};
ghost use Rattle.wy_page.specs.Reads.{AreOthers, IsReading, Reads, ReadsAll, ReadsOn};
ghost use Rattle.wy_page.specs.Noted.{HasNoted, HaveFound, Noted};

use crate::error::{PageError, refusal};
use crate::marks::Marks;
use crate::noting::note_all;
use crate::pages::Pages;
use law_placing::{
    read_ends_stand, read_events_are_placed, read_events_are_told, read_traces_end_sealed,
};
use law_reading::{decoded_events_refer_below, read_events_refer_below};
use std::alloc::{AllocError, Global};
use std::slice;
use wy_event::record::{Head, Tail, Version};
use wy_fitting::events_fit;
use wy_frames::{ReadEvent, Scanner, TraceError};
use wy_index::build::Findings;
use wy_kernel::limit::TRACE_LIMIT;
use wy_kernel::program::Program;
use wy_outside::shelf::Shelf;
use wy_view::ViewError;

/// How many bytes are asked for at a time.
const PIECE: u32 = 1_048_576;

/// The bytes of the magic, of a frame's letter and length, and of the three numbers of a head.
const HEAD_NUMBERS: usize = 25;

/// How far a trace was read, what was found of its blocks, and the bytes of the last one, which isn't whole.
#[derive(Drop)]
pub(crate) struct Reading<'a> {
    pub alloc: Global,
    pub version: Version,
    pub scanner: Scanner<'a>,
    pub marks: Marks,
    pub bytes: Vec<u8>,
    pub at: u32,
}

#[tactic(auto, using(wy_frames::proofs::Openings::opening_is_long, wy_frames::proofs::Openings::payload_is_long))]
fn place_behind(version: Version, head: &Head) -> u32
    requires { length (opening version head.now) ≤ trace_limit }
    ensures { result ≡ length (opening version head.now) }
{
    (HEAD_NUMBERS + head.input.as_slice().len() + head.source.as_slice().len()) as u32
}

fn places_behind(alloc: Global, placed: &[ReadEvent]) -> Result<Vec<u32>, AllocError>
    ensures { IfOk result (λ ends. ends.items ≡ ends_of placed.now) }
{
    placed.iter().map(|one| one.end).collect(alloc)
}

fn each_fits(placed: &[ReadEvent])
    ensures { AllFit (map recorded (map event_in placed.now)) }
{
    for one in placed {
        events_fit(slice::from_ref(&one.event));
    }
}

fn are_bytes(bytes: &[u8])
    ensures { AreBytes bytes.now }
{}

#[tactic(auto, using(crate::proofs::Bytes::head_bytes))]
fn is_of_bytes(version: Version, head: &Head)
    ensures { AreBytes (opening version head.now) }
{
    are_bytes(head.input.as_slice());
    are_bytes(head.source.as_slice());
}

impl<'a> Reading<'a> {
    /// Behind the frame of a head.
    fn begin(alloc: Global, head: &Head, version: Version, program: &'a Program) -> Reading<'a>
        requires { length (opening version head.now) ≤ trace_limit }
        ensures { Reads result version program.now head.now [] (start version head.now) }
    {
        let at = place_behind(version, head);
        Reading {
            alloc,
            version,
            scanner: Scanner::behind(alloc, head, version, program),
            marks: Marks::begin(alloc, at),
            bytes: Vec::new(alloc),
            at,
        }
    }

    // Marks the events whose frames end in the bytes that are there, and keeps those of the last block.
    fn mark(&mut self, ends: &[u32]) -> Result<(), AllocError>
        requires within { self.old.marks.end
            ≤ self.old.marks.from + length self.old.bytes.items }
        requires rise { RiseTo (self.old.marks.from + length self.old.bytes.items)
            self.old.marks.end ends.now }
        ensures marked { OnOk result ((places all : List ℕ)
            → self.old.bytes.items ≡ drop self.old.marks.from all
            → AreMarked self.old.marks places all
            → AreMarked self.new.marks (places ++ ends.now) all) }
        ensures left { OnOk result ((all : List ℕ)
            → self.old.bytes.items ≡ drop self.old.marks.from all
            → self.new.bytes.items ≡ drop self.new.marks.from all) }
        ensures version { self.new.version ≡ self.old.version }
        ensures scanner { self.new.scanner ≡ self.old.scanner }
        ensures at { self.new.at ≡ self.old.at }
    {
        let base = self.marks.from;
        self.marks.note_all(base, self.bytes.as_slice(), ends)?;
        let whole = (self.marks.from - base) as usize;
        self.bytes = Vec::from_slice(self.alloc, &self.bytes[whole..])?;
        Ok(())
    }

    /// Takes the next piece, and notes the events that end in it.
    fn take(&mut self, piece: &[u8], found: &mut Option<Findings>) -> Result<(), TraceError>
        requires reading { IsReading self.old }
        requires room { self.old.at + length piece.now ≤ trace_limit }
        ensures read { (v : Version) (p : Program) (head : Head) (fed : List ℕ) (t : Progress)
            → Reads self.old v p head fed t → Noted found.old t
            → ReadsOn (Noted found.new) result self.new v p head (fed ++ piece.now) }
        ensures at { OnOk result (self.new.at ≡ self.old.at + length piece.now) }
    {
        let placed = match self.scanner.feed(piece) {
            Ok(placed) => placed,
            Err(error) => return Err(error),
        };
        read_events_are_placed();
        read_events_refer_below();
        are_bytes(piece);
        each_fits(placed.as_slice());
        note_all(self.alloc, found, self.marks.count, placed.as_slice())?;
        let ends = places_behind(self.alloc, placed.as_slice())?;
        self.bytes.extend_from_slice(piece)?;
        self.mark(ends.as_slice())?;
        self.at += piece.len() as u32;
        Ok(())
    }

    /// What is kept of the trace that was read, and its end.
    fn finish(self, name: String) -> Result<(Pages, Tail), TraceError>
        requires reading { IsReading self }
        ensures read { (v : Version) (p : Program) (head : Head) (fed : List ℕ) (t : Progress)
            → Reads self.entry v p head fed t → ReadsAll result v head fed t }
        ensures fresh { IfOk result (λ x. IsFresh x.0 name) }
    {
        read_events_are_placed();
        let Reading {
            alloc,
            version,
            scanner,
            mut marks,
            bytes,
            at: _,
        } = self;
        let (tail, seal) = match scanner.finish() {
            Ok(end) => end,
            Err(error) => return Err(error),
        };
        marks.end(bytes.as_slice())?;
        let Marks {
            starts,
            digests,
            from: _,
            count,
            end: _,
        } = marks;
        let pages = Pages::fresh(alloc, name, version, starts, digests, seal, count)?;
        Ok((pages, tail))
    }
}

/// Reads what stands in the file behind the frame of a head, piece by piece, to its end, and notes each event.
fn read_whole<'a, S: Shelf>(
    alloc: Global,
    shelf: &mut S,
    name: &str,
    head: &Head,
    version: Version,
    program: &'a Program,
    found: &mut Option<Findings>,
) -> Result<Reading<'a>, PageError>
    requires nothing { HaveFound found.old [] }
    requires short { length (opening version head.now) ≤ trace_limit }
    requires file { MayBeOpened (S.held shelf.old) name.now version head.now }
    ensures read { IfOk result (λ r. (fed : List ℕ) × (t : Progress)
        × Reads r version program.now head.now fed t × Noted found.new t
        × AreOthers (S.held shelf.old) name.now (length (opening version head.now)) fed) }
    ensures refused { IfErr result (λ e.
        IsUnread (S.held shelf.old) name.now version program.now head.now e) }
    ensures counts { OpenCounts result (S.faults shelf.old) (S.faults shelf.new)
        (S.misses shelf.old) (S.misses shelf.new) }
    ensures fulls { S.fulls shelf.new ≡ S.fulls shelf.old }
    ensures held { S.held shelf.new ≡ S.held shelf.old }
    ensures faults_kept { S.faults shelf.old ≤ S.faults shelf.new }
    ensures misses_kept { S.misses shelf.old ≤ S.misses shelf.new }
{
    let mut reading = Reading::begin(alloc, head, version, program);
    'pieces: loop {
        let wanted = PIECE.min(TRACE_LIMIT - reading.at);
        let piece = match shelf.read_at(alloc, name, reading.at, wanted) {
            Ok(piece) => piece,
            Err(error) => return Err(PageError::View(refusal(error))),
        };
        if let Err(error) = reading.take(piece.as_slice(), found) {
            return Err(PageError::Trace(error));
        }
        if piece.len() < PIECE as usize {
            return Ok(reading);
        }
    }
}

impl Pages {
    /// Reads a trace of a version on a shelf whole, once, and checks it by a program as a reader of all its bytes does: what stands
    /// behind the frame of its head, which was read before, up to the most bytes that a trace has.
    /// It keeps where each block of its events lies, and the digest of these bytes. The end is handed out beside. Each event is
    /// noted as it is read, where findings are wanted.
    pub fn open<S: Shelf>(
        alloc: Global,
        shelf: &mut S,
        name: &str,
        head: &Head,
        version: Version,
        program: &Program,
        found: &mut Option<Findings>,
    ) -> Result<(Pages, Tail), PageError>
        requires nothing { HaveFound found.old [] }
        requires short { length (opening version head.now) ≤ trace_limit }
        requires file { MayBeOpened (S.held shelf.old) name.now version head.now }
        ensures trace { Opens (S.held shelf.old) name.now program.now result }
        ensures fits { IfOk result (λ x. IsOfShelf x.0 (S.held shelf.old)) }
        ensures found { IfOk result (λ x. IfSome found.new (HasNoted x.0 (S.held shelf.old))) }
        ensures named { IfOk result (λ x. string_bytes x.0.name ≡ name.now) }
        ensures fresh { IfOk result (λ x. IsFresh x.0 x.0.name) }
        ensures end { IfOk result (λ x. EndStands program.now.statements x.0.count x.1) }
        ensures counts { OpenCounts result (S.faults shelf.old) (S.faults shelf.new)
            (S.misses shelf.old) (S.misses shelf.new) }
        ensures fulls { S.fulls shelf.new ≡ S.fulls shelf.old }
        ensures held { S.held shelf.new ≡ S.held shelf.old }
        ensures faults_kept { S.faults shelf.old ≤ S.faults shelf.new }
        ensures misses_kept { S.misses shelf.old ≤ S.misses shelf.new }
    {
        read_events_are_placed();
        read_events_are_told();
        read_ends_stand();
        read_traces_end_sealed();
        decoded_events_refer_below();
        read_events_refer_below();
        is_of_bytes(version, head);
        let kept = match String::from_str(alloc, name) {
            Ok(kept) => kept,
            Err(_) => return Err(PageError::View(ViewError::NoMemory)),
        };
        let reading = match read_whole(alloc, shelf, name, head, version, program, found) {
            Ok(reading) => reading,
            Err(error) => return Err(error),
        };
        match reading.finish(kept) {
            Ok(opened) => Ok(opened),
            Err(error) => Err(PageError::Trace(error)),
        }
    }
}
