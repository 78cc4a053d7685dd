//! One line of a session: what it says is done and answered.

ghost use Rattle.std.specs.Prelude.{◌≡◌, ◌<◌, ◌≤◌, ℕ, List, Some, IfOk, IfSome, OnErr, length};
ghost use Rattle.wy_event.specs.declared.record.Cover.{Cover};
ghost use Rattle.wy_event.specs.Record.{Recorded};
ghost use Rattle.wy_kernel.specs.declared.program.Program as memory;
ghost use Rattle.wy_kernel.specs.Parts.{program_of};
ghost use Rattle.wy_kernel.specs.Program.{Program};
ghost use Rattle.wy_static.specs.LookUps.{AreLinksOf};
ghost use Rattle.wy_view.specs.View.{KeepsCounts};
ghost use Rattle.wy_ask.specs.Opened.{IsOpenedOf, StaysOpened};
ghost use Rattle.wy_explore.specs.Commands as said;
ghost use Rattle.wy_explore.specs.Commands.{AsksAbout};
ghost use Rattle.wy_explore.specs.declared.explorer.Explorer.{Explorer};
ghost use Rattle.wy_explore.specs.Explorer.{AllAnswered, AllWithin, Fulfils, IsReplyWithin, Rising, reply_of, session_of};
ghost use Rattle.wy_explore.specs.Session.{Replies};

use crate::command::{Command, command_of};
use crate::explorer::{Answered, Explorer};
use crate::reply::Reply;
use std::alloc::{AllocError, Global};
use std::sync::ledger::Ledger;
use wy_ask::{AskError, Opened, number, read_question, resolve, statement};
use wy_static::Links;
use wy_travel::state_at;
use wy_view::{EventView, Steps, ViewError};
use wy_watch::{WATCH_LIMIT, WatchError, watch};
use wy_why::{sources, why};
use wy_whynot::{WhynotError, whynot};

/// The event that the words of a question ask about, if there is one.
fn event_of<V: EventView, L: Ledger>(
    alloc: Global,
    word: &str,
    opened: &Opened<'_, V>,
    steps: &mut Steps<L>,
) -> Result<Option<u32>, AllocError>
    requires { IsOpenedOf (V.tells opened.now.view) opened.now }
    ensures event { (rs : List Recorded) → (V.tells opened.now.view).records ≡ Some rs
        → IfOk result (AsksAbout (program_of opened.now.program.now) rs word.now) }
    ensures below { IfOk result (λ found.
        IfSome found (λ event. event < (V.tells opened.now.view).count)) }
    ensures forward { steps.old ≤ steps.new }
{
    let question = match read_question(alloc, word) {
        Ok(question) => question,
        Err(AskError::NoMemory) => return Err(AllocError),
        Err(_) => return Ok(None),
    };
    match resolve(&question, opened, steps) {
        Ok(event) => Ok(Some(event)),
        Err(AskError::NoMemory) => Err(AllocError),
        Err(_) => Ok(None),
    }
}

/// What kept the statement of a word from running.
fn reply_to_whynot<V: EventView>(
    alloc: Global,
    word: &str,
    opened: &Opened<'_, V>,
    links: &Links,
) -> Result<Reply, AllocError>
    requires opened { IsOpenedOf (V.tells opened.now.view) opened.now }
    requires links { AreLinksOf links.now (program_of opened.now.program.now) }
    ensures reply { (rs : List Recorded) → (V.tells opened.now.view).records ≡ Some rs
        → (x : Explorer) → IfOk result (Fulfils opened.now.program.now opened.now.coverage.now rs
        (said.WhyNot word.now) x x) }
    ensures within { (count : ℕ) → IfOk result (IsReplyWithin count) }
{
    let number = match statement(alloc, opened.program, word) {
        Ok(named) => named.number,
        Err(AskError::BadQuestion) => return Ok(Reply::NoSuch),
        Err(AskError::NoSuch(_)) => return Ok(Reply::NoSuch),
        Err(AskError::NoMemory) => return Err(AllocError),
    };
    match whynot(alloc, links, opened.coverage, &opened.index, number) {
        Ok(items) => Ok(Reply::Items(items)),
        Err(WhynotError::Ran { .. }) => Ok(Reply::NoSuch),
        Err(WhynotError::NoMemory) => Err(AllocError),
    }
}

impl Explorer {
    /// One line: what it says is done and answered. After an error nothing has changed.
    pub fn apply<V: EventView, L: Ledger>(
        &mut self,
        alloc: Global,
        line: &[u8],
        opened: &mut Opened<'_, V>,
        links: &Links,
        steps: &mut Steps<L>,
    ) -> Result<Reply, ViewError>
        requires opened { IsOpenedOf (V.tells opened.old.view) opened.old }
        requires links { AreLinksOf links.now (program_of opened.old.program.now) }
        requires within { AllWithin (V.tells opened.old.view).count self.old }
        ensures reply { (rs : List Recorded) → (V.tells opened.old.view).records ≡ Some rs
            → AllAnswered (program_of opened.old.program.now) rs self.old
            → IfOk result (λ r. Replies (program_of opened.old.program.now)
            opened.old.program.now.lines.items rs opened.old.coverage.now
            (session_of self.old) line.now (session_of self.new) (reply_of r)) }
        ensures answered { (rs : List Recorded) → (V.tells opened.old.view).records ≡ Some rs
            → AllAnswered (program_of opened.old.program.now) rs self.old
            → AllAnswered (program_of opened.old.program.now) rs self.new }
        ensures within { AllWithin (V.tells opened.old.view).count self.new }
        ensures reply_within { IfOk result (IsReplyWithin (V.tells opened.old.view).count) }
        ensures unchanged { OnErr result (self.new ≡ self.old) }
        ensures stays { StaysOpened V.tells opened.old opened.new }
        ensures answers { KeepsCounts result (V.tells opened.old.view) (V.tells opened.new.view) }
        ensures forward { steps.old ≤ steps.new }
    {
        match command_of(line) {
            Some(Command::Ask(word)) => self.ask(alloc, word, opened, steps),
            Some(Command::Listing) => Ok(self.listing()),
            Some(Command::Up) => Ok(self.go_up()),
            Some(Command::Down) => Ok(self.go_down()),
            Some(Command::Go(word)) => Ok(self.go_to(word, opened.view.count())),
            Some(Command::Sources) => self.sources(alloc, opened, steps),
            Some(Command::WhyNot(word)) => Ok(reply_to_whynot(alloc, word, opened, links)?),
            Some(Command::Frames) => self.frames(alloc, opened, steps),
            Some(Command::Show(text)) => self.show(alloc, text, opened, steps),
            Some(Command::Undo) => Ok(self.go_back()),
            Some(Command::Quit) => Ok(Reply::End),
            None => Ok(Reply::NoSuch),
        }
    }

    /// The answer is found before anything is changed.
    fn ask<V: EventView, L: Ledger>(
        &mut self,
        alloc: Global,
        word: &str,
        opened: &mut Opened<'_, V>,
        steps: &mut Steps<L>,
    ) -> Result<Reply, ViewError>
        requires opened { IsOpenedOf (V.tells opened.old.view) opened.old }
        requires within { AllWithin (V.tells opened.old.view).count self.old }
        ensures reply { (rs : List Recorded) → (V.tells opened.old.view).records ≡ Some rs
            → IfOk result (Fulfils opened.old.program.now opened.old.coverage.now rs
            (said.Ask word.now) self.old self.new) }
        ensures answered { (rs : List Recorded) → (V.tells opened.old.view).records ≡ Some rs
            → AllAnswered (program_of opened.old.program.now) rs self.old
            → AllAnswered (program_of opened.old.program.now) rs self.new }
        ensures within { AllWithin (V.tells opened.old.view).count self.new }
        ensures reply_within { IfOk result (IsReplyWithin (V.tells opened.old.view).count) }
        ensures unchanged { OnErr result (self.new ≡ self.old) }
        ensures stays { StaysOpened V.tells opened.old opened.new }
        ensures answers { KeepsCounts result (V.tells opened.old.view) (V.tells opened.new.view) }
        ensures forward { steps.old ≤ steps.new }
    {
        let Some(event) = event_of(alloc, word, opened, steps)? else {
            return Ok(Reply::NoSuch);
        };
        let answer = why(alloc, &mut opened.view, &opened.index, event, steps)?;
        self.ask_about(Answered { event, answer });
        Ok(Reply::At(Some(event)))
    }

    fn listing(&self) -> Reply
        ensures reply { (m : memory.Program) (covers : List Cover) (rs : List Recorded)
            → Fulfils m covers rs said.Listing self.now self.now result }
        ensures within { (count : ℕ) → AllWithin count self.now → IsReplyWithin count result }
    {
        match &self.question {
            Some(asked) => Reply::Answer(asked.event),
            None => Reply::NoSuch,
        }
    }

    fn go_up(&mut self) -> Reply
        requires { IfSome self.old.question Rising }
        ensures reply { (m : memory.Program) (covers : List Cover) (rs : List Recorded)
            → AllAnswered (program_of m) rs self.old
            → Fulfils m covers rs said.Up self.old self.new result }
        ensures answered { (p : Program) (rs : List Recorded) → AllAnswered p rs self.old
            → AllAnswered p rs self.new }
        ensures within { (count : ℕ) → AllWithin count self.old → AllWithin count self.new }
        ensures reply_within { (count : ℕ) → AllWithin count self.old
            → IsReplyWithin count result }
    {
        if self.up() {
            Reply::At(self.cursor)
        } else {
            Reply::NoSuch
        }
    }

    fn go_down(&mut self) -> Reply
        requires { IfSome self.old.question Rising }
        ensures reply { (m : memory.Program) (covers : List Cover) (rs : List Recorded)
            → AllAnswered (program_of m) rs self.old
            → Fulfils m covers rs said.Down self.old self.new result }
        ensures answered { (p : Program) (rs : List Recorded) → AllAnswered p rs self.old
            → AllAnswered p rs self.new }
        ensures within { (count : ℕ) → AllWithin count self.old → AllWithin count self.new }
        ensures reply_within { (count : ℕ) → AllWithin count self.old
            → IsReplyWithin count result }
    {
        if self.down() {
            Reply::At(self.cursor)
        } else {
            Reply::NoSuch
        }
    }

    fn go_to(&mut self, word: &str, count: u32) -> Reply
        ensures reply { (m : memory.Program) (covers : List Cover) (rs : List Recorded)
            → length rs ≡ count → Fulfils m covers rs (said.Go word.now) self.old self.new result }
        ensures answered { (p : Program) (rs : List Recorded) → AllAnswered p rs self.old
            → AllAnswered p rs self.new }
        ensures within { AllWithin count self.old → AllWithin count self.new }
        ensures reply_within { IsReplyWithin count result }
    {
        let Some(n) = number(word) else {
            return Reply::NoSuch;
        };
        if self.go(n, count) {
            Reply::At(Some(n))
        } else {
            Reply::NoSuch
        }
    }

    /// What the event that is looked at comes from directly.
    fn sources<V: EventView, L: Ledger>(
        &self,
        alloc: Global,
        opened: &mut Opened<'_, V>,
        steps: &mut Steps<L>,
    ) -> Result<Reply, ViewError>
        requires opened { IsOpenedOf (V.tells opened.old.view) opened.old }
        requires within { AllWithin (V.tells opened.old.view).count self.now }
        ensures reply { (rs : List Recorded) → (V.tells opened.old.view).records ≡ Some rs
            → IfOk result (Fulfils opened.old.program.now opened.old.coverage.now rs said.Sources
            self.now self.now) }
        ensures within { IfOk result (IsReplyWithin (V.tells opened.old.view).count) }
        ensures stays { StaysOpened V.tells opened.old opened.new }
        ensures answers { KeepsCounts result (V.tells opened.old.view) (V.tells opened.new.view) }
        ensures forward { steps.old ≤ steps.new }
    {
        let Some(event) = self.cursor else {
            return Ok(Reply::NoSuch);
        };
        let found = sources(alloc, &mut opened.view, &opened.index, event, steps)?;
        Ok(Reply::From(found))
    }

    /// The frames just before the event that is looked at, with what their locals held.
    fn frames<V: EventView, L: Ledger>(
        &self,
        alloc: Global,
        opened: &mut Opened<'_, V>,
        steps: &mut Steps<L>,
    ) -> Result<Reply, ViewError>
        requires opened { IsOpenedOf (V.tells opened.old.view) opened.old }
        requires within { AllWithin (V.tells opened.old.view).count self.now }
        ensures reply { (rs : List Recorded) → (V.tells opened.old.view).records ≡ Some rs
            → IfOk result (Fulfils opened.old.program.now opened.old.coverage.now rs said.Frames
            self.now self.now) }
        ensures within { IfOk result (IsReplyWithin (V.tells opened.old.view).count) }
        ensures stays { StaysOpened V.tells opened.old opened.new }
        ensures answers { KeepsCounts result (V.tells opened.old.view) (V.tells opened.new.view) }
        ensures forward { steps.old ≤ steps.new }
    {
        let Some(event) = self.cursor else {
            return Ok(Reply::NoSuch);
        };
        let state = state_at(
            alloc,
            &mut opened.view,
            &opened.index,
            opened.program,
            event,
            steps,
        )?;
        Ok(Reply::Frames(state))
    }

    /// What a text was worth just before the event that is looked at.
    fn show<V: EventView, L: Ledger>(
        &self,
        alloc: Global,
        text: &[u8],
        opened: &mut Opened<'_, V>,
        steps: &mut Steps<L>,
    ) -> Result<Reply, ViewError>
        requires opened { IsOpenedOf (V.tells opened.old.view) opened.old }
        requires within { AllWithin (V.tells opened.old.view).count self.now }
        ensures reply { (rs : List Recorded) → (V.tells opened.old.view).records ≡ Some rs
            → IfOk result (Fulfils opened.old.program.now opened.old.coverage.now rs
            (said.Show text.now) self.now self.now) }
        ensures within { IfOk result (IsReplyWithin (V.tells opened.old.view).count) }
        ensures stays { StaysOpened V.tells opened.old opened.new }
        ensures answers { KeepsCounts result (V.tells opened.old.view) (V.tells opened.new.view) }
        ensures forward { steps.old ≤ steps.new }
    {
        let Some(event) = self.cursor else {
            return Ok(Reply::NoSuch);
        };
        if text.len() > WATCH_LIMIT as usize {
            return Ok(Reply::NoSuch);
        }
        match watch(
            alloc,
            &mut opened.view,
            &opened.index,
            opened.program,
            event,
            text,
            steps,
        ) {
            Ok(value) => Ok(Reply::Shown(value)),
            Err(WatchError::NoValue) => Ok(Reply::NoSuch),
            Err(WatchError::View(error)) => Err(error),
            Err(WatchError::NoMemory) => Err(ViewError::NoMemory),
        }
    }

    fn go_back(&mut self) -> Reply
        ensures reply { (m : memory.Program) (covers : List Cover) (rs : List Recorded)
            → Fulfils m covers rs said.Undo self.old self.new result }
        ensures answered { (p : Program) (rs : List Recorded) → AllAnswered p rs self.old
            → AllAnswered p rs self.new }
        ensures within { (count : ℕ) → AllWithin count self.old → AllWithin count self.new }
        ensures reply_within { (count : ℕ) → AllWithin count self.old
            → IsReplyWithin count result }
    {
        if self.undo() {
            Reply::At(self.cursor)
        } else {
            Reply::NothingToUndo
        }
    }
}
