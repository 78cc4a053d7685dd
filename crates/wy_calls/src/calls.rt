//! The bodies that run with their locals, and the events that are active.

ghost use Rattle.std.specs.Prelude.{◌≡◌, ◌<◌, ◌+◌, IfErr, IfOk, OnOk, length, nat_le, slice_get, true};
ghost use Rattle.std.specs.List.{All};
ghost use Rattle.wy_kernel.specs.View.{present};
ghost use Rattle.wy_steps.specs.State.{Around, Through};
ghost use Rattle.wy_kernel.specs.Limits.{depth_limit};
ghost use Rattle.wy_steps.specs.Steps.{parent};
ghost use Rattle.wy_calls.specs.Calls.{IsUpTo, MayEnd, Refuses, activated, closed, ended, entered, frame_of, held, left, locals_of, nothing_runs, opened, with_local};

use crate::entry::{
    close, end, is_innermost, is_next, is_sealed, mark_of, may_begin, next_mark, outlasting,
};
use crate::error::CallError;
use crate::frame::{find, local, newest, place, running};
use crate::parts::{Begun, Entry, Live, Reach};
use std::alloc::{AllocError, Global};
use std::marker::Model;
use wy_kernel::limit::DEPTH_LIMIT;
use wy_kernel::types::NONE;
use wy_value::Value;

/// A scope that was opened, by how many were open around it.
#[derive(Clone, Copy)]
pub struct Scope {
    pub depth: usize,
}

/// What stands of the calls of a run.
#[derive(Drop)]
pub struct Calls {
    frames: Vec<Live>,
    locals: Vec<Value>,
    active: Vec<Entry>,
    begun: Vec<Begun>,
    scopes: Vec<usize>,
}

impl Model for Calls {
    ghost use Rattle.std.specs.Prelude.{reverse};
    ghost use Rattle.wy_calls.specs.Calls.{CallStack};
    ghost use Rattle.wy_calls.specs.Layout.{active_in, framed, scopes_in, IsStanding};

    ghost Value = { CallStack };

    ghost view = { λ c. record {
      frames = framed (reverse c.frames.items) c.locals.items;
      active = active_in c.active.items;
      scopes = scopes_in c.active.items (reverse c.scopes.items);
    } };

    ghost invariant = { λ c.
        IsStanding (reverse c.begun.items) c.active.items (reverse c.scopes.items) };
}

impl Calls {
    pub fn new(alloc: Global) -> Calls
        ensures { result ≡ nothing_runs }
    {
        Calls {
            frames: Vec::new(alloc),
            locals: Vec::new(alloc),
            active: Vec::new(alloc),
            begun: Vec::new(alloc),
            scopes: Vec::new(alloc),
        }
    }

    /// Whether no further body may begin.
    pub fn is_full(&self) -> bool
        ensures { result ≡ nat_le depth_limit (length self.now.frames) }
    {
        self.frames.len() >= DEPTH_LIMIT
    }

    /// A body begins, in a frame of its own with so many locals. Where that is too deep, nothing changes.
    pub fn enter(&mut self, event: u32, locals: u32) -> Result<(), CallError>
        ensures entered { OnOk result (self.new ≡ entered event locals self.old) }
        ensures room { OnOk result (length self.old.frames < depth_limit) }
        ensures refused { IfErr result (λ e. Refuses e self.old self.new) }
    {
        if self.frames.len() >= DEPTH_LIMIT {
            return Err(CallError::TooDeep);
        }
        if event == NONE {
            return Err(CallError::NoMemory);
        }
        let base = self.locals.len();
        self.locals.resize(base + locals as usize, Value::None)?;
        self.frames.push(Live { event, base })?;
        Ok(())
    }

    /// The newest body ends, and its locals with it.
    pub fn leave(&mut self)
        ensures { self.new ≡ left self.old }
    {
        if let Some(live) = self.frames.pop() {
            self.locals.truncate(live.base);
        }
    }

    /// The event of the newest body, or NONE.
    pub fn frame(&self) -> u32
        ensures { present result ≡ frame_of self.now }
    {
        newest(&self.frames)
    }

    /// The value of a local of the newest body, where it has that local.
    pub fn local(&self, index: u32) -> Option<Value>
        ensures { result ≡ slice_get (locals_of self.now.frames) index }
    {
        local(&self.frames, &self.locals, index)
    }

    /// The value of a local of a live frame, where there is one.
    pub fn find_local(&self, frame: u32, index: u32) -> Option<Value>
        ensures { result ≡ held self.now.frames frame index }
    {
        find(&self.frames, &self.locals, frame, index)
    }

    /// A local of the newest body holds a value from now on.
    pub fn set_local(&mut self, index: u32, value: Value)
        requires { index < length (locals_of self.old.frames) }
        ensures { self.new ≡ with_local index value self.old }
    {
        let Some(at) = place(&self.frames, &self.locals, index) else {
            return;
        };
        self.locals[at] = value;
    }

    /// The number of the newest active entry, which is the greatest, or NONE.
    pub fn control(&self) -> u32
        ensures parent { present result ≡ parent self.now.active }
        ensures greatest { All (λ a. IsUpTo result a) self.now.active }
    {
        match self.active.last() {
            Some(entry) => entry.number,
            None => NONE,
        }
    }

    /// An event is active until its scope is closed. It comes after all that are active.
    pub fn activate(&mut self, event: u32) -> Result<(), AllocError>
        ensures { OnOk result (self.new ≡ activated event Around self.old) }
    {
        if !is_next(&self.active, event) {
            return Err(AllocError);
        }
        self.active.push(Entry {
            number: event,
            reach: Reach::Around,
        })?;
        Ok(())
    }

    /// An event is active until a statement of the newest body ends, or its scope is closed. It comes after all that are active. A
    /// statement that hasn't begun is refused.
    pub fn test(&mut self, event: u32, statement: u32) -> Result<(), AllocError>
        ensures { OnOk result
            (self.new ≡ activated event (Through (frame_of self.old) statement) self.old) }
    {
        let Some(frame) = running(&self.frames) else {
            return Err(AllocError);
        };
        let Some(mark) = mark_of(&self.begun, frame, statement) else {
            return Err(AllocError);
        };
        if event < mark || !is_next(&self.active, event) {
            return Err(AllocError);
        }
        self.active.push(Entry {
            number: event,
            reach: Reach::Through { frame, statement },
        })?;
        Ok(())
    }

    /// A statement of the newest body begins: from here on tests may reach through it. Where it is the innermost that has begun, it has
    /// begun already, as the block of a catch before its Catch is recorded. A statement within itself is refused.
    pub fn begin(&mut self, statement: u32) -> Result<(), AllocError>
        ensures { OnOk result (self.new ≡ self.old) }
    {
        let Some(frame) = running(&self.frames) else {
            return Err(AllocError);
        };
        if is_innermost(&self.begun, frame, statement) {
            return Ok(());
        }
        if !may_begin(&self.begun, frame, statement) {
            return Err(AllocError);
        }
        let mark = next_mark(&self.active);
        self.begun.push(Begun {
            frame,
            statement,
            mark,
        })?;
        Ok(())
    }

    /// Whether a statement of the newest body may end: a body runs, and nothing that comes back with the newest scope reaches through
    /// the statement.
    pub fn may_end(&self, statement: u32) -> bool
        ensures { result ≡ true → MayEnd statement self.now }
    {
        let Some(frame) = running(&self.frames) else {
            return false;
        };
        let from = outlasting(&self.begun, &self.active, frame, statement);
        !is_sealed(&self.scopes, from)
    }

    /// A statement of the newest body ends, and with it what reaches through it.
    pub fn end(&mut self, statement: u32)
        requires { MayEnd statement self.old }
        ensures { self.new ≡ ended statement self.old }
    {
        let Some(frame) = running(&self.frames) else {
            return;
        };
        let from = outlasting(&self.begun, &self.active, frame, statement);
        close(&mut self.begun, frame, statement);
        end(&mut self.active, from, frame, statement);
    }

    /// What is active now comes back when the scope is closed.
    pub fn open_scope(&mut self) -> Result<Scope, AllocError>
        ensures opened { OnOk result (self.new ≡ opened self.old) }
        ensures depth { IfOk result (λ s. s.depth ≡ length self.old.scopes) }
    {
        let depth = self.scopes.len();
        self.scopes.push(self.active.len())?;
        Ok(Scope { depth })
    }

    /// What was active when the scope was opened is active again. Any scope but the newest is refused.
    pub fn close_scope(&mut self, scope: Scope) -> Result<(), AllocError>
        ensures closed { OnOk result (self.new ≡ closed self.old) }
        ensures newest { OnOk result (length self.old.scopes ≡ scope.depth + 1) }
    {
        let Some(mark) = self.scopes.pop() else {
            return Err(AllocError);
        };
        if self.scopes.len() != scope.depth {
            return Err(AllocError);
        }
        self.active.truncate(mark);
        Ok(())
    }
}
