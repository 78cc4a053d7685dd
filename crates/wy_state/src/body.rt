//! Steps of bodies and statements: coverage, frames, and what is active.

ghost use Rattle.std.specs.Prelude.{◌≡◌, ◌≤◌, ◌<◌, ◌↔◌, ℕ, IsTrue, IfSome, OnOk, length, slice_index_or, Some};
ghost use Rattle.wy_state.specs.Seen.{blank};
ghost use Rattle.wy_calls.specs.Calls.{activated, closed, ended, entered, frame_of, left, opened, rest_of, event_of, first_of};
ghost use Rattle.wy_kernel.specs.Program.{Program};
ghost use Rattle.wy_steps.specs.State.{Around, Through};
ghost use Rattle.wy_kernel.specs.Limits.{depth_limit};
ghost use Rattle.wy_state.specs.Agrees.{shape, Meets, Onward, itself};
ghost use Rattle.wy_steps.specs.State.{return};
ghost use Rattle.wy_state.specs.Agrees.{IsCaused};
ghost use Rattle.wy_state.specs.Steps.{activate, activate_through, active_be, do_nothing, nothing_of, back_to, begin, enter_frame, finish, leave_by};

use crate::cover::{begun_at, ended, left_by};
use crate::register::Register;
use crate::state::State;
use std::alloc::AllocError;
use wy_calls::Scope;
use wy_event::record::Cover;
use wy_kernel::types::NONE;

impl<'a, R: Register> State<'a, R> {
    fn cover(&self, statement: u32) -> Option<Cover>
        ensures inside { IfSome result (λ c. statement < length self.now.covers.items) }
        ensures found { IfSome result (λ c.
            slice_index_or self.now.covers.items statement blank ≡ c) }
    {
        self.covers.get(statement as usize).copied()
    }

    /// A statement begins.
    pub fn begin(&mut self, statement: u32) -> Result<(), AllocError>
        ensures step { (p : Program) → Meets p itself result (shape R.keeps R.kept self.old)
            (begin statement) (shape R.keeps R.kept self.new) }
        ensures calls { OnOk result (self.new.calls ≡ self.old.calls) }
        ensures left { self.new.left ≡ self.old.left }
        ensures events { self.new.events ≡ self.old.events }
    {
        let Some(old) = self.cover(statement) else {
            return Err(AllocError);
        };
        let Some(cover) = begun_at(old, self.events) else {
            return Err(AllocError);
        };
        self.calls.begin(statement)?;
        self.covers[statement as usize] = cover;
        Ok(())
    }

    /// A statement ends normally, and with it the reaches of the tests that reach through it.
    pub fn finish(&mut self, statement: u32) -> Result<(), AllocError>
        ensures step { (p : Program) → Meets p itself result (shape R.keeps R.kept self.old)
            (finish statement) (shape R.keeps R.kept self.new) }
        ensures calls { OnOk result (self.new.calls ≡ ended statement self.old.calls) }
        ensures left { self.new.left ≡ self.old.left }
        ensures events { self.new.events ≡ self.old.events }
    {
        let Some(old) = self.cover(statement) else {
            return Err(AllocError);
        };
        let Some(cover) = ended(old) else {
            return Err(AllocError);
        };
        if !self.calls.may_end(statement) {
            return Err(AllocError);
        }
        self.covers[statement as usize] = cover;
        self.calls.end(statement);
        Ok(())
    }

    /// An event leaves a statement, and with it end the reaches of the tests that reach through it.
    pub fn leave_by(&mut self, statement: u32, event: u32) -> Result<(), AllocError>
        ensures step { (p : Program) → Meets p itself result (shape R.keeps R.kept self.old)
            (leave_by statement event) (shape R.keeps R.kept self.new) }
        ensures calls { OnOk result (self.new.calls ≡ ended statement self.old.calls) }
        ensures left { self.new.left ≡ self.old.left }
        ensures events { self.new.events ≡ self.old.events }
    {
        let Some(old) = self.cover(statement) else {
            return Err(AllocError);
        };
        if !self.calls.may_end(statement) {
            return Err(AllocError);
        }
        self.covers[statement as usize] = left_by(old, event);
        self.calls.end(statement);
        Ok(())
    }

    /// An event leaves a statement, or a stop finds it going on.
    pub fn cause(&mut self, statement: u32, event: u32) -> Result<(), AllocError>
        ensures covers { OnOk result
            (IsCaused statement event self.old.covers.items self.new.covers.items) }
        ensures calls { self.new.calls ≡ self.old.calls }
        ensures left { self.new.left ≡ self.old.left }
        ensures events { self.new.events ≡ self.old.events }
    {
        let Some(old) = self.cover(statement) else {
            return Err(AllocError);
        };
        self.covers[statement as usize] = left_by(old, event);
        Ok(())
    }

    /// No further body may begin.
    pub fn is_deepest(&self) -> bool
        ensures { IsTrue result ↔ (depth_limit ≤ length self.now.calls.frames) }
    {
        self.calls.is_full()
    }

    /// A body begins, in a frame of its own with so many locals.
    pub fn enter(&mut self, event: u32, locals: usize) -> Result<(), AllocError>
        ensures step { (p : Program) → Meets p itself result (shape R.keeps R.kept self.old)
            (enter_frame event) (shape R.keeps R.kept self.new) }
        ensures calls { OnOk result (self.new.calls ≡ entered event locals self.old.calls) }
        ensures left { self.new.left ≡ self.old.left }
        ensures events { self.new.events ≡ self.old.events }
    {
        let Ok(locals) = u32::try_from(locals) else {
            return Err(AllocError);
        };
        if event < self.entered || event == NONE {
            return Err(AllocError);
        }
        let Ok(()) = self.calls.enter(event, locals) else {
            return Err(AllocError);
        };
        self.entered = event + 1;
        Ok(())
    }

    /// The running body ends, and the one before it goes on.
    pub fn leave(&mut self)
        ensures step { (p : Program) → Onward p (shape R.keeps R.kept self.old)
            (back_to (event_of (rest_of self.old.calls.frames)))
            (shape R.keeps R.kept self.new) (return (itself tt)) }
        ensures calls { self.new.calls ≡ left self.old.calls }
        ensures left { self.new.left ≡ self.old.left }
        ensures events { self.new.events ≡ self.old.events }
    {
        self.calls.leave();
    }

    /// What is active now comes back when the scope is closed.
    pub fn open_scope(&mut self) -> Result<Scope, AllocError>
        ensures step { (p : Program) → Meets p nothing_of result (shape R.keeps R.kept self.old)
            do_nothing (shape R.keeps R.kept self.new) }
        ensures calls { OnOk result (self.new.calls ≡ opened self.old.calls) }
        ensures left { self.new.left ≡ self.old.left }
        ensures events { self.new.events ≡ self.old.events }
    {
        let scope = self.calls.open_scope()?;
        Ok(scope)
    }

    pub fn close_scope(&mut self, scope: Scope) -> Result<(), AllocError>
        ensures step { (p : Program) → Meets p itself result (shape R.keeps R.kept self.old)
            (active_be (first_of self.old.calls.scopes)) (shape R.keeps R.kept self.new) }
        ensures calls { OnOk result (self.new.calls ≡ closed self.old.calls) }
        ensures left { self.new.left ≡ self.old.left }
        ensures events { self.new.events ≡ self.old.events }
    {
        self.calls.close_scope(scope)?;
        Ok(())
    }

    /// An event is active until its scope is closed.
    pub fn activate(&mut self, event: u32) -> Result<(), AllocError>
        ensures step { (p : Program) → Meets p itself result (shape R.keeps R.kept self.old)
            (activate Around event) (shape R.keeps R.kept self.new) }
        ensures calls { OnOk result (self.new.calls ≡ activated event Around self.old.calls) }
        ensures left { self.new.left ≡ self.old.left }
        ensures events { self.new.events ≡ self.old.events }
    {
        self.calls.activate(event)?;
        Ok(())
    }

    /// An event is active until a statement of the running body ends.
    pub fn activate_through(&mut self, event: u32, statement: u32) -> Result<(), AllocError>
        ensures step { (p : Program) → Meets p itself result (shape R.keeps R.kept self.old)
            (activate_through event statement) (shape R.keeps R.kept self.new) }
        ensures calls { OnOk result (self.new.calls ≡ activated event
            (Through (frame_of self.old.calls) statement) self.old.calls) }
        ensures left { self.new.left ≡ self.old.left }
        ensures events { self.new.events ≡ self.old.events }
    {
        self.calls.test(event, statement)?;
        Ok(())
    }

    /// A block is about to begin, through which a Catch reaches.
    pub fn begin_early(&mut self, statement: u32) -> Result<(), AllocError>
        ensures step { (p : Program) → Meets p itself result (shape R.keeps R.kept self.old)
            do_nothing (shape R.keeps R.kept self.new) }
        ensures calls { OnOk result (self.new.calls ≡ self.old.calls) }
        ensures left { self.new.left ≡ self.old.left }
        ensures events { self.new.events ≡ self.old.events }
    {
        self.calls.begin(statement)?;
        Ok(())
    }
}
