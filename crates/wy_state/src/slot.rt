//! Steps of slots, and what a value refers to.

ghost use Rattle.std.specs.Prelude.{◌≡◌, ℕ, IfOk, OnOk, Some};
ghost use Rattle.wy_heap.specs.Heap.{is_made};
ghost use Rattle.wy_kernel.specs.Program as kernel;
ghost use Rattle.wy_meaning.specs.World.{World, length_of, type_of, units_of};
ghost use Rattle.wy_steps.specs.Sets.{nothing};
ghost use Rattle.wy_steps.specs.State.{return};
ghost use Rattle.wy_meaning.specs.Statement.{declaration};
ghost use Rattle.wy_steps.specs.Steps.{is_begun};
ghost use Rattle.wy_kernel.specs.Parts.{program_of};
ghost use Rattle.wy_state.specs.Agrees.{shape, IsSameButLocals, Meets, Onward, itself};
ghost use Rattle.wy_state.specs.Steps.{local_slot, put, value_of_slot};

use crate::register::Register;
use crate::state::State;
use std::alloc::AllocError;
use wy_event::record::Slot;
use wy_kernel::code::type_of_code;
use wy_kernel::program::Program;
use wy_kernel::types::{Base, NONE, Ty};
use wy_value::Value;

/// The type of a text.
const STRING: Ty = Ty::Of {
    base: Base::Class(1),
    brackets: 0,
};

impl<'a, R: Register> State<'a, R> {
    /// The slot of a local of the running body.
    pub fn local(&self, index: u32) -> Slot
        ensures step { (p : kernel.Program)
            → Onward p (shape R.keeps R.kept self.now) (local_slot index)
            (shape R.keeps R.kept self.now) (return result) }
        ensures local { (f : ℕ) × (result ≡ Slot.Local f index) }
    {
        let frame = self.calls.frame();
        Slot::Local {
            frame: if frame == NONE { 0 } else { frame },
            index,
        }
    }

    /// The value of a slot.
    pub fn read(&self, slot: Slot) -> Result<Value, AllocError>
        ensures { (p : kernel.Program) → Meets p itself result (shape R.keeps R.kept self.now)
            (value_of_slot slot) (shape R.keeps R.kept self.now) }
    {
        match slot {
            Slot::Local { frame, index } => match self.calls.find_local(frame, index) {
                Some(value) => Ok(value),
                None => Err(AllocError),
            },
            _ => match self.heap.find(slot) {
                Some(value) => Ok(value),
                None => Err(AllocError),
            },
        }
    }

    /// A slot holds a value from now on.
    pub fn put(&mut self, slot: Slot, value: Value) -> Result<(), AllocError>
        ensures step { (p : kernel.Program) → Meets p itself result (shape R.keeps R.kept self.old)
            (put slot value) (shape R.keeps R.kept self.new) }
        ensures frames { OnOk result (IsSameButLocals self.old.calls self.new.calls) }
        ensures left { self.new.left ≡ self.old.left }
        ensures events { self.new.events ≡ self.old.events }
    {
        match slot {
            Slot::Local { frame, index } => self.put_local(frame, index, value),
            _ => self.put_made(slot, value),
        }
    }

    /// A local of the running body holds a value from now on.
    fn put_local(&mut self, frame: u32, index: u32, value: Value) -> Result<(), AllocError>
        ensures step { (p : kernel.Program) → Meets p itself result (shape R.keeps R.kept self.old)
            (put (Slot.Local frame index) value) (shape R.keeps R.kept self.new) }
        ensures frames { OnOk result (IsSameButLocals self.old.calls self.new.calls) }
        ensures left { self.new.left ≡ self.old.left }
        ensures events { self.new.events ≡ self.old.events }
    {
        if frame == NONE || frame != self.calls.frame() {
            return Err(AllocError);
        }
        let Some(_) = self.calls.local(index) else {
            return Err(AllocError);
        };
        self.calls.set_local(index, value);
        Ok(())
    }

    /// A static field, or a slot of an object or an array, holds a value from now on.
    fn put_made(&mut self, slot: Slot, value: Value) -> Result<(), AllocError>
        ensures step { (p : kernel.Program) → Meets p itself result (shape R.keeps R.kept self.old)
            (put slot value) (shape R.keeps R.kept self.new) }
        ensures calls { self.new.calls ≡ self.old.calls }
        ensures left { self.new.left ≡ self.old.left }
        ensures events { self.new.events ≡ self.old.events }
    {
        let Some(_) = self.heap.find(slot) else {
            return Err(AllocError);
        };
        self.heap.write(slot, value);
        Ok(())
    }

    /// A local of the running body has no value from now on.
    pub fn declare(&mut self, index: u32) -> Result<(), AllocError>
        ensures step { (p : kernel.Program) → Meets p itself result (shape R.keeps R.kept self.old)
            (declaration index) (shape R.keeps R.kept self.new) }
        ensures frames { OnOk result (IsSameButLocals self.old.calls self.new.calls) }
        ensures left { self.new.left ≡ self.old.left }
        ensures events { self.new.events ≡ self.old.events }
    {
        let Some(_) = self.calls.local(index) else {
            return Err(AllocError);
        };
        self.calls.set_local(index, Value::None);
        Ok(())
    }

    // ---- what a value refers to

    /// The run-time type of a reference.
    pub fn type_of(&self, value: Value) -> Result<Ty, AllocError>
        ensures { (p : kernel.Program) → Meets p itself result (shape R.keeps R.kept self.now)
            (type_of value) (shape R.keeps R.kept self.now) }
    {
        match value {
            Value::Object(number) => match self.heap.type_code(number) {
                Some(code) => Ok(type_of_code(code)),
                None => Err(AllocError),
            },
            Value::Text(_) => Ok(STRING),
            Value::Fixed(_) => Ok(STRING),
            _ => Ok(Ty::Null),
        }
    }

    /// The units of a text.
    pub fn units_of<'b>(
        &'b self,
        program: &'b Program,
        value: Value,
    ) -> Result<&'b [u16], AllocError>
        ensures { (w : World nothing) → w.program ≡ program_of program.now
            → Meets (program_of program.now) (λ units.
            units.now) result (shape R.keeps R.kept self.now)
            (units_of w value) (shape R.keeps R.kept self.now) }
    {
        match value {
            Value::Text(number) => match self.heap.text_of(number) {
                Some(units) => Ok(units),
                None => Err(AllocError),
            },
            Value::Fixed(number) => {
                if number as usize >= program.fixed_texts.len() {
                    return Err(AllocError);
                }
                Ok(program.fixed_text(number))
            }
            _ => Ok(&[]),
        }
    }

    /// The number of an array's elements.
    pub fn length_of(&self, array: u32) -> Result<u32, AllocError>
        ensures { (p : kernel.Program) → Meets p itself result (shape R.keeps R.kept self.now)
            (length_of array) (shape R.keeps R.kept self.now) }
    {
        match self.heap.length_of(array) {
            Some(length) => Ok(length),
            None => Err(AllocError),
        }
    }

    /// The initialization of a class is going on or done.
    pub fn is_begun(&self, class: u32) -> bool
        ensures step { (p : kernel.Program)
            → Onward p (shape R.keeps R.kept self.now) (is_begun class)
            (shape R.keeps R.kept self.now) (return result) }
        ensures made { result ≡ is_made self.now.heap class }
    {
        self.heap.is_begun(class)
    }
}
