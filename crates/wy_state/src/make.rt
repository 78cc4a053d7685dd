//! Records that make something: objects, arrays, classes and texts.

ghost use Rattle.std.specs.Prelude.{◌≡◌, ◌+◌, [], false, IfOk, OnOk};
ghost use Rattle.wy_event.specs.declared.record.Kind.TheVariants as kind;
ghost use Rattle.wy_heap.specs.Heap.{is_made};
ghost use Rattle.wy_kernel.specs.Program.{Program};
ghost use Rattle.wy_meaning.specs.World.{about, class_code};
ghost use Rattle.wy_steps.specs.Steps.{note_new};
ghost use Rattle.wy_value.specs.declared.value.Value.TheVariants.{None as Nothing};
ghost use Rattle.wy_state.specs.Agrees.{shape, StepGives};
ghost use Rattle.wy_state.specs.Seen.{given, made_of};
ghost use Rattle.wy_state.specs.Steps.{make_array, make_text};

use crate::parts::{Draft, Halt, Limit};
use crate::register::Register;
use crate::state::State;
use wy_event::record::{Kind, Slot, Use};
use wy_kernel::code::FIRST_CLASS_CODE;
use wy_kernel::limit::{ELEMENT_LIMIT, UNIT_LIMIT};
use wy_kernel::types::NONE;
use wy_value::Value;

impl<'a, R: Register> State<'a, R> {
    /// Records the New of an object, whose fields then hold their defaults.
    pub fn note_object(&mut self, site: u32, class: u32, uses: &[Use]) -> Result<u32, Halt>
        ensures step { (p : Program) → StepGives p made_of result (shape R.keeps R.kept self.old)
            (note_new p (about kind.New site (class_code class) Nothing) (given Nothing uses.now))
            (shape R.keeps R.kept self.new) }
        ensures number { IfOk result (λ n. n ≡ self.old.events) }
        ensures calls { self.new.calls ≡ self.old.calls }
        ensures left { self.new.left ≡ self.old.left }
        ensures events { OnOk result (self.new.events ≡ self.old.events + 1) }
    {
        if class >= NONE - FIRST_CLASS_CODE {
            return Err(Halt::Memory);
        }
        let draft = Draft {
            kind: Kind::New,
            site,
            entity: FIRST_CLASS_CODE + class,
            slot: Slot::None,
            value: Value::None,
        };
        let (number, _units) = self.record(draft, Vec::new(self.alloc), uses)?;
        self.heap.make_object(number, class)?;
        Ok(number)
    }

    /// Records the New of an array of a type by its code, whose elements then hold their defaults.
    pub fn note_array(
        &mut self,
        site: u32,
        code: u32,
        length: u32,
        uses: &[Use],
    ) -> Result<u32, Halt>
        ensures step { (p : Program) → StepGives p made_of result (shape R.keeps R.kept self.old)
            (make_array p site code length uses.now) (shape R.keeps R.kept self.new) }
        ensures calls { self.new.calls ≡ self.old.calls }
        ensures left { self.new.left ≡ self.old.left }
        ensures events { OnOk result (self.new.events ≡ self.old.events + 1) }
    {
        let total = u64::from(self.elements) + u64::from(length);
        if total > u64::from(ELEMENT_LIMIT) {
            return Err(Halt::Stopped(Limit::Elements));
        }
        let Ok(size) = i32::try_from(length) else {
            return Err(Halt::Memory);
        };
        if code == NONE {
            return Err(Halt::Memory);
        }
        self.elements = total as u32;
        let draft = Draft {
            kind: Kind::New,
            site,
            entity: code,
            slot: Slot::None,
            value: Value::Int(size),
        };
        let (number, _units) = self.record(draft, Vec::new(self.alloc), uses)?;
        self.heap.make_array(number, code, length)?;
        Ok(number)
    }

    /// Records a Text that the run makes, which then has these units.
    pub fn note_text(&mut self, site: u32, units: Vec<u16>, uses: &[Use]) -> Result<u32, Halt>
        ensures step { (p : Program) → StepGives p made_of result (shape R.keeps R.kept self.old)
            (make_text site units.items uses.now) (shape R.keeps R.kept self.new) }
        ensures calls { self.new.calls ≡ self.old.calls }
        ensures left { self.new.left ≡ self.old.left }
        ensures events { OnOk result (self.new.events ≡ self.old.events + 1) }
    {
        let total = (self.units as usize).saturating_add(units.len());
        if total > UNIT_LIMIT as usize {
            return Err(Halt::Stopped(Limit::Units));
        }
        self.units = total as u32;
        let draft = Draft {
            kind: Kind::Text,
            site,
            entity: NONE,
            slot: Slot::None,
            value: Value::None,
        };
        let (number, units) = self.record(draft, units, uses)?;
        self.heap.make_text(number, units.as_slice())?;
        Ok(number)
    }

    /// Records the Init of a class that wasn't made, whose static fields then hold their defaults.
    pub fn note_init(&mut self, site: u32, class: u32) -> Result<u32, Halt>
        requires { is_made self.old.heap class ≡ false }
        ensures step { (p : Program) → StepGives p made_of result (shape R.keeps R.kept self.old)
            (note_new p (about kind.Init site class Nothing) (given Nothing []))
            (shape R.keeps R.kept self.new) }
        ensures calls { self.new.calls ≡ self.old.calls }
        ensures left { self.new.left ≡ self.old.left }
        ensures events { OnOk result (self.new.events ≡ self.old.events + 1) }
    {
        if class == NONE {
            return Err(Halt::Memory);
        }
        let draft = Draft {
            kind: Kind::Init,
            site,
            entity: class,
            slot: Slot::None,
            value: Value::None,
        };
        let (number, _units) = self.record(draft, Vec::new(self.alloc), &[])?;
        self.heap.make_class(class)?;
        Ok(number)
    }
}
