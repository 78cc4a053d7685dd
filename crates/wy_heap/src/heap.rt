//! What every slot of the static fields, objects and arrays of a run holds, and the texts.

ghost use Rattle.std.specs.Prelude.{◌≡◌, ◌<◌, ℕ, IfOk, OnOk, length};
ghost use Rattle.wy_heap.specs.Block.{AreApart, AreFirst, block_at};
ghost use Rattle.wy_heap.specs.Layouts.{plan_in};

use crate::block::Block;
use crate::first::first_of_element;
use crate::layout::Layouts;
use std::alloc::{AllocError, Global};
use wy_event::record::Slot;
use wy_kernel::code::FIRST_CLASS_CODE;
use wy_kernel::limit::{ELEMENT_LIMIT, UNIT_LIMIT};
use wy_kernel::program::Program;
use wy_value::Value;

/// An array or a text wasn't made.
#[derive(Clone, Copy, Debug, PartialEq, Eq)]
pub enum HeapError {
    /// The elements or the units in all would pass 16,777,216.
    HeapLimit,
    NoMemory,
}

/// The memory of a run. Objects, arrays and texts go by the number of the event that made them.
#[derive(Drop)]
pub struct Heap {
    layouts: Layouts,
    /// Which classes were made.
    begun: Vec<bool>,
    /// The value of each field that is static, and the first value of each other.
    statics: Vec<Value>,
    blocks: Vec<Block>,
    /// The values of objects and arrays, block after block.
    values: Vec<Value>,
    units: Vec<u16>,
    elements: u32,
    ghost is_apart: { AreApart
        (plan_in layouts) layouts.rows.items blocks.items (length values.items)
        (length units.items) },
    ghost is_first: { AreFirst (plan_in layouts) begun.items statics.items },
}

impl From<AllocError> for HeapError {
    ghost use Rattle.std.specs.Prelude.{◌≡◌};
    ghost use Rattle.wy_heap.specs.declared.heap.HeapError.{HeapError};

    ghost from_gives = { λ _ e. e ≡ HeapError.NoMemory };

    fn from(_error: AllocError) -> HeapError {
        HeapError::NoMemory
    }
}

/// Makes the table of blocks long enough for a number.
fn make_room(blocks: &mut Vec<Block>, number: u32) -> Result<(), AllocError>
    ensures same { (n : ℕ) → block_at blocks.new.items n ≡ block_at blocks.old.items n }
    ensures room { OnOk result (number < length blocks.new.items) }
{
    let wanted = number as usize + 1;
    if blocks.len() < wanted {
        blocks.resize(wanted, Block::Nothing)?;
    }
    Ok(())
}

/// The place behind the last value, if blocks may begin there.
fn next_begin(values: &[Value]) -> Result<u32, AllocError>
    ensures { IfOk result (λ begin. begin ≡ length values.now) }
{
    u32::try_from(values.len()).map_err(|_| AllocError)
}

impl Heap {
    ghost use Rattle.std.specs.Prelude.{◌≡◌, ◌≤◌, ◌<◌, ◌+◌, ◌↔◌, ℕ, IfOk, OnOk, OnErr, IsErrOf, IsSome, MatchBool, Some, None, true, false, length, nat_le, option_map};
    ghost use Rattle.wy_heap.specs.Block.{block_at};
    ghost use Rattle.wy_heap.specs.Changes.{IsNew, Keeps, MakesArray, MakesClass, MakesObject, MakesText, Writes};
    ghost use Rattle.wy_kernel.specs.Limits.{element_limit, unit_limit};
    ghost use Rattle.wy_heap.specs.Heap.{code, element_count, element_place, field_place, held, is_live, is_made, plan, size, static_place, text, unit_count};
    ghost use Rattle.wy_kernel.specs.Parts.{program_of};

    /// A heap for the runs of a program. Its other calls go by what it takes from the program here.
    pub fn new(alloc: Global, program: &Program) -> Result<Heap, AllocError>
        ensures { IfOk result (λ heap. IsNew (program_of program.now) heap) }
    {
        let layouts = Layouts::new(alloc, program)?;
        let begun = vec![in alloc; false; layouts.classes()]?;
        let statics = layouts.first_values()?;
        Ok(Heap {
            layouts,
            begun,
            statics,
            blocks: Vec::new(alloc),
            values: Vec::new(alloc),
            units: Vec::new(alloc),
            elements: 0,
        })
    }

    fn block(&self, number: u32) -> Block
        ensures { result ≡ block_at self.now.blocks.items number }
    {
        self.blocks
            .get(number as usize)
            .copied()
            .unwrap_or(Block::Nothing)
    }

    #[tactic(auto, unfolding(crate::specs::Heap::plan, crate::specs::Heap::static_place))]
    fn static_place(&self, field: u32) -> Option<usize>
        ensures { result ≡ static_place (plan self.now) self.now.begun.items field }
    {
        let plan = self.layouts.field(field);
        if plan.is_static && self.is_begun(plan.class) {
            Some(field as usize)
        } else {
            None
        }
    }

    #[tactic(auto, unfolding(crate::specs::Heap::plan, crate::specs::Heap::field_place))]
    fn field_place(&self, object: u32, field: u32) -> Option<usize>
        ensures { result
            ≡ field_place (plan self.now) (block_at self.now.blocks.items object) field }
    {
        match self.block(object) {
            Block::Object { class, begin, .. } => {
                let offset = self.layouts.offset(class, field)?;
                Some(begin as usize + offset as usize)
            }
            Block::Array { .. } => None,
            Block::Text { .. } => None,
            Block::Nothing => None,
        }
    }

    #[tactic(auto, unfolding(crate::specs::Heap::element_place))]
    fn element_place(&self, array: u32, index: u32) -> Option<usize>
        ensures { result ≡ element_place (block_at self.now.blocks.items array) index }
    {
        match self.block(array) {
            Block::Array { begin, length, .. } => {
                if index < length {
                    Some(begin as usize + index as usize)
                } else {
                    None
                }
            }
            Block::Object { .. } => None,
            Block::Text { .. } => None,
            Block::Nothing => None,
        }
    }

    /// What a slot holds, and None exactly where it isn't live.
    #[tactic(auto, unfolding(crate::specs::Heap::held, crate::specs::Heap::value_at))]
    pub fn find(&self, slot: Slot) -> Option<Value>
        ensures { result ≡ held self.now slot }
    {
        match slot {
            Slot::Static { field } => {
                let place = self.static_place(field)?;
                self.statics.get(place).copied()
            }
            Slot::Field { object, field } => {
                let place = self.field_place(object, field)?;
                self.values.get(place).copied()
            }
            Slot::Elem { array, index } => {
                let place = self.element_place(array, index)?;
                self.values.get(place).copied()
            }
            Slot::Local { .. } => None,
            Slot::None => None,
        }
    }

    /// What a live slot holds.
    pub fn read(&self, slot: Slot) -> Value
        requires { IsSome (held self.now slot) }
        ensures { held self.now slot ≡ Some result }
    {
        self.find(slot).unwrap()
    }

    #[tactic(auto, unfolding(crate::specs::Heap::held))]
    /// Puts a value into a live slot; where the slot isn't live, it answers false.
    pub fn put(&mut self, slot: Slot, value: Value) -> bool
        ensures { MatchBool result
            (Writes slot value self.old self.new)
            ((held self.old slot ≡ None) × (self.new ≡ self.old)) }
    {
        match slot {
            Slot::Static { field } => self.put_static(field, value),
            Slot::Field { object, field } => self.put_field(object, field, value),
            Slot::Elem { array, index } => self.put_element(array, index, value),
            Slot::Local { .. } => false,
            Slot::None => false,
        }
    }

    /// Puts a value into a live slot.
    pub fn write(&mut self, slot: Slot, value: Value)
        requires { IsSome (held self.old slot) }
        ensures { Writes slot value self.old self.new }
    {
        self.put(slot, value);
    }

    /// The code of the type of an object or an array.
    #[tactic(auto, unfolding(crate::specs::Heap::code, crate::specs::Heap::code_in))]
    pub fn type_code(&self, number: u32) -> Option<u32>
        ensures { result ≡ code self.now number }
    {
        match self.block(number) {
            Block::Object { class, .. } => Some(FIRST_CLASS_CODE + class),
            Block::Array { code, .. } => Some(code),
            Block::Text { .. } => None,
            Block::Nothing => None,
        }
    }

    /// The number of the elements of an array.
    #[tactic(auto, unfolding(crate::specs::Heap::size, crate::specs::Heap::size_in))]
    pub fn length_of(&self, number: u32) -> Option<u32>
        ensures { result ≡ size self.now number }
    {
        match self.block(number) {
            Block::Array { length, .. } => Some(length),
            Block::Object { .. } => None,
            Block::Text { .. } => None,
            Block::Nothing => None,
        }
    }

    /// The units of a text.
    #[tactic(auto, unfolding(crate::specs::Heap::text, crate::specs::Heap::text_in))]
    pub fn text_of(&self, number: u32) -> Option<&[u16]>
        ensures { option_map (λ units. units.now) result ≡ text self.now number }
    {
        match self.block(number) {
            Block::Text { begin, length } => {
                let begin = begin as usize;
                Some(&self.units[begin..begin + length as usize])
            }
            Block::Object { .. } => None,
            Block::Array { .. } => None,
            Block::Nothing => None,
        }
    }

    /// Whether an object, an array or a text has the number.
    #[tactic(auto, unfolding(crate::specs::Heap::is_live, crate::specs::Heap::code, crate::specs::Heap::code_in, crate::specs::Heap::text, crate::specs::Heap::text_in))]
    pub fn is_live(&self, number: u32) -> bool
        ensures { result ≡ is_live self.now number }
    {
        match self.block(number) {
            Block::Nothing => false,
            Block::Object { .. } => true,
            Block::Array { .. } => true,
            Block::Text { .. } => true,
        }
    }

    /// Whether a class was made.
    #[tactic(auto, unfolding(crate::specs::Heap::is_made))]
    pub fn is_begun(&self, class: u32) -> bool
        ensures { result ≡ is_made self.now class }
    {
        self.begun.get(class as usize).copied().unwrap_or(false)
    }

    /// Makes the static fields of a class.
    pub fn make_class(&mut self, class: u32) -> Result<(), AllocError>
        ensures made { OnOk result (MakesClass class self.old self.new) }
        ensures refused { OnErr result (self.new ≡ self.old) }
    {
        let class = class as usize;
        if class >= self.begun.len() {
            return Err(AllocError);
        }
        self.begun[class] = true;
        Ok(())
    }

    /// Makes an object of a class, with the number of its event.
    pub fn make_object(&mut self, number: u32, class: u32) -> Result<(), AllocError>
        ensures made { OnOk result (MakesObject number class self.old self.new) }
        ensures refused { OnErr result (Keeps self.old self.new) }
    {
        let length = self.layouts.lay_out(class)?;
        make_room(&mut self.blocks, number)?;
        let begin = next_begin(&self.values)?;
        self.values.extend_from_slice(self.layouts.firsts(class))?;
        self.blocks[number as usize] = Block::Object {
            class,
            begin,
            length,
        };
        Ok(())
    }

    /// Whether so many elements more are within the limit.
    #[tactic(auto, unfolding(crate::specs::Heap::element_count))]
    pub fn has_room_for_elements(&self, many: u32) -> bool
        ensures { result ≡ nat_le (element_count self.now + many) element_limit }
    {
        u64::from(self.elements) + u64::from(many) <= u64::from(ELEMENT_LIMIT)
    }

    /// Whether so many units more are within the limit.
    #[tactic(auto, unfolding(crate::specs::Heap::unit_count))]
    pub fn has_room_for_units(&self, many: usize) -> bool
        ensures { result ≡ nat_le (unit_count self.now + many) unit_limit }
    {
        self.units.len().saturating_add(many) <= UNIT_LIMIT as usize
    }

    /// Makes an array of a type by its code, with the number of its event.
    pub fn make_array(&mut self, number: u32, code: u32, length: u32) -> Result<(), HeapError>
        ensures limit { IsErrOf result HeapError.HeapLimit
            ↔ (element_limit < element_count self.old + length) }
        ensures made { OnOk result (MakesArray number code length self.old self.new) }
        ensures refused { OnErr result (Keeps self.old self.new) }
    {
        if !self.has_room_for_elements(length) {
            return Err(HeapError::HeapLimit);
        }
        self.add_array(number, code, length)?;
        Ok(())
    }

    fn add_array(&mut self, number: u32, code: u32, length: u32) -> Result<(), AllocError>
        requires { element_count self.old + length ≤ element_limit }
        ensures made { OnOk result (MakesArray number code length self.old self.new) }
        ensures refused { OnErr result (Keeps self.old self.new) }
    {
        make_room(&mut self.blocks, number)?;
        let begin = next_begin(&self.values)?;
        let end = self.values.len() + length as usize;
        self.values.resize(end, first_of_element(code))?;
        self.elements += length;
        self.blocks[number as usize] = Block::Array {
            code,
            begin,
            length,
        };
        Ok(())
    }

    /// Makes a text, with the number of its event.
    pub fn make_text(&mut self, number: u32, units: &[u16]) -> Result<(), HeapError>
        ensures limit { IsErrOf result HeapError.HeapLimit
            ↔ (unit_limit < unit_count self.old + length units.now) }
        ensures made { OnOk result (MakesText number units.now self.old self.new) }
        ensures refused { OnErr result (Keeps self.old self.new) }
    {
        if !self.has_room_for_units(units.len()) {
            return Err(HeapError::HeapLimit);
        }
        self.add_text(number, units)?;
        Ok(())
    }

    fn add_text(&mut self, number: u32, units: &[u16]) -> Result<(), AllocError>
        requires { unit_count self.old + length units.now ≤ unit_limit }
        ensures made { OnOk result (MakesText number units.now self.old self.new) }
        ensures refused { OnErr result (Keeps self.old self.new) }
    {
        make_room(&mut self.blocks, number)?;
        let begin = self.units.len() as u32;
        self.units.extend_from_slice(units)?;
        self.blocks[number as usize] = Block::Text {
            begin,
            length: units.len() as u32,
        };
        Ok(())
    }

    fn put_static(&mut self, field: u32, value: Value) -> bool
        ensures { MatchBool result
            (Writes (Slot.Static field) value self.old self.new)
            ((held self.old (Slot.Static field) ≡ None) × (self.new ≡ self.old)) }
    {
        match self.static_place(field) {
            Some(place) => {
                self.statics[place] = value;
                true
            }
            None => false,
        }
    }

    fn put_field(&mut self, object: u32, field: u32, value: Value) -> bool
        ensures { MatchBool result
            (Writes (Slot.Field object field) value self.old self.new)
            ((held self.old (Slot.Field object field) ≡ None) × (self.new ≡ self.old)) }
    {
        match self.field_place(object, field) {
            Some(place) => {
                self.values[place] = value;
                true
            }
            None => false,
        }
    }

    fn put_element(&mut self, array: u32, index: u32, value: Value) -> bool
        ensures { MatchBool result
            (Writes (Slot.Elem array index) value self.old self.new)
            ((held self.old (Slot.Elem array index) ≡ None) × (self.new ≡ self.old)) }
    {
        match self.element_place(array, index) {
            Some(place) => {
                self.values[place] = value;
                true
            }
            None => false,
        }
    }
}
