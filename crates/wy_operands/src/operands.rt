//! The last value is on top, and the uses of all lie on one stack: a value's uses begin where those of the values before it end,
//! so to join values is no work.

ghost use Rattle.std.specs.Prelude.{◌≡◌, ℕ, ◌≤◌, ◌-◌, List, [], ◌∷◌, ◌++◌, length, take, drop, slice_range, OnOk};
ghost use Rattle.wy_event.specs.declared.record.Use.{Use};
ghost use Rattle.wy_steps.specs.Steps.{joined_all};
ghost use Rattle.wy_operands.specs.Values.{under, given, top, at, under_many, last_many, uses_of_last};
ghost use Rattle.wy_operands.specs.Values.{joined_last, joined_with, with_copy, with_after, with_event, with_second_of_three};
ghost use Rattle.wy_operands.specs.Layout.{values_of, Begins, beginning};

use std::alloc::{AllocError, Global};
use wy_event::record::Use;
use wy_value::Value;

/// A value, and where its uses begin.
#[derive(Clone, Copy)]
struct Operand {
    value: Value,
    from: usize,
}

/// Values with what they use, the newest on top. Where fewer values are there than are asked for, those that lack have no value
/// and no uses. After an Err, which is want of memory, nothing is known of them.
#[derive(Drop)]
pub struct Operands {
    values: Vec<Operand>,
    uses: Vec<Use>,
}

/// Where the uses of these values begin, if those of all end here.
fn beginning(values: &[Operand], end: usize) -> usize
    ensures { result ≡ beginning end values.now }
{
    let mut from = end;
    for operand in values {
        from = operand.from.min(from);
    }
    from
}

/// Takes the last of these off.
fn forget_last(values: &mut Vec<Operand>, many: usize)
    ensures { values.new.items ≡ take (length values.old.items - many) values.old.items }
{
    let kept = values.len().saturating_sub(many);
    values.truncate(kept);
}

/// Leaves the part between two places in place of all that begins at another before them.
fn keep_part(uses: &mut Vec<Use>, begin: usize, from: usize, to: usize)
    requires first { begin ≤ from }
    requires second { from ≤ to }
    requires third { to ≤ length uses.old.items }
    ensures { uses.new.items ≡ take begin uses.old.items ++ slice_range uses.old.items from to }
{
    uses.copy_within(from..to, begin);
    uses.truncate(begin + (to - from));
}

impl Operands {
    pub fn new(alloc: Global) -> Operands
        ensures { values_of result ≡ [] }
    {
        Operands {
            values: Vec::new(alloc),
            uses: Vec::new(alloc),
        }
    }

    pub fn count(&self) -> usize
        ensures { result ≡ length (values_of self.now) }
    {
        self.values.len()
    }

    /// Puts a value on that uses nothing.
    pub fn push(&mut self, value: Value) -> Result<(), AllocError>
        ensures { OnOk result (values_of self.new ≡ given value [] ∷ values_of self.old) }
    {
        let from = self.uses.len();
        self.values.push(Operand { value, from })?;
        Ok(())
    }

    /// Puts a value on with its one use.
    pub fn push_with(&mut self, value: Value, used: Use) -> Result<(), AllocError>
        ensures { OnOk result (values_of self.new ≡ given value (used ∷ []) ∷ values_of self.old) }
    {
        let from = self.uses.len();
        self.uses.push(used)?;
        self.values.push(Operand { value, from })?;
        Ok(())
    }

    /// Puts the value with so many above it on once more, with its uses.
    pub fn push_copy(&mut self, above: usize) -> Result<(), AllocError>
        ensures { OnOk result (values_of self.new ≡ with_copy above (values_of self.old)) }
    {
        let value = self.value_at(above);
        let from = self.uses.len();
        let (begin, end) = self.place_of_uses(above);
        self.uses.extend_from_within(begin..end)?;
        self.values.push(Operand { value, from })?;
        Ok(())
    }

    /// Puts a value on that uses what the top uses, and this.
    pub fn push_after(&mut self, value: Value, used: Use) -> Result<(), AllocError>
        ensures { OnOk result (values_of self.new ≡ with_after value used (values_of self.old)) }
    {
        let from = self.uses.len();
        let begin = self.beginning_of_last(1);
        self.uses.extend_from_within(begin..)?;
        self.uses.push(used)?;
        self.values.push(Operand { value, from })?;
        Ok(())
    }

    /// Where the uses of the last values begin.
    fn beginning_of_last(&self, many: usize) -> usize
        ensures { Begins self.now many result }
    {
        let kept = self.values.len().saturating_sub(many);
        beginning(&self.values[kept..], self.uses.len())
    }

    /// From where to where the uses of the value with so many above it lie.
    fn place_of_uses(&self, above: usize) -> (usize, usize)
        ensures in_order { result.0 ≤ result.1 }
        ensures within { result.1 ≤ length self.now.uses.items }
        ensures uses { slice_range self.now.uses.items result.0 result.1
            ≡ (at above (values_of self.now)).uses }
    {
        if above >= self.values.len() {
            return (0, 0);
        }
        let from = self.beginning_of_last(above + 1);
        (from, self.beginning_of_last(above))
    }

    /// The value with so many above it, or none.
    pub fn value_at(&self, above: usize) -> Value
        ensures { result ≡ (at above (values_of self.now)).value }
    {
        let count = self.values.len();
        if above >= count {
            return Value::None;
        }
        self.values[count - 1 - above].value
    }

    /// The last value, or none.
    pub fn top(&self) -> Value
        ensures { result ≡ (top (values_of self.now)).value }
    {
        self.value_at(0)
    }

    /// The uses of the value with so many above it.
    pub fn uses_at(&self, above: usize) -> &[Use]
        ensures { result.now ≡ (at above (values_of self.now)).uses }
    {
        let (from, to) = self.place_of_uses(above);
        &self.uses[from..to]
    }

    /// The uses of the last values, joined.
    pub fn last_uses(&self, many: usize) -> &[Use]
        ensures last { result.now ≡ uses_of_last many (values_of self.now) }
        ensures joined { result.now ≡ (joined_all (last_many many (values_of self.now))).uses }
    {
        let from = self.beginning_of_last(many);
        &self.uses[from..]
    }

    /// From where to where the uses of the two values under the top lie.
    fn place_under_top(&self) -> (usize, usize)
        ensures in_order { result.0 ≤ result.1 }
        ensures within { result.1 ≤ length self.now.uses.items }
        ensures uses { slice_range self.now.uses.items result.0 result.1
            ≡ uses_of_last 2 (under (values_of self.now)) }
    {
        let from = self.beginning_of_last(3);
        (from, self.beginning_of_last(1))
    }

    /// The uses of the two values that lie under the top, joined.
    pub fn uses_under_top(&self) -> &[Use]
        ensures { result.now ≡ uses_of_last 2 (under (values_of self.now)) }
    {
        let (from, to) = self.place_under_top();
        &self.uses[from..to]
    }

    /// Takes the last values off with their uses.
    pub fn drop_last(&mut self, many: usize)
        ensures { values_of self.new ≡ under_many many (values_of self.old) }
    {
        let from = self.beginning_of_last(many);
        self.uses.truncate(from);
        forget_last(&mut self.values, many);
    }

    /// Puts a value made of the last ones in their place.
    pub fn join(&mut self, many: usize, value: Value) -> Result<(), AllocError>
        ensures { OnOk result (values_of self.new ≡ joined_last many value (values_of self.old)) }
    {
        let from = self.beginning_of_last(many);
        forget_last(&mut self.values, many);
        self.values.push(Operand { value, from })?;
        Ok(())
    }

    /// Puts a value made of the last ones and of one more in their place.
    pub fn join_with(&mut self, many: usize, value: Value, used: Use) -> Result<(), AllocError>
        ensures { OnOk result
            (values_of self.new ≡ joined_with many value used (values_of self.old)) }
    {
        let from = self.beginning_of_last(many);
        forget_last(&mut self.values, many);
        self.uses.push(used)?;
        self.values.push(Operand { value, from })?;
        Ok(())
    }

    /// Puts the value of an event in place of the last ones.
    pub fn replace(&mut self, many: usize, value: Value, event: u32) -> Result<(), AllocError>
        ensures { OnOk result
            (values_of self.new ≡ with_event many value event (values_of self.old)) }
    {
        self.drop_last(many);
        self.push_with(value, Use::Value { event })
    }

    /// Leaves the second of the last three values in place of all three.
    pub fn keep_second_of_three(&mut self) -> Result<(), AllocError>
        ensures { OnOk result (values_of self.new ≡ with_second_of_three (values_of self.old)) }
    {
        let value = self.value_at(1);
        let from = self.beginning_of_last(3);
        let second = self.beginning_of_last(2);
        let third = self.beginning_of_last(1);
        forget_last(&mut self.values, 3);
        keep_part(&mut self.uses, from, second, third);
        self.values.push(Operand { value, from })?;
        Ok(())
    }

    pub fn clear(&mut self)
        ensures { values_of self.new ≡ [] }
    {
        self.values.clear();
        self.uses.clear();
    }
}
