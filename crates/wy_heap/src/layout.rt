//! Where the fields of an object lie: for each class of which an object was made, its fields in order with their first values,
//! and for each field its offset, which is the same in the objects of all classes that have it.

ghost use Rattle.std.specs.Prelude.{◌≡◌, ◌<◌, [], IfOk, IsTrue, OnOk, length, replicate, slice_get, slice_index_or};
ghost use Rattle.wy_heap.specs.Layout.{AddsTo, AreOwn, IsLaidOut, IsPlaced, KeepsOffsets, lists_of, no_offset};

use crate::plan::{FieldPlan, UNPLANNED, classes_above, field_plans};
use std::alloc::{AllocError, Global};
use wy_kernel::program::Program;
use wy_kernel::types::NONE;
use wy_value::Value;

/// So many classes have types with codes of their own.
const CLASSES_WITH_CODES: usize = 16777200;

/// The fields of a class and of those above it, the highest first, with their first values.
#[derive(Drop)]
pub struct Row {
    pub fields: Vec<u32>,
    pub firsts: Vec<Value>,
}

/// The rows of the classes of a program, each worked out where the first object of its class is made.
#[derive(Drop)]
pub struct Layouts {
    alloc: Global,
    pub fields: Vec<FieldPlan>,
    /// The class above each class, and NONE for one that has none.
    above: Vec<u32>,
    /// The fields that each class declares for its objects.
    own: Vec<Vec<u32>>,
    rows: Vec<Option<Row>>,
    /// The offset of each field of a row, and NONE of one that is in none.
    offsets: Vec<u32>,
    ghost is_laid_out: { IsLaidOut fields.items above.items own.items rows.items offsets.items },
}

fn number_at(numbers: &[u32], index: u32) -> Option<u32>
    ensures { result ≡ slice_get numbers.now index }
{
    numbers.get(index as usize).copied()
}

fn number_of(index: usize) -> Result<u32, AllocError>
    ensures { IfOk result (λ number. number ≡ index) }
{
    u32::try_from(index).map_err(|_| AllocError)
}

/// Puts a field behind those of its class.
fn add_own(own: &mut Vec<Vec<u32>>, class: u32, field: u32) -> Result<(), AllocError>
    ensures many { length own.new.items ≡ length own.old.items }
    ensures added { OnOk result
        (AddsTo class field (lists_of own.old.items) (lists_of own.new.items)) }
{
    let class = class as usize;
    if class >= own.len() {
        return Err(AllocError);
    }
    own[class].push(field)?;
    Ok(())
}

/// For each of so many classes, no field.
fn no_fields(alloc: Global, classes: usize) -> Result<Vec<Vec<u32>>, AllocError>
    ensures { IfOk result (λ own. lists_of own.items ≡ replicate classes []) }
{
    let mut own = Vec::with_capacity(alloc, classes)?;
    for _ in 0..classes {
        own.push(Vec::new(alloc))?;
    }
    Ok(own)
}

/// For each of so many classes, no row.
fn no_rows(alloc: Global, classes: usize) -> Result<Vec<Option<Row>>, AllocError>
    ensures { IfOk result (λ rows. rows.items ≡ replicate classes None) }
{
    let mut rows = Vec::with_capacity(alloc, classes)?;
    for _ in 0..classes {
        rows.push(None)?;
    }
    Ok(rows)
}

/// For each of so many classes, the fields that it declares for its objects.
fn own_fields(
    alloc: Global,
    classes: usize,
    fields: &[FieldPlan],
) -> Result<Vec<Vec<u32>>, AllocError>
    ensures many { IfOk result (λ own. length own.items ≡ classes) }
    ensures own { IfOk result (λ own. AreOwn fields.now (length fields.now) (lists_of own.items)) }
{
    let mut own = no_fields(alloc, classes)?;
    for (number, field) in fields.iter().enumerate() {
        if !field.is_static {
            let number = number_of(number)?;
            add_own(&mut own, field.class, number)?;
        }
    }
    Ok(own)
}

/// Gives a field this offset, if it has none. It answers false where the field has another one.
fn place_field(offsets: &mut Vec<u32>, field: u32, place: u32) -> bool
    requires { place < no_offset }
    ensures many { length offsets.new.items ≡ length offsets.old.items }
    ensures kept { KeepsOffsets offsets.old.items offsets.new.items }
    ensures placed { IsTrue result → slice_index_or offsets.new.items field no_offset ≡ place }
{
    let field = field as usize;
    if field >= offsets.len() {
        return false;
    }
    if offsets[field] == NONE {
        offsets[field] = place;
        return true;
    }
    offsets[field] == place
}

/// Gives each field of a row its place there as its offset. It answers false where a field has another one.
fn place_fields(offsets: &mut Vec<u32>, row: &[u32]) -> bool
    ensures many { length offsets.new.items ≡ length offsets.old.items }
    ensures kept { KeepsOffsets offsets.old.items offsets.new.items }
    ensures placed { IsTrue result → IsPlaced offsets.new.items row.now }
{
    for (place, field) in row.iter().enumerate() {
        if place >= NONE as usize {
            return false;
        }
        if !place_field(offsets, *field, place as u32) {
            return false;
        }
    }
    true
}

impl Layouts {
    ghost use Rattle.std.specs.Prelude.{◌≡◌, ◌<◌, ◌+◌, ◌^◌, ℕ, IfOk, OnOk, length, map, true};
    ghost use Rattle.wy_heap.specs.Layout.{IsPlaced, is_known};
    ghost use Rattle.wy_heap.specs.Layouts.{plan_in};
    ghost use Rattle.wy_heap.specs.Plan.{field_at, fields_of, fields_up, first_of, position_of, plan_of};
    ghost use Rattle.wy_kernel.specs.Parts.{program_of};

    /// The layouts of a program, with no row yet.
    pub fn new(alloc: Global, program: &Program) -> Result<Layouts, AllocError>
        ensures plan { IfOk result (λ layouts. plan_in layouts ≡ plan_of (program_of program.now)) }
    {
        if program.classes.len() > CLASSES_WITH_CODES {
            return Err(AllocError);
        }
        let fields = field_plans(alloc, &program.fields)?;
        let above = classes_above(alloc, &program.classes)?;
        let own = own_fields(alloc, above.len(), &fields)?;
        let rows = no_rows(alloc, above.len())?;
        let offsets = vec![in alloc; NONE; fields.len()]?;
        Ok(Layouts {
            alloc,
            fields,
            above,
            own,
            rows,
            offsets,
        })
    }

    pub fn classes(&self) -> usize
        ensures { result ≡ length (plan_in self.now).above }
    {
        self.above.len()
    }

    /// The first values of all fields.
    pub fn first_values(&self) -> Result<Vec<Value>, AllocError>
        ensures { IfOk result
            (λ values. values.items ≡ map (λ d. d.first) (plan_in self.now).fields) }
    {
        self.fields
            .iter()
            .map(|field| field.first)
            .collect(self.alloc)
    }

    /// What is planned of a field, and of one that there isn't the same as of a field of objects of the first class.
    pub fn field(&self, field: u32) -> FieldPlan
        ensures { result ≡ field_at (plan_in self.now).fields field }
    {
        self.fields
            .get(field as usize)
            .copied()
            .unwrap_or(UNPLANNED)
    }

    /// The offset of a field in the objects of a class whose row is worked out, and None where they don't have it.
    pub fn offset(&self, class: u32, field: u32) -> Option<u32>
        requires { is_known self.now.rows.items class ≡ true }
        ensures { result ≡ position_of (fields_of (plan_in self.now) class) field }
    {
        let row = self.fields_in_row(class);
        let offset = number_at(&self.offsets, field).unwrap_or(NONE);
        match number_at(row, offset) {
            Some(there) => { if there == field { Some(offset) } else { None } }
            None => None,
        }
    }

    #[tactic(auto, unfolding(crate::specs::Layout::is_known))]
    fn fields_in_row(&self, class: u32) -> &[u32]
        requires { is_known self.now.rows.items class ≡ true }
        ensures fields { result.now ≡ fields_of (plan_in self.now) class }
        ensures placed { IsPlaced self.now.offsets.items result.now }
    {
        match &self.rows[class as usize] {
            Some(row) => &row.fields,
            None => unreachable!(),
        }
    }

    /// The first values of an object of a class whose row is worked out.
    #[tactic(auto, unfolding(crate::specs::Layout::is_known))]
    pub fn firsts(&self, class: u32) -> &[Value]
        requires { is_known self.now.rows.items class ≡ true }
        ensures { result.now
            ≡ map (first_of (plan_in self.now)) (fields_of (plan_in self.now) class) }
    {
        match &self.rows[class as usize] {
            Some(row) => &row.firsts,
            None => unreachable!(),
        }
    }

    /// The fields of a class, and of the classes above it.
    fn fields_up(&self, class: u32) -> Result<Vec<u32>, AllocError>
        ensures { let plan = plan_in self.now in
            IfOk result (λ row. row.items ≡ fields_up plan (length plan.above) class) }
    {
        let mut row = Vec::new(self.alloc);
        let mut class = class;
        for _ in 0..self.above.len() {
            if class as usize >= self.above.len() {
                break;
            }
            row.extend_from_slice(&self.own[class as usize])?;
            class = self.above[class as usize];
        }
        Ok(row)
    }

    /// Works out the row of a class, if it isn't yet, and answers how many fields its objects have.
    pub fn lay_out(&mut self, class: u32) -> Result<u32, AllocError>
        ensures plan { plan_in self.new ≡ plan_in self.old }
        ensures kept { (c : ℕ) → is_known self.old.rows.items c ≡ true
            → is_known self.new.rows.items c ≡ true }
        ensures known { OnOk result (is_known self.new.rows.items class ≡ true) }
        ensures code { OnOk result (class + 16 < 2 ^ 32) }
        ensures many { IfOk result (λ n. n ≡ length (fields_of (plan_in self.old) class)) }
    {
        if !self.is_known(class) {
            self.work_out(class)?;
        }
        Ok(self.fields_in_row(class).len() as u32)
    }

    #[tactic(auto, unfolding(crate::specs::Layout::is_known))]
    fn is_known(&self, class: u32) -> bool
        ensures { result ≡ is_known self.now.rows.items class }
    {
        match self.rows.get(class as usize) {
            Some(row) => row.is_some(),
            None => false,
        }
    }

    fn work_out(&mut self, class: u32) -> Result<(), AllocError>
        ensures plan { plan_in self.new ≡ plan_in self.old }
        ensures kept { (c : ℕ) → is_known self.old.rows.items c ≡ true
            → is_known self.new.rows.items c ≡ true }
        ensures known { OnOk result (is_known self.new.rows.items class ≡ true) }
    {
        if class as usize >= self.rows.len() {
            return Err(AllocError);
        }
        let mut fields = self.fields_up(class)?;
        fields.reverse();
        let firsts = self.firsts_of(&fields)?;
        if !place_fields(&mut self.offsets, &fields) {
            return Err(AllocError);
        }
        self.rows[class as usize] = Some(Row { fields, firsts });
        Ok(())
    }

    #[tactic(auto, unfolding(crate::specs::Plan::first_of))]
    fn firsts_of(&self, fields: &[u32]) -> Result<Vec<Value>, AllocError>
        ensures { IfOk result
            (λ firsts. firsts.items ≡ map (first_of (plan_in self.now)) fields.now) }
    {
        fields
            .iter()
            .map(|field| self.field(*field).first)
            .collect(self.alloc)
    }
}
