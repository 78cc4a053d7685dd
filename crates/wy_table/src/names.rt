//! The numbers of classes and fields by name (JLS 6.5, 8.3). Of classes of one name the first counts, and so of fields of one
//! class. What a class inherits is not looked up here.

ghost use Rattle.std.specs.Prelude.{◌≡◌, ◌<◌, ◌≤◌, ◌^◌, ℕ, List, IfOk, None, OnOk, length, map};
ghost use Rattle.std.specs.HashMap.{get_by_text};
ghost use Rattle.std.specs.List.{position_from};
ghost use Rattle.std.specs.Str.{bytes_eq};
ghost use Rattle.wy_kernel.specs.Program.{Class as PlainClass, Field as PlainField};
ghost use Rattle.wy_kernel.specs.View.{class_of, field_of};
ghost use Rattle.wy_table.specs.Names.{KeepsNames, is_field_named, number_in, numbered_also};

use std::alloc::{AllocError, Global};
use std::collections::HashMap;
use wy_kernel::types::{Class, Field};

/// The numbers of classes by name, and for each class those of its fields.
#[derive(Drop)]
pub struct DeclaredNames {
    classes: HashMap<String, u32>,
    fields: Vec<HashMap<String, u32>>,
}

impl DeclaredNames {
    /// The names of these classes and fields, in time and memory in proportion to them.
    pub fn of(
        alloc: Global,
        classes: &[Class],
        fields: &[Field],
    ) -> Result<DeclaredNames, AllocError>
        requires classes { length classes.now < 2 ^ 32 }
        requires fields { length fields.now < 2 ^ 32 }
        ensures { IfOk result (KeepsNames (map class_of classes.now) (map field_of fields.now)) }
    {
        let numbers = number_classes(alloc, classes)?;
        let mut rows = rows_of(alloc, classes)?;
        number_fields(&mut rows, alloc, fields)?;
        Ok(DeclaredNames {
            classes: numbers,
            fields: rows,
        })
    }

    /// The number of the class of this name.
    pub fn class(&self, name: &str) -> Option<u32>
        ensures { (classes : List PlainClass) (fields : List PlainField)
            → KeepsNames classes fields self.now
            → result ≡ position_from (λ c. bytes_eq c.name name.now) 0 classes }
    {
        self.classes.get(name).copied()
    }

    /// The number of the field that a class declares by this name.
    pub fn field(&self, class: u32, name: &str) -> Option<u32>
        ensures found { (classes : List PlainClass) (fields : List PlainField)
            → KeepsNames classes fields self.now → class < length classes
            → result ≡ position_from (is_field_named class name.now) 0 fields }
        ensures past { (classes : List PlainClass) (fields : List PlainField)
            → KeepsNames classes fields self.now → length classes ≤ class → result ≡ None }
    {
        match self.fields.get(class as usize) {
            Some(row) => row.get(name).copied(),
            None => None,
        }
    }
}

fn number(
    numbers: &mut HashMap<String, u32>,
    alloc: Global,
    name: &str,
    next: u32,
) -> Result<(), AllocError>
    ensures { OnOk result ((q : List ℕ) → get_by_text numbers.new q
        ≡ numbered_also (get_by_text numbers.old q) (bytes_eq name.now q) next) }
{
    if !numbers.contains_key(name) {
        numbers.insert(name.to_string(alloc)?, next)?;
    }
    Ok(())
}

fn number_classes(alloc: Global, classes: &[Class]) -> Result<HashMap<String, u32>, AllocError>
    requires { length classes.now < 2 ^ 32 }
    ensures { IfOk result (λ numbers. (q : List ℕ) → get_by_text numbers q
        ≡ position_from (λ c. bytes_eq c.name q) 0 (map class_of classes.now)) }
{
    let mut numbers = HashMap::new(alloc);
    let mut next = 0;
    let mut left = classes;
    while let [first, behind @ ..] = left {
        number(&mut numbers, alloc, first.name.as_str(), next)?;
        next += 1;
        left = behind;
    }
    Ok(numbers)
}

// A map for each class, with nothing in it.
fn rows_of(alloc: Global, classes: &[Class]) -> Result<Vec<HashMap<String, u32>>, AllocError>
    ensures many { IfOk result (λ rows. length rows.items ≡ length classes.now) }
    ensures empty { IfOk result (λ rows. (class : ℕ) (q : List ℕ)
        → number_in rows.items class q ≡ None) }
{
    let mut rows = Vec::new(alloc);
    let mut left = classes;
    while let [_class, behind @ ..] = left {
        rows.push(HashMap::new(alloc))?;
        left = behind;
    }
    Ok(rows)
}

fn number_field(
    rows: &mut Vec<HashMap<String, u32>>,
    alloc: Global,
    field: &Field,
    next: u32,
) -> Result<(), AllocError>
    ensures many { length rows.new.items ≡ length rows.old.items }
    ensures numbered { OnOk result ((class : ℕ) (q : List ℕ) → class < length rows.old.items
        → number_in rows.new.items class q ≡ numbered_also (number_in rows.old.items class q)
        (is_field_named class q (field_of field.now)) next) }
{
    match rows.get_mut(field.class as usize) {
        Some(row) => number(row, alloc, field.name.as_str(), next),
        None => Ok(()),
    }
}

fn number_fields(
    rows: &mut Vec<HashMap<String, u32>>,
    alloc: Global,
    fields: &[Field],
) -> Result<(), AllocError>
    requires few { length fields.now < 2 ^ 32 }
    requires empty { (class : ℕ) (q : List ℕ) → number_in rows.old.items class q ≡ None }
    ensures many { length rows.new.items ≡ length rows.old.items }
    ensures numbered { OnOk result ((class : ℕ) (q : List ℕ) → class < length rows.old.items
        → number_in rows.new.items class q
        ≡ position_from (is_field_named class q) 0 (map field_of fields.now)) }
{
    let mut next = 0;
    let mut left = fields;
    while let [first, behind @ ..] = left {
        number_field(rows, alloc, first, next)?;
        next += 1;
        left = behind;
    }
    Ok(())
}
