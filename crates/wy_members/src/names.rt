//! The numbers of the classes of a program by their names (JLS 6.5.5, 7.6). Of classes of one name the first counts.
//! Names of members are not looked up here.

ghost use Rattle.std.specs.Prelude.{◌≡◌, ◌<◌, ◌+◌, ℕ, List, IfOk, OnOk, length, map, position};
ghost use Rattle.std.specs.HashMap.{get_by_text};
ghost use Rattle.std.specs.Str.{bytes_eq};
ghost use Rattle.wy_kernel.specs.Builtin.{no_site};
ghost use Rattle.wy_kernel.specs.View.{class_of};
ghost use Rattle.wy_syntax.specs.View.{declaration_of};
ghost use Rattle.wy_members.specs.Declarations.{class_names, denoted, name_of, written_names};
ghost use Rattle.wy_table.specs.Names.{numbered_also};
ghost use Rattle.wy_members.specs.Numbers.{numbered_all};

use std::alloc::{AllocError, Global};
use std::collections::HashMap;
use wy_kernel::builtin;
use wy_kernel::types::{Class, NONE};
use wy_syntax::declaration::Declaration;

/// A program, and its classes by their names.
#[derive(Drop)]
pub struct Names<'a> {
    pub unit: &'a [Declaration],
    numbers: HashMap<String, u32>,
    ghost few: { length (class_names (map declaration_of unit.now)) < no_site },
    ghost exact: { (name : List ℕ)
        → get_by_text numbers name ≡ denoted (map declaration_of unit.now) name },
}

impl Names<'_> {
    ghost use Rattle.std.specs.Prelude.{IfSome};
    ghost use Rattle.wy_members.specs.Declarations.{class_or_object};
    ghost use Rattle.wy_members.specs.Names.{unit_of};

    /// The number of the class or the interface that a name denotes.
    pub fn denoted(&self, name: &str) -> Option<u32>
        ensures value { result ≡ denoted (unit_of self.now) name.now }
        ensures few { IfSome result (λ class. class < no_site) }
    {
        self.numbers.get(name).copied()
    }

    /// The same, and that of Object for a name that denotes nothing.
    pub fn class_or_object(&self, name: &str) -> u32
        ensures value { result ≡ class_or_object (unit_of self.now) name.now }
        ensures few { result < no_site }
    {
        self.denoted(name).unwrap_or(0)
    }
}

fn number(
    numbers: &mut HashMap<String, u32>,
    alloc: Global,
    name: &str,
    next: u32,
) -> Result<(), AllocError>
    ensures { OnOk result ((q : List ℕ) → get_by_text numbers.new q
        ≡ numbered_also (get_by_text numbers.old q) (bytes_eq q name.now) next) }
{
    if !numbers.contains_key(name) {
        numbers.insert(name.to_string(alloc)?, next)?;
    }
    Ok(())
}

/// The number behind this one, if it is one of a class.
pub fn next_number(number: u32) -> Result<u32, AllocError>
    ensures { IfOk result (λ n. (n ≡ number + 1) × (n < no_site)) }
{
    if number < NONE - 1 {
        Ok(number + 1)
    } else {
        Err(AllocError)
    }
}

fn number_classes(
    numbers: &mut HashMap<String, u32>,
    alloc: Global,
    classes: &[Class],
) -> Result<u32, AllocError>
    ensures many { IfOk result (λ n. n ≡ length classes.now) }
    ensures numbered { OnOk result ((q : List ℕ) → get_by_text numbers.new q
        ≡ numbered_all q (get_by_text numbers.old q) 0 (map name_of (map class_of classes.now))) }
{
    let mut next = 0;
    let mut left = classes;
    while let [first, behind @ ..] = left {
        number(numbers, alloc, first.name.as_str(), next)?;
        next = next_number(next)?;
        left = behind;
    }
    Ok(next)
}

fn number_declarations(
    numbers: &mut HashMap<String, u32>,
    alloc: Global,
    unit: &[Declaration],
    first_number: u32,
) -> Result<u32, AllocError>
    ensures many { IfOk result (λ n.
        n ≡ first_number + length (written_names (map declaration_of unit.now))) }
    ensures few { IfOk result (λ n. first_number < no_site → n < no_site) }
    ensures numbered { OnOk result ((q : List ℕ) → get_by_text numbers.new q ≡ numbered_all q
        (get_by_text numbers.old q) first_number (written_names (map declaration_of unit.now))) }
{
    let mut next = first_number;
    let mut left = unit;
    while let [first, behind @ ..] = left {
        if let Declaration::Class(class) = first {
            number(numbers, alloc, class.name.name.as_str(), next)?;
            next = next_number(next)?;
        }
        left = behind;
    }
    Ok(next)
}

/// The names of the classes of a program, and of those of java.lang.
pub fn names_of(alloc: Global, unit: &[Declaration]) -> Result<Names<'_>, AllocError>
    ensures { IfOk result (λ names. names.unit.now ≡ unit.now) }
{
    let library = builtin::classes(alloc)?;
    let mut numbers = HashMap::new(alloc);
    let many = number_classes(&mut numbers, alloc, library.as_slice())?;
    number_declarations(&mut numbers, alloc, unit, many)?;
    Ok(Names { unit, numbers })
}
