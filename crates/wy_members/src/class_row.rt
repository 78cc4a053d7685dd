//! The rows of classes and interfaces (JLS 8.1, 9.1).

ghost use Rattle.std.specs.Prelude.{◌≡◌, ◌<◌, ◌++◌, IfOk, OnOk, map, option_map};
ghost use Rattle.wy_kernel.specs.Builtin.{no_site};
ghost use Rattle.wy_kernel.specs.View.{class_of, present};
ghost use Rattle.wy_syntax.specs.View.{class_of as class_syntax, declaration_of, named_of};
ghost use Rattle.wy_members.specs.Declarations.{class_row, class_rows, interfaces_of, superclass};
ghost use Rattle.wy_members.specs.Names.{unit_of};

use crate::names::Names;
use crate::written_type::has;
use std::alloc::{AllocError, Global};
use wy_kernel::types::{Class, NONE};
use wy_syntax::declaration::{ClassSyntax, Declaration, Modifier};
use wy_syntax::name::Named;

fn superclass(names: &Names, above: &Option<Named>) -> u32
    ensures value { result ≡ superclass (unit_of names.now) (option_map named_of above.now) }
    ensures few { result < no_site }
{
    match above {
        Some(above) => names.class_or_object(above.name.as_str()),
        None => 0,
    }
}

fn interfaces(alloc: Global, names: &Names, written: &[Named]) -> Result<Vec<u32>, AllocError>
    ensures { IfOk result (λ found.
        found.items ≡ interfaces_of (unit_of names.now) (map named_of written.now)) }
{
    let mut found = Vec::new(alloc);
    let mut left = written;
    while let [first, behind @ ..] = left {
        if let Some(class) = names.denoted(first.name.as_str()) {
            found.push(class)?;
        }
        left = behind;
    }
    Ok(found)
}

// The number of the superclass, and NONE for an interface.
#[tactic(auto, unfolding(wy_kernel::specs::View::present))]
fn above(names: &Names, class: &ClassSyntax) -> u32
    ensures { present result ≡ (class_row (unit_of names.now) (class_syntax class.now)).above }
{
    if class.is_interface {
        NONE
    } else {
        superclass(names, &class.above)
    }
}

fn class_row(alloc: Global, names: &Names, class: &ClassSyntax) -> Result<Class, AllocError>
    ensures { IfOk result (λ row.
        class_of row ≡ class_row (unit_of names.now) (class_syntax class.now)) }
{
    Ok(Class {
        name: class.name.name.clone()?,
        site: class.name.token,
        is_interface: class.is_interface,
        is_abstract: class.is_interface || has(Modifier::Abstract, class.modifiers.as_slice()),
        is_final: has(Modifier::Final, class.modifiers.as_slice()),
        above: above(names, class),
        interfaces: interfaces(alloc, names, class.interfaces.as_slice())?,
    })
}

/// Adds the rows of the classes that a program declares.
pub fn add_classes(rows: &mut Vec<Class>, alloc: Global, names: &Names) -> Result<(), AllocError>
    ensures { OnOk result (map class_of rows.new.items ≡ map class_of rows.old.items
        ++ class_rows (unit_of names.now) (unit_of names.now)) }
{
    let mut left = names.unit;
    while let [first, behind @ ..] = left {
        if let Declaration::Class(class) = first {
            rows.push(class_row(alloc, names, class)?)?;
        }
        left = behind;
    }
    Ok(())
}
