//! The classes in which methods are compared: an interface that a class extends counts as Object, and a class where interfaces are
//! named as absent. Only supertypes differ from the classes as they are written.

ghost use Rattle.std.specs.Prelude.{◌≡◌, IfOk, filter, if◌then◌else◌, map, option_map};
ghost use Rattle.wy_kernel.specs.Program.{object_class};
ghost use Rattle.wy_kernel.specs.View.{class_of, present};
ghost use Rattle.wy_members.specs.Broken.{is_interface_in, with_fitting_supertypes};

use std::alloc::{AllocError, Global};
use wy_kernel::builtin::OBJECT;
use wy_kernel::types::{Class, NONE};

pub fn fitting_classes(alloc: Global, classes: &[Class]) -> Result<Vec<Class>, AllocError>
    ensures { IfOk result (λ fitting. map class_of fitting.items
        ≡ map (with_fitting_supertypes (map class_of classes.now)) (map class_of classes.now)) }
{
    let mut fitting = Vec::new(alloc);
    for class in classes {
        let row = fitting_class(alloc, classes, class)?;
        fitting.push(row)?;
    }
    Ok(fitting)
}

fn fitting_class(alloc: Global, classes: &[Class], class: &Class) -> Result<Class, AllocError>
    ensures { IfOk result (λ row.
        class_of row ≡ with_fitting_supertypes (map class_of classes.now) (class_of class.now)) }
{
    let name = class.name.as_str().to_string(alloc)?;
    let interfaces = fitting_interfaces(alloc, classes, &class.interfaces)?;
    Ok(Class {
        name,
        site: class.site,
        is_interface: class.is_interface,
        is_abstract: class.is_abstract,
        is_final: class.is_final,
        above: fitting_above(classes, class.above),
        interfaces,
    })
}

#[tactic(auto, unfolding(wy_kernel::specs::View::present))]
fn fitting_above(classes: &[Class], above: u32) -> u32
    ensures { present result ≡ option_map (λ d.
        if is_interface_in (map class_of classes.now) d then object_class else d) (present above) }
{
    if above == NONE {
        NONE
    } else if is_interface_in(classes, above) {
        OBJECT
    } else {
        above
    }
}

fn fitting_interfaces(
    alloc: Global,
    classes: &[Class],
    interfaces: &[u32],
) -> Result<Vec<u32>, AllocError>
    ensures { IfOk result (λ fitting.
        fitting.items ≡ filter (is_interface_in (map class_of classes.now)) interfaces.now) }
{
    interfaces
        .iter()
        .copied()
        .filter(|d| is_interface_in(classes, *d))
        .collect(alloc)
}

fn is_interface_in(classes: &[Class], c: u32) -> bool
    ensures { result ≡ is_interface_in (map class_of classes.now) c }
{
    let place = c as usize;
    if place < classes.len() {
        classes[place].is_interface
    } else {
        false
    }
}
