//! The classes of a text, in their order.

ghost use Rattle.std.specs.Prelude.{◌≡◌, ◌++◌, IfOk, OnOk, map, option_to_list};
ghost use Rattle.wy_members.specs.Declarations.{class_in, classes_of};
ghost use Rattle.wy_syntax.specs.View.{class_of, declaration_of};

use std::alloc::{AllocError, Global};
use wy_syntax::declaration::{ClassSyntax, Declaration};

pub fn classes_in(alloc: Global, unit: &[Declaration]) -> Result<Vec<&ClassSyntax>, AllocError>
    ensures { IfOk result (λ classes.
        map (λ k. class_of k.now) classes.items ≡ classes_of (map declaration_of unit.now)) }
{
    let mut classes = Vec::new(alloc);
    for declaration in unit {
        take_class(&mut classes, declaration)?;
    }
    Ok(classes)
}

fn take_class<'a>(
    classes: &mut Vec<&'a ClassSyntax>,
    declaration: &'a Declaration,
) -> Result<(), AllocError>
    ensures { OnOk result (map (λ k. class_of k.now) classes.new.items ≡ map (λ k. class_of k.now)
        classes.old.items ++ option_to_list (class_in (declaration_of declaration.now))) }
{
    match declaration {
        Declaration::Class(class) => {
            classes.push(class)?;
            Ok(())
        }
        Declaration::Nothing => Ok(()),
        Declaration::Wrong => Ok(()),
    }
}
