//! The tables of a program: its classes, methods and fields, behind those of the library.

use crate::shown::{Page, show_type};
use crate::source::read;
use std::alloc::{AllocError, Global};
use std::test::Fail;
use wy_kernel::program::Program;
use wy_kernel::types::{Class, Field, Method, MethodForm};

fn show_flags(page: &mut Page, flags: &[(bool, &str)]) -> Result<(), AllocError> {
    for (is, name) in flags {
        if *is {
            page.word(name)?;
        }
    }
    page.word("\n")
}

fn show_class(page: &mut Page, class: &Class) -> Result<(), AllocError> {
    page.word(class.name.as_str())?;
    page.named("@", class.site)?;
    page.named(" below #", class.above)?;
    for interface in class.interfaces.as_slice() {
        page.named(" #", *interface)?;
    }
    let flags = [
        (class.is_interface, " interface"),
        (class.is_abstract, " abstract"),
        (class.is_final, " final"),
    ];
    show_flags(page, &flags)
}

fn form_name(form: MethodForm) -> &'static str {
    match form {
        MethodForm::Static => " static",
        MethodForm::Instance => " instance",
        MethodForm::Constructor => " constructor",
        MethodForm::Fields => " fields",
    }
}

fn show_method(page: &mut Page, method: &Method) -> Result<(), AllocError> {
    page.named("#", method.class)?;
    page.word(" ")?;
    page.word(method.name.as_str())?;
    page.named("@", method.site)?;
    for param in method.params.as_slice() {
        page.word(" ")?;
        show_type(page, *param)?;
    }
    page.word(" gives ")?;
    show_type(page, method.result)?;
    page.word(form_name(method.form))?;
    let flags = [
        (method.is_private, " private"),
        (method.is_abstract, " abstract"),
        (method.is_final, " final"),
    ];
    show_flags(page, &flags)
}

fn show_field(page: &mut Page, field: &Field) -> Result<(), AllocError> {
    page.named("#", field.class)?;
    page.word(" ")?;
    page.word(field.name.as_str())?;
    page.named("@", field.site)?;
    page.word(" ")?;
    show_type(page, field.ty)?;
    let flags = [
        (field.is_static, " static"),
        (field.is_final, " final"),
        (field.is_fixed, " fixed"),
        (field.is_private, " private"),
    ];
    show_flags(page, &flags)
}

fn tables(alloc: Global, program: &Program) -> Result<String, AllocError> {
    let mut page = Page::new(alloc, true);
    for class in program.classes.iter().skip(18) {
        show_class(&mut page, class)?;
    }
    for method in program.methods.iter().skip(36) {
        show_method(&mut page, method)?;
    }
    for field in program.fields.iter().skip(1) {
        show_field(&mut page, field)?;
    }
    Ok(page.text)
}

const TEXT: &str = "interface Shape { long area(int[] scale); }
abstract class Round implements Shape {
  static final int SIDES = 0;
  private String name = null;
  Round(String[] names, Object other) { }
  static void print() { }
  public final long area(int scale[]) { return 1; }
}
;
final class Circle extends Round {
  int radius;
  Circle() { super(null, null); }
  private Circle[] ring() { return null; }
  public static void main(String[] args) { }
}
";

const TABLES: &str = "Shape@1 below #- interface abstract
Round@15 below #0 #18 abstract
Circle@70 below #19 final
#18 area@4 int[] gives long instance abstract
#19 <fields>@15 gives void fields
#19 new@32 #1[] #0 gives void constructor
#19 print@46 gives void static
#19 area@54 int[] gives long instance final
#20 new@77 gives void constructor
#20 ring@93 gives #20[] instance private
#20 main@104 #1[] gives void static
#19 SIDES@22 int static final fixed
#19 name@28 #1 private
#20 radius@75 int
";

#[test]
fn a_program_has_a_row_for_each_class_method_and_field(rt: HostRuntime) -> Result<(), Fail> {
    let program = read(rt.alloc(), TEXT).ok_or("no program")?;
    let seen = tables(rt.alloc(), &program)?;
    assert_eq!(rt; seen.as_str(), TABLES);
    Ok(())
}
