//! The classes of java.lang that a program may use, with their methods and their one field, in the order of their numbers.
//! Their bodies are no part of this.

ghost use Rattle.std.specs.Prelude.{◌≡◌, ◌<◌, IfOk, OnOk, [], ◌∷◌, ◌++◌, drop, map, take};
ghost use Rattle.std.specs.Option.{option_to_list};
ghost use Rattle.wy_kernel.specs.Builtin as builtin;
ghost use Rattle.wy_kernel.specs.View.{class_of, field_of, method_of, present};
ghost use Rattle.wy_kernel.specs.Program.{library_methods};

use crate::operator::Primitive;
use crate::types::{Base, Class, Field, Method, MethodForm, NONE, Ty};
use std::alloc::{AllocError, Global};

/// The classes of a source are numbered from here on, behind those of the library.
pub const FIRST_SOURCE_CLASS: u32 = 18;

pub const OBJECT: u32 = 0;

pub const STRING: u32 = 1;

pub const THROWABLE: u32 = 2;

pub const EXCEPTION: u32 = 3;

const RUNTIME_EXCEPTION: u32 = 5;

const ILLEGAL_ARGUMENT_EXCEPTION: u32 = 9;

const INDEX_OUT_OF_BOUNDS_EXCEPTION: u32 = 12;

const TEXT: Ty = Ty::Of {
    base: Base::Class(STRING),
    brackets: 0,
};

const ANY: Ty = Ty::Of {
    base: Base::Class(OBJECT),
    brackets: 0,
};

const BOOLEAN: Ty = Ty::Of {
    base: Base::Primitive(Primitive::Bool),
    brackets: 0,
};

/// The 18 classes.
#[tactic(auto, using(crate::proofs::Builtins::by_six))]
pub fn classes(alloc: Global) -> Result<Vec<Class>, AllocError>
    ensures { IfOk result (λ v. map class_of v.items ≡ builtin.classes) }
{
    let mut all = Vec::new(alloc);
    put_first_classes(alloc, &mut all)?;
    put_next_classes(alloc, &mut all)?;
    put_last_classes(alloc, &mut all)?;
    Ok(all)
}

fn put_first_classes(alloc: Global, all: &mut Vec<Class>) -> Result<(), AllocError>
    ensures { OnOk result
        (map class_of all.new.items ≡ map class_of all.old.items ++ take 6 builtin.classes) }
{
    put(alloc, all, "Object", NONE)?;
    put_string(alloc, all)?;
    put(alloc, all, "Throwable", OBJECT)?;
    put(alloc, all, "Exception", THROWABLE)?;
    put(alloc, all, "Error", THROWABLE)?;
    put(alloc, all, "RuntimeException", EXCEPTION)
}

fn put_next_classes(alloc: Global, all: &mut Vec<Class>) -> Result<(), AllocError>
    ensures { OnOk result (map class_of all.new.items ≡ map class_of all.old.items
        ++ take 6 (drop 6 builtin.classes)) }
{
    put(alloc, all, "ArithmeticException", RUNTIME_EXCEPTION)?;
    put(alloc, all, "ArrayStoreException", RUNTIME_EXCEPTION)?;
    put(alloc, all, "ClassCastException", RUNTIME_EXCEPTION)?;
    put(alloc, all, "IllegalArgumentException", RUNTIME_EXCEPTION)?;
    put(
        alloc,
        all,
        "NumberFormatException",
        ILLEGAL_ARGUMENT_EXCEPTION,
    )?;
    put(alloc, all, "IllegalStateException", RUNTIME_EXCEPTION)
}

fn put_last_classes(alloc: Global, all: &mut Vec<Class>) -> Result<(), AllocError>
    ensures { OnOk result
        (map class_of all.new.items ≡ map class_of all.old.items ++ drop 12 builtin.classes) }
{
    let bounds = INDEX_OUT_OF_BOUNDS_EXCEPTION;
    put(alloc, all, "IndexOutOfBoundsException", RUNTIME_EXCEPTION)?;
    put(alloc, all, "ArrayIndexOutOfBoundsException", bounds)?;
    put(alloc, all, "StringIndexOutOfBoundsException", bounds)?;
    put(alloc, all, "NegativeArraySizeException", RUNTIME_EXCEPTION)?;
    put(alloc, all, "NullPointerException", RUNTIME_EXCEPTION)?;
    put(
        alloc,
        all,
        "UnsupportedOperationException",
        RUNTIME_EXCEPTION,
    )
}

// Puts a class behind the others.
#[tactic(auto, using(crate::proofs::Builtins::class_behind))]
fn put(alloc: Global, all: &mut Vec<Class>, name: &str, above: u32) -> Result<(), AllocError>
    ensures { OnOk result (map class_of all.new.items ≡ map class_of all.old.items
        ++ builtin.extending (present above) name.now ∷ []) }
{
    all.push(class(alloc, name, above)?)?;
    Ok(())
}

fn put_string(alloc: Global, all: &mut Vec<Class>) -> Result<(), AllocError>
    ensures { OnOk result
        (map class_of all.new.items ≡ map class_of all.old.items ++ builtin.string ∷ []) }
{
    let class = class(alloc, "String", OBJECT)?;
    all.push(Class {
        is_final: true,
        ..class
    })?;
    Ok(())
}

fn class(alloc: Global, name: &str, above: u32) -> Result<Class, AllocError>
    ensures { IfOk result (λ c. class_of c ≡ builtin.extending (present above) name.now) }
{
    Ok(Class {
        name: name.to_string(alloc)?,
        site: NONE,
        is_interface: false,
        is_abstract: false,
        is_final: false,
        above,
        interfaces: Vec::new(alloc),
    })
}

/// The 36 methods.
pub fn methods(alloc: Global) -> Result<Vec<Method>, AllocError>
    ensures { IfOk result (λ v. map method_of v.items ≡ builtin.methods) }
{
    let mut all = first_methods(alloc)?;
    for class in EXCEPTION..FIRST_SOURCE_CLASS {
        let first = 6 + 2 * (class - EXCEPTION);
        all.push(constructor(alloc, first, class, None)?)?;
        all.push(constructor(alloc, first + 1, class, Some(TEXT))?)?;
    }
    Ok(all)
}

// Those of Object and of Throwable.
fn first_methods(alloc: Global) -> Result<Vec<Method>, AllocError>
    ensures { IfOk result (λ v. map method_of v.items ≡ builtin.first_methods) }
{
    Ok(vec![in alloc;
        instance(alloc, 0, OBJECT, "toString", None, TEXT)?,
        instance(alloc, 1, OBJECT, "equals", Some(ANY), BOOLEAN)?,
        constructor(alloc, 2, THROWABLE, None)?,
        constructor(alloc, 3, THROWABLE, Some(TEXT))?,
        instance(alloc, 4, THROWABLE, "getMessage", None, TEXT)?,
        instance(alloc, 5, THROWABLE, "toString", None, TEXT)?,
    ]?)
}

fn instance(
    alloc: Global,
    number: u32,
    class: u32,
    name: &str,
    param: Option<Ty>,
    result_type: Ty,
) -> Result<Method, AllocError>
    requires { number < library_methods }
    ensures { IfOk result (λ m.
        method_of m ≡ builtin.instance number class name.now (option_to_list param) result_type) }
{
    Ok(Method {
        name: name.to_string(alloc)?,
        site: site_of(number),
        class,
        params: types(alloc, param)?,
        result: result_type,
        form: MethodForm::Instance,
        is_private: false,
        is_abstract: false,
        is_final: false,
    })
}

fn constructor(
    alloc: Global,
    number: u32,
    class: u32,
    param: Option<Ty>,
) -> Result<Method, AllocError>
    requires { number < library_methods }
    ensures { IfOk result (λ m.
        method_of m ≡ builtin.constructor number class (option_to_list param)) }
{
    Ok(Method {
        name: "new".to_string(alloc)?,
        site: site_of(number),
        class,
        params: types(alloc, param)?,
        result: Ty::Void,
        form: MethodForm::Constructor,
        is_private: false,
        is_abstract: false,
        is_final: false,
    })
}

// All sites in a method of the library.
fn site_of(number: u32) -> u32
    requires { number < library_methods }
    ensures { result ≡ builtin.method_site number }
{
    2147483648 + number
}

fn types(alloc: Global, one: Option<Ty>) -> Result<Vec<Ty>, AllocError>
    ensures { IfOk result (λ v. v.items ≡ option_to_list one) }
{
    match one {
        Some(ty) => Ok(vec![in alloc; ty]?),
        None => Ok(Vec::new(alloc)),
    }
}

/// The one field: the message of a Throwable.
#[tactic(auto, unfolding(crate::specs::Builtin::fields))]
pub fn fields(alloc: Global) -> Result<Vec<Field>, AllocError>
    ensures { IfOk result (λ v. map field_of v.items ≡ builtin.fields) }
{
    Ok(vec![in alloc;
        Field {
            name: "message".to_string(alloc)?,
            site: NONE,
            class: THROWABLE,
            ty: TEXT,
            is_static: false,
            is_final: false,
            is_fixed: false,
            is_private: true,
        },
    ]?)
}
