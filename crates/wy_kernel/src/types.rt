//! Types, and what is declared: classes, methods, fields and locals (JLS 4, 8, 9).

use crate::operator::Primitive;

/// The number that stands where there is none.
pub const NONE: u32 = 4294967295;

/// What brackets stand behind: a primitive type, or a class by its number.
#[derive(Clone, Copy, Debug, PartialEq, Eq, Hash)]
pub enum Base {
    Primitive(Primitive),
    Class(u32),
}

/// A type: none, that of `null`, or a base with so many pairs of brackets.
#[derive(Clone, Copy, Debug, PartialEq, Eq, Hash)]
pub enum Ty {
    Void,
    Null,
    Of { base: Base, brackets: u8 },
}

/// What a method is called as.
#[derive(Clone, Copy, Debug, PartialEq, Eq)]
pub enum MethodForm {
    Static,
    Instance,
    Constructor,
    /// The instance initializers of a class, as one unit.
    Fields,
}

/// A class or an interface. The name of a built-in one is without its package.
#[derive(Drop)]
pub struct Class {
    pub name: String,
    /// The token of its name, and NONE for a built-in one.
    pub site: u32,
    pub is_interface: bool,
    pub is_abstract: bool,
    pub is_final: bool,
    /// The superclass, and NONE for Object and for an interface.
    pub above: u32,
    pub interfaces: Vec<u32>,
}

/// A method, a constructor (its name is `new`) or a unit of instance initializers.
#[derive(Drop)]
pub struct Method {
    pub name: String,
    pub site: u32,
    pub class: u32,
    pub params: Vec<Ty>,
    pub result: Ty,
    pub form: MethodForm,
    pub is_private: bool,
    pub is_abstract: bool,
    pub is_final: bool,
}

/// A field, static or of an object.
#[derive(Drop)]
pub struct Field {
    pub name: String,
    pub site: u32,
    pub class: u32,
    pub ty: Ty,
    pub is_static: bool,
    pub is_final: bool,
    /// It is final and its declaration has an initializer: nothing else may assign it.
    pub is_fixed: bool,
    pub is_private: bool,
}

/// A local of a body: `this`, a parameter, a local or the parameter of a catch.
#[derive(Drop)]
pub struct Local {
    pub name: String,
    pub site: u32,
    pub ty: Ty,
}
