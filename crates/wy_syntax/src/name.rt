//! Names and written types (JLS 4.3, 6.2).

use wy_kernel::operator::Primitive;

/// A name and the number of its token.
#[derive(Drop)]
pub struct Named {
    pub name: String,
    pub token: u32,
}

/// What a written type begins with: a primitive type, or the name of a class.
#[derive(Drop)]
pub enum WrittenBase {
    Primitive(Primitive),
    Class(String),
}

/// A type as it is written: what it begins with, the number of that token, and its bracket pairs.
#[derive(Drop)]
pub struct WrittenType {
    pub base: WrittenBase,
    pub token: u32,
    pub brackets: u32,
}
