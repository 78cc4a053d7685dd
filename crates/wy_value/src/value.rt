//! A value of the machine (JLS 4.2, 4.3): a number, a boolean, null or a reference; and what a test gave.

/// A value. The reference of an object, a text made by the run or a constant text is its number.
#[derive(Clone, Copy, Debug, PartialEq, Eq)]
pub enum Value {
    /// No value: a local before its first assignment.
    None,
    Bool(bool),
    Byte(i8),
    Short(i16),
    Char(u16),
    Int(i32),
    Long(i64),
    Null,
    Object(u32),
    Text(u32),
    Fixed(u32),
    /// What a test gave: 1 for true, 0 for false. No form has it, no slot holds it: it stands in the record of the test.
    Arm(u32),
}

/// The divisor of `/` or `%` was zero (JLS 15.17.2, 15.17.3).
#[derive(Clone, Copy, Debug, PartialEq, Eq)]
pub struct ByZero;
