//! What an operation of the library gives.

use wy_value::Value;

/// A value that is made of all operands, or the value of an event.
#[derive(Clone, Copy)]
pub enum Found {
    Same(Value),
    Made(Value, u32),
}
