//! Constants as values on which operators work (JLS 15.28), and their texts (JLS 5.1.11).

ghost use Rattle.std.specs.Prelude.{◌≡◌, IfOk, IsTrue, option_map};
ghost use Rattle.wy_kernel.specs.Table.{constant_value};
ghost use Rattle.wy_constant.specs.Constant.{simple, simple_in, text_length, units_of, truth};

use std::alloc::{AllocError, Global};
use wy_kernel::form::Const;
use wy_value::{Value, digits};

/// The value of a constant that is no text.
pub fn value_of(c: &Const) -> Option<Value>
    ensures { result ≡ simple_in (constant_value c.now) }
{
    match c {
        Const::Null => Some(Value::Null),
        Const::Bool(b) => Some(Value::Bool(*b)),
        Const::Byte(n) => Some(Value::Byte(*n)),
        Const::Short(n) => Some(Value::Short(*n)),
        Const::Char(unit) => Some(Value::Char(*unit)),
        Const::Int(n) => Some(Value::Int(*n)),
        Const::Long(n) => Some(Value::Long(*n)),
        Const::Text(_) => None,
    }
}

/// The constant that has a value. A reference is none.
pub fn constant_in(v: Value) -> Const
    ensures { constant_value result ≡ simple v }
{
    match v {
        Value::Bool(b) => Const::Bool(b),
        Value::Byte(n) => Const::Byte(n),
        Value::Short(n) => Const::Short(n),
        Value::Char(unit) => Const::Char(unit),
        Value::Int(n) => Const::Int(n),
        Value::Long(n) => Const::Long(n),
        Value::None => Const::Null,
        Value::Null => Const::Null,
        Value::Object(_) => Const::Null,
        Value::Text(_) => Const::Null,
        Value::Fixed(_) => Const::Null,
        Value::Arm(_) => Const::Null,
    }
}

/// The same constant again.
pub fn copied(c: &Const) -> Result<Const, AllocError>
    ensures { IfOk result (λ k. constant_value k ≡ constant_value c.now) }
{
    match c {
        Const::Null => Ok(Const::Null),
        Const::Bool(b) => Ok(Const::Bool(*b)),
        Const::Byte(n) => Ok(Const::Byte(*n)),
        Const::Short(n) => Ok(Const::Short(*n)),
        Const::Char(unit) => Ok(Const::Char(*unit)),
        Const::Int(n) => Ok(Const::Int(*n)),
        Const::Long(n) => Ok(Const::Long(*n)),
        Const::Text(units) => Ok(Const::Text(units.clone()?)),
    }
}

/// The units of a constant's text.
pub fn units(alloc: Global, c: &Const) -> Result<Vec<u16>, AllocError>
    ensures { IfOk result (λ v. v.items ≡ units_of (constant_value c.now)) }
{
    match c {
        Const::Null => digits(alloc, Value::Null),
        Const::Bool(b) => digits(alloc, Value::Bool(*b)),
        Const::Byte(n) => digits(alloc, Value::Byte(*n)),
        Const::Short(n) => digits(alloc, Value::Short(*n)),
        Const::Char(unit) => digits(alloc, Value::Char(*unit)),
        Const::Int(n) => digits(alloc, Value::Int(*n)),
        Const::Long(n) => digits(alloc, Value::Long(*n)),
        Const::Text(units) => units.clone(),
    }
}

/// How many units a constant's text has; what is no text has none.
pub fn units_in(c: &Option<Const>) -> usize
    ensures { result ≡ text_length (option_map constant_value c.now) }
{
    match c {
        Some(Const::Text(units)) => units.len(),
        _ => 0,
    }
}

/// The truth of a boolean constant.
pub fn truth_of(c: &Const) -> Option<bool>
    ensures { result ≡ truth (constant_value c.now) }
{
    match c {
        Const::Bool(b) => Some(*b),
        Const::Null => None,
        Const::Byte(_) => None,
        Const::Short(_) => None,
        Const::Char(_) => None,
        Const::Int(_) => None,
        Const::Long(_) => None,
        Const::Text(_) => None,
    }
}
