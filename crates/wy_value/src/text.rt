//! Operations on texts as lists of 16-bit units: `charAt`, `substring`, `equals` and `compareTo` of java.lang.String.
//! Not the text of a value, and not its encoding.
ghost use Rattle.std.specs.Prelude.{◌≡◌, ◌↔◌, ◌⊎◌, ◌<ℤ◌, ◌≤ℤ◌, pos, length, IsTrue, IsErr, IfOk, Some};
ghost use Rattle.std.specs.Result.{result_ok};
ghost use Rattle.std.specs.Int.{w32};
ghost use Rattle.wy_value.specs.Number.{wrapped};
ghost use Rattle.wy_value.specs.Text.{unit_of, part_of, difference};

use crate::word::int;
use std::alloc::{AllocError, Global};

/// The index is none of the text, or the indices are no span of it.
#[derive(Clone, Copy, Debug, PartialEq, Eq)]
pub struct BadIndex;

/// Why a part of a text can't be had.
#[derive(Clone, Copy, Debug, PartialEq, Eq)]
pub enum PartError {
    BadIndex,
    NoMemory,
}

impl From<AllocError> for PartError {
    ghost use Rattle.wy_value.specs.declared.text.PartError.{PartError};

    ghost from_gives = { λ _ e. e ≡ PartError.NoMemory };

    fn from(_error: AllocError) -> PartError {
        PartError::NoMemory
    }
}

/// The unit at `index`.
pub fn unit_at(units: &[u16], index: i32) -> Result<u16, BadIndex>
    ensures value { result_ok result ≡ unit_of units.now index }
    ensures bad_index { IsErr result ↔ ((index <ℤ pos 0) ⊎ (pos (length units.now) ≤ℤ index)) }
{
    if index < 0 {
        return Err(BadIndex);
    }
    units.get(index as usize).copied().ok_or(BadIndex)
}

/// The units from index `from` up to, and without, index `to`.
pub fn part(alloc: Global, units: &[u16], from: i32, to: i32) -> Result<Vec<u16>, PartError>
    ensures part { IfOk result (λ v. part_of units.now from to ≡ Some v.items) }
    ensures bad_index { (result ≡ Err PartError.BadIndex)
        ↔ ((from <ℤ pos 0) ⊎ (to <ℤ from) ⊎ (pos (length units.now) <ℤ to)) }
{
    if from < 0 || to < from {
        return Err(PartError::BadIndex);
    }
    let start = from as usize;
    let end = to as usize;
    if units.len() < end {
        return Err(PartError::BadIndex);
    }
    Ok(Vec::from_slice(alloc, &units[start..end])?)
}

/// The two texts have the same units.
pub fn same(a: &[u16], b: &[u16]) -> bool
    ensures { IsTrue result ↔ (a.now ≡ b.now) }
{
    a == b
}

/// Less than, equal to or greater than 0 as `a` is before, equal to or after `b`, for texts of less than 2 ^ 31 units.
pub fn compare(a: &[u16], b: &[u16]) -> i32
    ensures { result ≡ wrapped w32 (difference a.now b.now) }
{
    for (x, y) in a.iter().zip(b) {
        if x != y {
            return i32::from(*x) - i32::from(*y);
        }
    }
    int::from_low_bits(a.len() as i64 - b.len() as i64)
}
