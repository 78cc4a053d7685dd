//! Numbers that are kept under numbers, in the order in which they came.

ghost use Rattle.std.specs.Prelude.{◌≡◌, ◌++◌, ℕ, OnOk, nat_eq};
ghost use Rattle.wy_static.specs.Rows.{kept_under, one_if};

use std::alloc::{AllocError, Global};
use std::collections::BTreeMap;

/// Puts a number behind those that are kept under a key.
pub fn keep(
    alloc: Global,
    rows: &mut BTreeMap<u32, Vec<u32>>,
    key: u32,
    number: u32,
) -> Result<(), AllocError>
    ensures { OnOk result ((q : ℕ) → kept_under rows.new q
        ≡ kept_under rows.old q ++ one_if (nat_eq key q) number) }
{
    if let Some(kept) = rows.get_mut(&key) {
        kept.push(number)?;
    } else {
        let mut kept = Vec::new(alloc);
        kept.push(number)?;
        rows.insert(key, kept)?;
    }
    Ok(())
}

/// The numbers that are kept under a key.
pub fn numbers_under(rows: &BTreeMap<u32, Vec<u32>>, key: u32) -> &[u32]
    ensures { result.now ≡ kept_under rows.now key }
{
    match rows.get(&key) {
        Some(kept) => kept.as_slice(),
        None => &[],
    }
}
