//! What the Sets of a trace stored in fields.

ghost use Rattle.std.specs.Prelude.{◌≡◌};
ghost use Rattle.wy_ask.specs.Listing.{is_set};

use crate::asking::Listed;
use std::alloc::{AllocError, Global};
use std::collections::HashMap;
use wy_event::record::{Event, Kind, Slot};
use wy_value::Value;

fn is_set(kind: Kind) -> bool
    ensures { result ≡ is_set kind }
{
    matches!(kind, Kind::Set)
}

/// The object of a field, if it is not static, and the number of the field.
type FieldKey = (Option<u32>, u32);

/// The fields that Sets wrote so far, in the order of their first Sets, and what each holds.
#[derive(Drop)]
pub(crate) struct Stores {
    keys: Vec<FieldKey>,
    values: HashMap<FieldKey, Value>,
}

impl Stores {
    ghost use Rattle.std.specs.Prelude.{◌∷◌, ◌++◌, [], ℕ, All, List, OnOk, Some, if◌then◌else◌, unwrap_or};
    ghost use Rattle.std.specs.Option.{is_some};
    ghost use Rattle.wy_event.specs.Record.{Recorded, recorded};
    ghost use Rattle.wy_value.specs.declared.value.Value.TheVariants as value_of;
    ghost use Rattle.wy_view.specs.References.{ValueBelow};
    ghost use Rattle.wy_ask.specs.Held.{HasStored, HoldsBelow, held, key_of, slot_of};
    ghost use Rattle.wy_ask.specs.Listing.{IsListedBelow, field_sets, stored_by};

    pub(crate) fn new(alloc: Global) -> Stores
        ensures stored { HasStored result [] }
        ensures below { (n : ℕ) → HoldsBelow n result }
    {
        Stores {
            keys: Vec::new(alloc),
            values: HashMap::new(alloc),
        }
    }

    /// The key of a slot, if it is a field.
    fn key_of(slot: Slot) -> Option<FieldKey>
        ensures { result ≡ key_of slot }
    {
        match slot {
            Slot::Static { field } => Some((None, field)),
            Slot::Field { object, field } => Some((Some(object), field)),
            _ => None,
        }
    }

    fn slot_of(key: FieldKey) -> Slot
        ensures { result ≡ slot_of key }
    {
        match key {
            (None, field) => Slot::Static { field },
            (Some(object), field) => Slot::Field { object, field },
        }
    }

    /// Takes the next event.
    pub(crate) fn note(&mut self, event: &Event) -> Result<(), AllocError>
        ensures stored { (sets : List Recorded) → HasStored self.old sets
            → OnOk result (HasStored self.new (sets ++ field_sets (recorded event.now ∷ []))) }
        ensures below { (n : ℕ) → HoldsBelow n self.old → ValueBelow n event.now.value
            → OnOk result (HoldsBelow n self.new) }
    {
        if !is_set(event.kind) {
            return Ok(());
        }
        match Stores::key_of(event.slot) {
            Some(key) => self.store(key, event.value),
            None => Ok(()),
        }
    }

    fn store(&mut self, key: FieldKey, value: Value) -> Result<(), AllocError>
        ensures stored { (sets : List Recorded) (r : Recorded) → HasStored self.old sets
            → key_of r.slot ≡ Some key → r.value ≡ value
            → OnOk result (HasStored self.new (sets ++ r ∷ [])) }
        ensures below { (n : ℕ) → HoldsBelow n self.old → ValueBelow n value
            → OnOk result (HoldsBelow n self.new) }
    {
        Stores::keep_new(&mut self.keys, &self.values, key)?;
        self.values.insert(key, value)?;
        Ok(())
    }

    /// Puts a key behind those that are kept, if nothing is held for it.
    fn keep_new(
        keys: &mut Vec<FieldKey>,
        values: &HashMap<FieldKey, Value>,
        key: FieldKey,
    ) -> Result<(), AllocError>
        ensures { OnOk result (keys.new.items ≡ keys.old.items
            ++ (if is_some (held values.now key) then [] else key ∷ [])) }
    {
        if !values.contains_key(&key) {
            keys.push(key)?;
        }
        Ok(())
    }

    /// What a field holds.
    fn value(&self, key: FieldKey) -> Value
        ensures { result ≡ unwrap_or (held self.now.values key) value_of.None }
    {
        self.values.get(&key).copied().unwrap_or(Value::None)
    }

    /// Puts each field, as it is when so many events stand.
    pub(crate) fn put(&self, listed: &mut Vec<Listed>, moment: u32) -> Result<(), AllocError>
        ensures listed { (sets : List Recorded) → HasStored self.now sets
            → OnOk result (listed.new.items ≡ listed.old.items ++ stored_by sets moment) }
        ensures below { (n : ℕ) → HoldsBelow n self.now
            → All (IsListedBelow n) listed.old.items
            → OnOk result (All (IsListedBelow n) listed.new.items) }
    {
        let keys = self.keys.as_slice();
        for key in keys {
            listed.push(Listed::Stored {
                slot: Stores::slot_of(*key),
                moment,
                value: self.value(*key),
            })?;
        }
        Ok(())
    }
}
