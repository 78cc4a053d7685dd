//! What look-ups found last: where the next look-up of a slot begins.

ghost use Rattle.std.specs.Prelude.{IfOk, IfSome, List};
ghost use Rattle.wy_index.specs.declared.posting.Posting.{Posting};
ghost use Rattle.wy_index.specs.Finds.{IsFound, IsRecent};

use crate::posting::Find;
use crate::slot::number;
use std::alloc::{AllocError, Global};
use wy_event::record::Slot;

/// The postings of an index that were found last, each in a place of its slot, which few other slots share.
#[derive(Drop)]
pub struct Recent {
    finds: Vec<Option<Find>>,
}

impl Recent {
    /// Nothing was found so far, and there are so many places.
    pub fn new(alloc: Global, places: usize) -> Result<Recent, AllocError>
        ensures { IfOk result (λ recent. (postings : List Posting) → IsRecent postings recent) }
    {
        Ok(Recent {
            finds: vec![in alloc; None; places]?,
        })
    }

    fn place(&self, slot: Slot) -> usize {
        if self.finds.is_empty() {
            return 0;
        }
        number(slot) as usize % self.finds.len()
    }

    /// What was found last in the place of a slot.
    pub(crate) fn at(&self, slot: Slot) -> Option<Find>
        ensures { (postings : List Posting) → IsRecent postings self.now
            → IfSome result (IsFound postings) }
    {
        match self.finds.get(self.place(slot)) {
            Some(find) => *find,
            None => None,
        }
    }

    /// Keeps what was found last.
    pub(crate) fn keep(&mut self, slot: Slot, find: Option<Find>)
        ensures { (postings : List Posting) → IsRecent postings self.old
            → IfSome find (IsFound postings) → IsRecent postings self.new }
    {
        let place = self.place(slot);
        if place < self.finds.len() {
            self.finds[place] = find;
        }
    }
}
