//! What the records give for a slot is what the store of the run last had in it. The functions do nothing: their contracts are the laws.
#![tactic(auto)]

ghost use Rattle.wy_kernel.specs.Program.{Program};
ghost use Rattle.wy_steps.specs.Sets.{nothing, numbers};
ghost use Rattle.law_held.specs.Last.{HeldWasLastHad, OfFitting, StoresAreLeftSo, StoresHaveHeld};

use law_in_range::runs_are_in_range;

/// In every run of a program that fits its types, keeps the library and fits its text, for each slot and each moment up to the number of
/// events, what the records give is the value that the store last had in that slot before the moment, or none where it never had one: a
/// local from which a declaration took the value is given the one that it had.
///
/// In every run of any program, what the store has in a slot just before an event, or at the end, is nothing or what the records give.
pub fn held_is_what_the_store_last_had()
    ensures last_had { OfFitting (HeldWasLastHad nothing) }
    ensures last_had_carrying { OfFitting (HeldWasLastHad numbers) }
    ensures stored { (p : Program) → StoresHaveHeld nothing p }
    ensures stored_carrying { (p : Program) → StoresHaveHeld numbers p }
{
    runs_are_in_range();
}

/// The steps that record an event leave the store as the definition of what a slot last had says of it.
pub fn stores_are_as_the_steps_leave_them()
    ensures left { (p : Program) → StoresAreLeftSo nothing p }
    ensures left_carrying { (p : Program) → StoresAreLeftSo numbers p }
{}
