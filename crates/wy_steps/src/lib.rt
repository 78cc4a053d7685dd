//! The state of a run and the steps that it is made of. What a form does with these steps stands above.
//! The functions do nothing: their contracts are laws of the steps, said with the sets of events that values carry.
#![tactic(auto)]

ghost use Rattle.wy_steps.specs.Laws.{AppendsOne, CreatesOne, CreatesWithin, EntriesComeBack, FrameComesBack, LeavesOthers, MakesWithin, ReadsWhatWasWritten, RecordsWithin, ReplacesNothing, TakesOne, TakesTheValue, WritesOne, WritesWithin};
ghost use Rattle.wy_steps.specs.Sets.{numbers};
ghost use Rattle.wy_steps.specs.State.{Carried};

/// The start of a form takes one step of the budget.
pub fn a_form_takes_one_step()
    ensures { TakesOne numbers }
{}

/// What is read of a local, a field or an element just after a write to it is what was written, with what the write came from; its use
/// is the slot, by the number of the next event. A write leaves all other slots. Where slots are created, each slot that held something
/// holds the same. A local, a field or an element that is declared has no value then, and comes from what it came from before.
pub fn a_slot_holds_what_was_written()
    ensures written { ReadsWhatWasWritten numbers }
    ensures others { LeavesOthers numbers }
    ensures created { ReplacesNothing numbers }
    ensures declared { TakesTheValue numbers }
{}

/// Each record is one more behind those before it, numbered by how many they are; it comes from itself and its operands, and in all
/// also from the entries that are active.
pub fn a_record_is_one_more()
    ensures noted { AppendsOne numbers }
    ensures written { WritesOne numbers }
    ensures created { CreatesOne numbers }
{}

/// A run that records goes on within its limits: after each event, be it one that is only recorded, that writes its slot or that
/// creates slots, the records are no more than their limit, and the uses no more than theirs. Where elements are taken, the elements
/// are no more than their limit then; where units are taken, the units.
pub fn limits_are_kept()
    ensures records { RecordsWithin numbers }
    ensures written { WritesWithin numbers }
    ensures created { CreatesWithin numbers }
    ensures made { MakesWithin numbers }
{}

/// Behind a part of a run the same entries are active and the same body runs as before it, whichever way it ended.
pub fn what_stands_around_comes_back()
    ensures entries { EntriesComeBack numbers (Carried numbers) }
    ensures entries_of_statements { EntriesComeBack numbers (Unit {0}) }
    ensures frame { FrameComesBack numbers (Carried numbers) }
    ensures frame_of_statements { FrameComesBack numbers (Unit {0}) }
{}
