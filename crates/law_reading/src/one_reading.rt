//! No bytes are read in two ways: what a trace is read as, or refused for, is settled by its bytes.
//! The function does nothing: its contract is the law.

ghost use Rattle.law_reading.specs.OneReading.{ReadsInOneWay};

/// Of two answers on the same bytes, neither of which is want of memory, both are the same trace or the same refusal.
pub fn bytes_are_read_in_one_way()
    ensures { ReadsInOneWay }
{}
