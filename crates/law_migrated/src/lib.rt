//! What bytes are read as keeps the rules of a reader, and so its bytes of version 2 are read as it too. The functions do nothing:
//! their contracts are the laws.
#![tactic(auto)]

ghost use Rattle.law_migrated.specs.Kept.{MigratedTracesAreRead, ReadTracesKeepRules};

use law_placing::read_events_are_told;
use law_reading::traces_within_rules_are_read;

/// The head, the events and the end of a trace that is read keep every rule of a reader: with `traces_within_rules_are_read`, bytes
/// are read as a trace exactly where they spell one that keeps the rules.
pub fn read_traces_keep_rules()
    ensures { ReadTracesKeepRules }
{}

/// The bytes of version 2 of a trace that is read of bytes of either version are read as a trace with the same head, the same records
/// and the same end.
pub fn migrated_traces_are_read()
    ensures { MigratedTracesAreRead }
{
    read_traces_keep_rules();
    read_events_are_told();
    traces_within_rules_are_read();
}
