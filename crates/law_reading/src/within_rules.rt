//! A trace that keeps the rules of a reader is read: nothing is found wrong with it, and it is not cut.
//! The functions do nothing: their contracts are the laws.

ghost use Rattle.law_reading.specs.WithinRules.{TracesWithinRulesAreNotRefused, TracesWithinRulesAreRead};

/// The bytes of head, events and end that keep the rules are read as a trace with this head, this end, and these
/// events so far as bytes tell them.
pub fn traces_within_rules_are_read()
    ensures { TracesWithinRulesAreRead }
{}

/// Such bytes are not refused: where a reader answers no trace, memory ran out.
pub fn traces_within_rules_are_not_refused()
    ensures { TracesWithinRulesAreNotRefused }
{}
