//! How bytes are read as a trace: in one way, as what they spell; what keeps the rules of a reader is read; what is read refers
//! below itself. The functions do nothing: their contracts are the laws.
#![tactic(auto)]

mod one_reading;
mod referring;
mod spelled;
mod within_rules;

pub use one_reading::bytes_are_read_in_one_way;
pub use referring::{decoded_events_refer_below, few_events_are_decoded, read_events_refer_below};
pub use spelled::{
    coverages_are_spelled, events_are_spelled, heads_are_short, heads_are_spelled,
    prefixes_are_cut, recorded_ends_are_read_back, recorded_heads_are_read_back,
    recorded_traces_are_read_back, slots_are_spelled, tails_are_spelled, traces_are_spelled,
};
pub use within_rules::{traces_within_rules_are_not_refused, traces_within_rules_are_read};
