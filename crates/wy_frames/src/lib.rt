//! Traces read back, frame by frame: exactly what is spelled, or the first thing that is wrong.
#![tactic(auto)]

mod decoder;
mod error;
mod head;
mod open;
mod past;
mod reading;
mod run;
mod scanner;
mod split;
mod stage;
mod take;
mod whole;

pub use decoder::Decoder;
pub use error::TraceError;
pub use head::read_head;
pub use reading::decode;
pub use scanner::Scanner;
pub use stage::ReadEvent;
pub use wy_payload::fault::DamageRule;
pub use wy_spelling::{encode_event, encode_event_v1, encode_head, encode_seal, encode_tail};
