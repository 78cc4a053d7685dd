//! The bytes of a trace: its one spelling in each version, and the calls that write the frames of it. Nothing here reads bytes.
#![tactic(auto)]

mod encode;
mod write;

pub use encode::{
    MAGIC_LENGTH, encode_event, encode_event_v1, encode_head, encode_seal, encode_tail, magic_of,
};
