//! What a certificate says.

use wy_event::sequence::Sequence;
use wy_why::Source;

/// An event of an answer, and its sources by event and then by role.
#[derive(Drop)]
pub struct Listed {
    pub event: u32,
    pub sources: Sequence<Source>,
}

/// An answer to why: the seal of its trace in hexadecimal digits, the event that is asked about, and all that it comes from,
/// itself among it.
#[derive(Drop)]
pub struct Certificate {
    pub hex: Sequence<u8>,
    pub event: u32,
    pub listed: Sequence<Listed>,
}
