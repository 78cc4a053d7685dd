//! What is kept of the frames that stand: as much as the next one is read by.

ghost use Rattle.std.specs.Prelude.{◌≤◌};

use crate::stage::Stage;
use sha2::Sha256;
use wy_payload::known::Known;

/// The events as later ones see them, what they used and wrote, how far the trace was read, and the digest of its bytes
/// up to the place of the next frame.
#[derive(Drop)]
pub struct Past {
    pub known: Vec<Known>,
    pub uses: u32,
    pub output: u32,
    pub at: u32,
    pub stage: Stage,
    pub hasher: Sha256,
    pub ghost has_room: { output ≤ 16777216 },
}
