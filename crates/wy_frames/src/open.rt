//! What is kept before the first frame behind a head.

ghost use Rattle.std.specs.Prelude.{◌≡◌, ◌≤◌, ◌<◌, ◌^◌, ◌++◌, ℕ, List, length};
ghost use Rattle.sha2.specs.Hashers.{Holds256};
ghost use Rattle.wy_kernel.specs.Limits.{trace_limit};
ghost use Rattle.wy_spelling.specs.Spelling.{head_payload, number, opening};
ghost use Rattle.wy_frames.specs.Progress.{start};
ghost use Rattle.wy_frames.specs.Holds.{Holds};

use crate::past::Past;
use crate::stage::Stage;
use sha2::{Digest, Sha256};
use std::alloc::Global;
use wy_event::record::{Head, Version};
use wy_spelling::magic_of;

/// The bytes of the magic and of a frame's letter and length.
const OPENING: usize = 13;

/// The bytes of the three numbers of a head.
const NUMBERS: usize = 12;

fn add_bytes(hasher: &mut Sha256, more: &[u8])
    ensures { (bytes : List ℕ) → Holds256 hasher.old bytes
        → Holds256 hasher.new (bytes ++ more.now) }
{
    hasher.update(more);
}

fn add_number(hasher: &mut Sha256, n: u32)
    ensures { (bytes : List ℕ) → Holds256 hasher.old bytes
        → Holds256 hasher.new (bytes ++ number n) }
{
    add_bytes(hasher, &n.to_be_bytes());
}

fn add_block(hasher: &mut Sha256, block: &[u8])
    requires { length block.now < 2 ^ 32 }
    ensures { (bytes : List ℕ) → Holds256 hasher.old bytes
        → Holds256 hasher.new (bytes ++ (number (length block.now) ++ block.now)) }
{
    add_number(hasher, block.len() as u32);
    add_bytes(hasher, block);
}

#[tactic(auto, unfolding(wy_spelling::specs::Spelling::head_payload))]
fn add_head(hasher: &mut Sha256, head: &Head)
    requires { length (head_payload head.now) < 2 ^ 32 }
    ensures { (bytes : List ℕ) → Holds256 hasher.old bytes
        → Holds256 hasher.new (bytes ++ head_payload head.now) }
{
    add_number(hasher, head.steps);
    add_block(hasher, head.input.as_slice());
    add_block(hasher, head.source.as_slice());
}

#[tactic(auto, using(crate::proofs::Openings::payload_is_long))]
fn payload_length(head: &Head) -> u32
    requires { length (head_payload head.now) ≤ trace_limit }
    ensures { result ≡ length (head_payload head.now) }
{
    (NUMBERS + head.input.as_slice().len() + head.source.as_slice().len()) as u32
}

// The digest of the magic and the frame of a head, so far.
#[tactic(auto, using(crate::proofs::Openings::payload_is_within))]
fn hashed(version: Version, head: &Head) -> Sha256
    requires { length (opening version head.now) ≤ trace_limit }
    ensures { Holds256 result (opening version head.now) }
{
    let mut hasher = Sha256::new();
    add_bytes(&mut hasher, &magic_of(version));
    add_bytes(&mut hasher, b"H");
    add_number(&mut hasher, payload_length(head));
    add_head(&mut hasher, head);
    hasher
}

impl Past {
    #[tactic(auto, using(crate::proofs::Openings::payload_is_within))]
    pub fn start(alloc: Global, version: Version, head: &Head) -> Past
        requires { length (opening version head.now) ≤ trace_limit }
        ensures { Holds result (start version head.now) }
    {
        let length = payload_length(head) as usize;
        Past {
            known: Vec::new(alloc),
            uses: 0,
            output: 0,
            at: (OPENING + length) as u32,
            stage: Stage::Open,
            hasher: hashed(version, head),
        }
    }
}
