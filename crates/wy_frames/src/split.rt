//! A frame at the front of bytes.

ghost use Rattle.std.specs.Prelude.{◌≡◌, option_map, slice_index};
ghost use Rattle.wy_frames.specs.Pieces.{frame_in};
ghost use Rattle.wy_frames.specs.Frames.{frame_of, frame_of_length};

/// A frame: its letter, what it holds, all of its bytes, and the bytes behind it.
#[derive(Clone, Copy)]
pub struct Piece<'a> {
    pub letter: u8,
    pub payload: &'a [u8],
    pub whole: &'a [u8],
    pub rest: &'a [u8],
}

const OPENING_LENGTH: usize = 5;

#[tactic(auto, unfolding(crate::specs::Frames::frame_of_length))]
fn split_at_length(bytes: &[u8], letter: u8, size: u32) -> Option<Piece<'_>>
    requires { letter ≡ slice_index bytes.now 0 }
    ensures { option_map frame_in result ≡ frame_of_length size bytes.now }
{
    let length = OPENING_LENGTH + size as usize;
    if bytes.len() < length {
        return None;
    }
    let (whole, rest) = bytes.split_at(length);
    let (_, payload) = whole.split_at(OPENING_LENGTH);
    Some(Piece {
        letter,
        payload,
        whole,
        rest,
    })
}

/// The frame that bytes begin with, where it is whole.
#[tactic(auto, unfolding(crate::specs::Frames::frame_of))]
pub fn split(bytes: &[u8]) -> Option<Piece<'_>>
    ensures { option_map frame_in result ≡ frame_of bytes.now }
{
    if bytes.len() < OPENING_LENGTH {
        return None;
    }
    let size = u32::from_be_bytes([bytes[1], bytes[2], bytes[3], bytes[4]]);
    split_at_length(bytes, bytes[0], size)
}
