//! Frames with their locals. The locals of all frames lie behind one another.

ghost use Rattle.std.specs.Prelude.{◌≡◌, reverse, slice_get};
ghost use Rattle.wy_kernel.specs.View.{present};
ghost use Rattle.wy_calls.specs.Calls.{held, locals_of};
ghost use Rattle.wy_calls.specs.Layout.{framed, newest_of, IsPlaceOf};

use crate::parts::Live;
use wy_kernel::types::NONE;
use wy_value::Value;

/// The event of the newest frame, or NONE.
pub fn newest(frames: &[Live]) -> u32
    ensures { present result ≡ newest_of (reverse frames.now) }
{
    match frames.last() {
        Some(live) => live.event,
        None => NONE,
    }
}

/// The event of the newest frame, where there is one.
pub fn running(frames: &[Live]) -> Option<u32>
    ensures { result ≡ newest_of (reverse frames.now) }
{
    let live = frames.last()?;
    Some(live.event)
}

/// Where a local of the newest frame lies.
pub fn place(frames: &[Live], locals: &[Value], index: u32) -> Option<usize>
    ensures { IsPlaceOf result (reverse frames.now) locals.now index }
{
    let live = frames.last()?;
    let at = live.base.checked_add(index as usize)?;
    if at < locals.len() { Some(at) } else { None }
}

/// The value of a local of the newest frame, where it has that local.
pub fn local(frames: &[Live], locals: &[Value], index: u32) -> Option<Value>
    ensures { result ≡ slice_get (locals_of (framed (reverse frames.now) locals.now)) index }
{
    let at = place(frames, locals, index)?;
    Some(locals[at])
}

/// The value of a local of a live frame.
pub fn find(frames: &[Live], locals: &[Value], frame: u32, index: u32) -> Option<Value>
    ensures { result ≡ held (framed (reverse frames.now) locals.now) frame index }
{
    let mut frames = frames;
    let mut locals = locals;
    while let Some((live, before)) = frames.split_last() {
        if live.event == frame {
            return local(frames, locals, index);
        }
        frames = before;
        locals = &locals[..live.base.min(locals.len())];
    }
    None
}
