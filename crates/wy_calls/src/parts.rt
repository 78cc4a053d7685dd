//! What stands of the calls of a run, part by part.

ghost use Rattle.std.specs.Prelude.{◌<◌};

/// A body that runs: the event that called it, and where its locals begin.
#[derive(Clone, Copy)]
pub struct Live {
    pub event: u32,
    pub base: usize,
    pub ghost is_number: { event < 4294967295 },
}

/// An active entry ends with the scope that it stands in, or before that with a statement of a frame.
#[derive(Clone, Copy)]
pub enum Reach {
    Around,
    Through { frame: u32, statement: u32 },
}

/// An event that is active.
#[derive(Clone, Copy)]
pub struct Entry {
    pub number: u32,
    pub reach: Reach,
    pub ghost is_number: { number < 4294967295 },
}

/// A statement of a frame that has begun and hasn't ended. The entries that were there when it began are of events below its mark.
#[derive(Clone, Copy)]
pub struct Begun {
    pub frame: u32,
    pub statement: u32,
    pub mark: u32,
}
