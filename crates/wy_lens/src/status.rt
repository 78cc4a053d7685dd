//! The statuses that the program ends with: those of `whyline`.
ghost use Rattle.std.specs.Prelude.{◌≡◌};

/// Why a call ended.
#[derive(Clone, Copy, Debug, PartialEq, Eq)]
pub enum Status {
    /// The source is a program, or what was asked was told.
    Done,
    /// The words ask nothing.
    Usage,
    /// There is no file of the name.
    Absent,
    /// The source is no program.
    Refused,
    /// The trace is cut or damaged, or its source is no program.
    Trace,
    /// The question isn't read, or names nothing.
    Question,
    /// The file could not be read, or the output not be written.
    Fault,
    /// The file has more bytes than a source, or a trace, may have.
    TooLong,
    NoMemory,
}

impl Status {
    ghost use Rattle.wy_lens.specs.Statuses.{code_of};

    /// The number that the process ends with.
    pub fn code(self) -> u8
        ensures { result ≡ code_of self }
    {
        match self {
            Status::Done => 0,
            Status::Usage => 2,
            Status::Absent => 3,
            Status::Refused => 4,
            Status::Trace => 5,
            Status::Question => 6,
            Status::Fault => 7,
            Status::TooLong => 8,
            Status::NoMemory => 9,
        }
    }
}
