//! The statuses that a call of the program ends with.
ghost use Rattle.std.specs.Prelude.{◌≡◌};

/// Why a call ended.
#[derive(Clone, Copy, Debug, PartialEq, Eq)]
pub enum Status {
    /// The command did what it says.
    Done,
    /// The words are no command.
    Usage,
    /// There is no file of the name.
    Absent,
    /// The source has no tokens or no tree, or breaks a rule.
    Program,
    /// The trace is cut or damaged, or its source is no program.
    Trace,
    /// The question isn't read, or asks about what isn't there.
    Question,
    /// A file could not be read or written, or the output not be written.
    Fault,
    /// A file has more bytes than the limit.
    TooLong,
    NoMemory,
    /// The trace isn't that of the run of its head.
    Audit,
    /// The certificate isn't read, or isn't good for the trace.
    Certificate,
}

impl Status {
    ghost use Rattle.wy_reply.specs.Statuses.{code_of};

    /// The number that the process ends with.
    pub fn code(self) -> u8
        ensures { result ≡ code_of self }
    {
        match self {
            Status::Done => 0,
            Status::Usage => 2,
            Status::Absent => 3,
            Status::Program => 4,
            Status::Trace => 5,
            Status::Question => 6,
            Status::Fault => 7,
            Status::TooLong => 8,
            Status::NoMemory => 9,
            Status::Audit => 10,
            Status::Certificate => 11,
        }
    }
}
