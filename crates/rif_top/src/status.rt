ghost use Rattle.std.specs.Prelude.{◌≡◌};
ghost use Rattle.rif_top.specs.Statuses.{status_code};

/// How a run ends.
///
/// Source: our own (docs/FORMATS.md, "Statuses").
#[derive(Clone, Copy, Debug, PartialEq, Eq)]
pub enum Status {
    /// The command's text was written.
    Done,
    /// The input has a refusal, and its line was written.
    Refused,
    /// The words are none that the program takes; nothing was read or written.
    Usage,
    /// A read failed; nothing was written.
    ReadFault,
    /// A write failed; a front of the text was written.
    WriteFault,
    /// No memory was found; nothing was written.
    OutOfMemory,
}

impl Status {
    /// The process's exit status.
    pub fn code(self) -> u8
        ensures { result ≡ status_code self }
    {
        match self {
            Status::Done => 0,
            Status::Refused => 1,
            Status::Usage => 2,
            Status::ReadFault => 3,
            Status::WriteFault => 4,
            Status::OutOfMemory => 5,
        }
    }
}
