//! How a command ends.
ghost use Rattle.std.specs.Prelude.{◌≡◌};
ghost use Rattle.trace_replay.specs.Status.{code_of};

use unit_layout::LayoutError;

/// How a command ends. What is written beside each is said at `run`.
#[derive(Clone, Copy)]
pub enum Status {
    /// The source was read to its end, and the whole report was taken.
    Done,
    /// The source was read to its end, and this is the first line that cannot stand.
    BadTrace { line: u32 },
    /// The source was read to its end and is a trace, and this is why the layout that its header asks for is refused.
    BadLayout(LayoutError),
    /// The words name no command.
    Usage,
    /// Memory was wanting. Nothing was written.
    OutOfMemory,
    /// A read failed. Nothing was written.
    ReadFault,
    /// A write failed after some of the text, or none, was taken.
    WriteFault,
    /// The source gave more than 16,777,216 bytes.
    TooLong,
}

impl Status {
    /// The exit status of the program.
    pub fn code(&self) -> u8
        ensures { result ≡ code_of self.now }
    {
        match self {
            Status::Done => 0,
            Status::BadTrace { .. } | Status::BadLayout(_) => 1,
            Status::Usage => 2,
            Status::OutOfMemory => 3,
            Status::ReadFault => 4,
            Status::WriteFault => 5,
            Status::TooLong => 6,
        }
    }
}
