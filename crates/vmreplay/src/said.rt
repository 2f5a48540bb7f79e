//! What is said to a person, on standard error, where a command doesn't end well.

use fault_reasons::reason;
use std::alloc::{AllocError, Global};
use trace_replay::Status;

/// The forms of the commands.
const FORMS: &str =
    "vmreplay replay              reads a trace from standard input, and writes its report
vmreplay audit               the same, with the numbers that are kept beside those of a plain scan
vmreplay live                runs the callers of a trace on threads of their own, and writes their order and its report
vmreplay make START CALLS    writes a generated trace; START is 0 to 2147483647, CALLS is 0 to 100000
";

/// A text of these words.
fn text(alloc: Global, words: &str) -> Result<Vec<u8>, AllocError> {
    Vec::from_slice(alloc, words.as_bytes())
}

/// What is said beside a status; no byte where that is nothing. The bytes are those that were read, if they were kept.
pub fn said(alloc: Global, status: Status, kept: Option<&[u8]>) -> Result<Vec<u8>, AllocError> {
    match status {
        Status::Done => Ok(Vec::new(alloc)),
        Status::BadTrace { line } => match kept {
            Some(bytes) => reason(alloc, bytes, line),
            None => Ok(Vec::new(alloc)),
        },
        Status::BadLayout(error) => {
            let words = format!(in alloc; "the layout can't be: {error}\n")?;
            text(alloc, words.as_str())
        }
        Status::Usage => text(alloc, FORMS),
        Status::OutOfMemory => text(alloc, "out of memory\n"),
        Status::ReadFault => text(alloc, "a read of standard input failed\n"),
        Status::WriteFault => text(alloc, "a write to standard output failed\n"),
        Status::TooLong => text(alloc, "the trace has more than 16777216 bytes\n"),
    }
}
