//! A trace of two areas in pieces of eight bytes, each of whose reads and each of whose writes fails in turn.

use crate::failing::{Faulty, fails_at};
use crate::replayed::replayed;
use std::alloc::AllocError;
use trace_replay::{MemorySource, StreamSource};

const TRACE: &[u8] = b"vmtrace 1\nspace 16\nvmalloc a 1 1\nvmalloc b 4097 1\nend\n";

const REPORT: &[u8] = b"vmreport 1
0.1 0xffffc90000000000 @3
0.2 0xffffc90000002000 @6
tally calls 2 ok 2 no-space 0 no-frames 0 no-atomic 0 not-live 0 refused 0
events 6
frames 1021 mapped 3 stale 0
free 5..16
area 0..2 vmalloc caller 0 serial 1
area 2..5 vmalloc caller 0 serial 2
end
";

const PIECE: usize = 8;

/// Seven reads take the trace, and the eighth finds its end.
const READS: u32 = 8;

/// The writes that take the report.
const WRITES: u32 = 33;

#[test]
fn each_read_fails(rt: HostRuntime) -> Result<(), AllocError> {
    for failing in 1..=READS + 1 {
        let mut source = MemorySource::new(rt.alloc(), TRACE, PIECE, &[failing])?;
        let (status, written) = replayed(rt.alloc(), &mut source, Vec::new(rt.alloc()));
        let (wanted, text) = if failing <= READS {
            (4, b"".as_slice())
        } else {
            (0, REPORT)
        };
        assert!(rt;
            status == wanted && written.as_slice() == text,
            "at {failing}"
        );
    }
    Ok(())
}

#[test]
fn each_write_fails(rt: HostRuntime) {
    for failing in 1..=WRITES + 1 {
        let writer = Faulty::new(Vec::new(rt.alloc()), PIECE, fails_at(failing));
        let (status, writer) = replayed(rt.alloc(), &mut StreamSource::new(TRACE), writer);
        let taken = writer.inner.as_slice();
        let wanted = if failing <= WRITES { 5 } else { 0 };
        let before = PIECE.saturating_mul(failing as usize - 1);
        assert!(rt;
            status == wanted && taken.len() == before.min(REPORT.len()),
            "at {failing}"
        );
        assert!(rt; REPORT.starts_with(taken), "at {failing}");
    }
}
