//! The public calls, a trace with its report, and a generated trace.
ghost use Rattle.std.specs.Prelude.{◌<◌, ◌≤◌, ◌^◌};

use std::alloc::Global;
use std::io::Write;
use trace_replay::{Mode, Source, StreamSink, make, replay};

/// A trace of one area.
pub const TRACE: &[u8] = b"vmtrace 1\nspace 16\nvmalloc a 1 1\nend\n";

/// Its report.
pub const REPORT: &[u8] = b"vmreport 1
0.1 0xffffc90000000000 @3
tally calls 1 ok 1 no-space 0 no-frames 0 no-atomic 0 not-live 0 refused 0
events 3
frames 1023 mapped 1 stale 0
free 2..16
area 0..2 vmalloc caller 0 serial 1
end
";

/// The trace of one line that is generated from 0.
pub const GENERATED: &[u8] = b"vmtrace 1
space 65536
frames 8192
lazy 256
block 128 64
unit 8 1
group 4 0
callers 8
counters 4 32
caller 1
balance
order 5 6 3 8
end
";

/// The exit status of a replay from a source into a writer, and the writer.
pub fn replayed<S: Source, W: Write>(alloc: Global, source: &mut S, writer: W) -> (u8, W) {
    let mut sink = StreamSink::new(writer);
    let status = replay(alloc, Mode::Replay, source, &mut sink);
    (status.code(), sink.into_writer())
}

/// The exit status of a generated trace that goes into a writer, and the writer.
pub fn made<W: Write>(alloc: Global, start: u32, calls: u32, writer: W) -> (u8, W)
    requires start { start < 2 ^ 31 }
    requires calls { calls ≤ 100000 }
{
    let mut sink = StreamSink::new(writer);
    let status = make(alloc, start, calls, &mut sink);
    (status.code(), sink.into_writer())
}
