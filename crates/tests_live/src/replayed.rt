//! What a live run writes, and what a replay of its order writes.
ghost use Rattle.std.specs.Prelude.{◌<◌, ◌≤◌, ◌^◌};

use bstr::ByteSlice;
use section_table::{Gate, Open};
use std::alloc::{AllocError, Global};
use std::process::Abort;
use std::sync::Wait;
use std::thread::Threads;
use trace_replay::{Mode, StreamSink, StreamSource, live, make, replay};

/// The exit status of a live run of a trace, and what it writes.
pub fn lived<G: Gate + Sync, R: Threads + Wait + Sync>(
    rt: &R,
    alloc: Global,
    trace: &[u8],
    gate: &G,
) -> (u8, Vec<u8>) {
    let mut sink = StreamSink::new(Vec::new(alloc));
    let status = live(rt, alloc, &mut StreamSource::new(trace), &mut sink, gate);
    (status.code(), sink.into_writer())
}

/// What a replay of a trace writes.
fn replayed(alloc: Global, trace: &[u8]) -> Vec<u8> {
    let mut sink = StreamSink::new(Vec::new(alloc));
    let _ = replay(
        alloc,
        Mode::Replay,
        &mut StreamSource::new(trace),
        &mut sink,
    );
    sink.into_writer()
}

/// A trace with the order of this schedule line in place of its own.
fn with_order(alloc: Global, trace: &[u8], schedule: &[u8]) -> Result<Vec<u8>, AllocError> {
    let mut text = Vec::new(alloc);
    for line in trace.lines() {
        if !line.starts_with(b"order ") && line != b"end".as_slice() {
            text.extend_from_slice(line)?;
            text.push(b'\n')?;
        }
    }
    for pick in schedule.fields().skip(1) {
        text.extend_from_slice(b"order ")?;
        text.extend_from_slice(pick)?;
        text.push(b'\n')?;
    }
    text.extend_from_slice(b"end\n")?;
    Ok(text)
}

/// Whether what a live run of a trace writes behind its first line is what a replay of its order writes.
pub fn is_replayed(alloc: Global, trace: &[u8], written: &[u8]) -> Result<bool, AllocError> {
    let Some((schedule, report)) = written.split_once_str(b"\n".as_slice()) else {
        return Ok(false);
    };
    let again = with_order(alloc, trace, schedule)?;
    Ok(replayed(alloc, again.as_slice()).as_slice() == report)
}

/// A generated trace.
fn made(alloc: Global, start: u32, calls: u32) -> Vec<u8>
    requires start { start < 2 ^ 31 }
    requires calls { calls ≤ 100000 }
{
    let mut sink = StreamSink::new(Vec::new(alloc));
    let _ = make(alloc, start, calls, &mut sink);
    sink.into_writer()
}

/// Two callers, one of which counts.
pub const TWO: &[u8] = b"vmtrace 1
space 64
block 8 4
callers 2
counters 1 32
caller 1
map_ram a 0 1
caller 2
vmalloc b 4096 1
count 0 0 5
end
";

#[test]
fn two_callers_are_replayed(rt: HostRuntime) -> Result<(), AllocError> {
    let (status, written) = lived(&rt, rt.alloc(), TWO, &Open);
    let text = written.as_slice();
    assert!(rt; status == 0, "status {status}");
    let schedule = text.lines().next().unwrap_or(b"");
    let first = schedule
        .fields()
        .filter(|pick| *pick == b"1".as_slice())
        .count();
    let second = schedule
        .fields()
        .filter(|pick| *pick == b"2".as_slice())
        .count();
    assert!(rt; first == 6 && second == 3, "{first} and {second}");
    assert!(rt; text.ends_with(b"counter 0 total 5\nend\n"), "the total");
    assert!(rt; is_replayed(rt.alloc(), TWO, text)?, "replayed otherwise");
    Ok(())
}

#[test]
fn generated_traces_are_replayed(rt: HostRuntime) -> Result<(), AllocError> {
    for start in 0..10 {
        let trace = made(rt.alloc(), start, 60);
        let (status, written) = lived(&rt, rt.alloc(), trace.as_slice(), &Open);
        assert!(rt; status == 0, "status {status} from {start}");
        assert!(rt;
            is_replayed(rt.alloc(), trace.as_slice(), written.as_slice())?,
            "from {start}"
        );
    }
    Ok(())
}

/// How many callers of a trace have count lines.
fn counting_callers(trace: &[u8]) -> usize {
    trace
        .split_str(b"\ncaller ".as_slice())
        .skip(1)
        .filter(|section| section.contains_str(b"\ncount ".as_slice()))
        .count()
}

#[test]
fn count_lines_of_all_callers_are_replayed(rt: HostRuntime) -> Result<(), AllocError> {
    let trace = made(rt.alloc(), 21, 1_000);
    let callers = counting_callers(trace.as_slice());
    assert!(rt; callers == 8, "{callers} callers count");
    let (status, written) = lived(&rt, rt.alloc(), trace.as_slice(), &Open);
    assert!(rt; status == 0, "status {status}");
    assert!(rt;
        is_replayed(rt.alloc(), trace.as_slice(), written.as_slice())?,
        "replayed otherwise"
    );
    Ok(())
}
