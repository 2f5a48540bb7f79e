//! The most bytes and the most calls that a text may have, and long traces.

use crate::replayed::{made, replayed};
use std::alloc::{AllocError, Global};
use std::io::{self, Read};
use trace_replay::StreamSource;

/// The bytes are no trace, which is told of as many bytes as a trace may have.
#[test]
fn one_byte_more_is_too_long(rt: HostRuntime) {
    for (bytes, status, told) in [
        (16_777_216, 1, b"fault line 1\n".as_slice()),
        (16_777_217, 6, b"fault length\n".as_slice()),
        (u64::MAX, 6, b"fault length\n".as_slice()),
    ] {
        let mut source = StreamSource::new(io::repeat(b'a').take(bytes));
        let (ended, written) = replayed(rt.alloc(), &mut source, Vec::new(rt.alloc()));
        assert!(rt;
            ended == status && written.as_slice() == told,
            "of {bytes} bytes"
        );
    }
}

/// A trace of 16 pages with a line so many times.
fn repeated(alloc: Global, line: &[u8], times: u32) -> Result<Vec<u8>, AllocError> {
    let mut text = Vec::new(alloc);
    text.extend_from_slice(b"vmtrace 1\nspace 16\n")?;
    for _ in 0..times {
        text.extend_from_slice(line)?;
    }
    text.extend_from_slice(b"end\n")?;
    Ok(text)
}

#[test]
fn one_call_more_is_a_bad_line(rt: HostRuntime) -> Result<(), AllocError> {
    let text = repeated(rt.alloc(), b"unmap_aliases\n", 100_001)?;
    let mut source = StreamSource::new(text.as_slice());
    let (ended, written) = replayed(rt.alloc(), &mut source, Vec::new(rt.alloc()));
    assert!(rt; ended == 1 && written.as_slice() == b"fault line 100003\n".as_slice());
    Ok(())
}

/// There is memory for traces of many lines, and of the most calls that a trace may have.
#[test]
fn long_traces_are_done(rt: HostRuntime) -> Result<(), AllocError> {
    for (line, times, told) in [
        (b"order 1\n".as_slice(), 200_000, "\nevents 0\n"),
        (b"unmap_aliases\n".as_slice(), 100_000, "\nevents 500000\n"),
    ] {
        let text = repeated(rt.alloc(), line, times)?;
        let mut source = StreamSource::new(text.as_slice());
        let (ended, written) = replayed(rt.alloc(), &mut source, Vec::new(rt.alloc()));
        let tells = written
            .as_slice()
            .windows(told.len())
            .any(|part| part == told.as_bytes());
        assert!(rt; ended == 0 && tells, "of {times} lines");
    }
    Ok(())
}

/// The trace of the most bytes: 2,097,149 lines of picks.
#[test]
fn a_trace_of_the_most_bytes(rt: HostRuntime) -> Result<(), AllocError> {
    for (first, status, told) in [
        (b"order 1 1\n".as_slice(), 0, b"vmreport 1\n".as_slice()),
        (b"order 1 1 1\n".as_slice(), 6, b"fault length\n".as_slice()),
    ] {
        let mut text = Vec::new(rt.alloc());
        text.extend_from_slice(b"vmtrace 1\nspace 4\n")?;
        text.extend_from_slice(first)?;
        for _ in 0..2_097_148 {
            text.extend_from_slice(b"order 1\n")?;
        }
        text.extend_from_slice(b"end\n")?;
        let mut source = StreamSource::new(text.as_slice());
        let (ended, written) = replayed(rt.alloc(), &mut source, Vec::new(rt.alloc()));
        assert!(rt;
            ended == status && written.as_slice().starts_with(told),
            "with status {status}"
        );
    }
    Ok(())
}

/// What the report of the longest trace that is generated from 7 has behind its replies, and at its end.
const SUMMARY: &[u8] = b"
tally calls 93598 ok 93598 no-space 0 no-frames 0 no-atomic 0 not-live 0 refused 0
events 288519
frames 2163 mapped 6029 stale 511
";

const TOTALS: &[u8] = b"
counter 0 total 327
counter 1 total 1466
counter 2 total 857
counter 3 total -531
end
";

/// The longest generated trace comes out alike again, and so does its report: there is memory for the sections of eight
/// callers, and for 400,000 picks.
#[test]
fn a_generated_trace_is_replayed(rt: HostRuntime) {
    let (ended, trace) = made(rt.alloc(), 7, 100_000, Vec::new(rt.alloc()));
    let (_, again) = made(rt.alloc(), 7, 100_000, Vec::new(rt.alloc()));
    assert!(rt; ended == 0 && trace.len() == 2_795_959 && trace.as_slice() == again.as_slice());
    let mut source = StreamSource::new(trace.as_slice());
    let (ended, report) = replayed(rt.alloc(), &mut source, Vec::new(rt.alloc()));
    let mut source = StreamSource::new(again.as_slice());
    let (_, retold) = replayed(rt.alloc(), &mut source, Vec::new(rt.alloc()));
    assert!(rt; ended == 0 && report.len() == 2_527_845 && report.as_slice() == retold.as_slice());
    let summed = report
        .as_slice()
        .windows(SUMMARY.len())
        .any(|part| part == SUMMARY);
    assert!(rt; summed && report.as_slice().ends_with(TOTALS));
}
