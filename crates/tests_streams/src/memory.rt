//! Sources and sinks over memory, which tell their bytes and their room.

use crate::replayed::replayed;
use std::test::Fail;
use trace_replay::{MemorySink, MemorySource, Mode, Sink, SteadySink, SteadySource, replay};

/// The report of a space of 16 pages without a call.
const FREE: &[u8] = b"vmreport 1
tally calls 0 ok 0 no-space 0 no-frames 0 no-atomic 0 not-live 0 refused 0
events 0
frames 1024 mapped 0 stale 0
free 0..16
end
";

#[test]
fn at_once(rt: HostRuntime) -> Result<(), Fail> {
    let mut source = SteadySource::new(rt.alloc(), b"vmtrace 1\nspace 16\nend\n")?;
    let mut sink = SteadySink::new(rt.alloc());
    sink.reserve(400)?;
    let status = replay(rt.alloc(), Mode::Replay, &mut source, &mut sink);
    assert!(rt; status.code() == 0 && sink.as_slice() == FREE);
    Ok(())
}

#[test]
fn a_failing_write(rt: HostRuntime) -> Result<(), Fail> {
    let mut source = SteadySource::new(rt.alloc(), b"vmtrace 1\nspace 16\nend\n")?;
    let mut sink = MemorySink::new(rt.alloc(), 10, &[2])?;
    sink.reserve(400)?;
    let status = replay(rt.alloc(), Mode::Replay, &mut source, &mut sink);
    assert!(rt; status.code() == 5 && sink.as_slice() == b"vmreport 1".as_slice());
    Ok(())
}

#[test]
fn a_failing_read(rt: HostRuntime) -> Result<(), Fail> {
    for (failing, status, text) in [(3, 4, b"".as_slice()), (7, 4, b"".as_slice()), (8, 0, FREE)] {
        let trace = b"vmtrace 1\nspace 16\nend\n";
        let mut source = MemorySource::new(rt.alloc(), trace, 4, &[failing])?;
        let (ended, written) = replayed(rt.alloc(), &mut source, Vec::new(rt.alloc()));
        assert!(rt;
            ended == status && written.as_slice() == text,
            "at {failing}"
        );
    }
    Ok(())
}

#[test]
fn a_sink_takes_what_fits(rt: HostRuntime) -> Result<(), Fail> {
    let mut sink = MemorySink::new(rt.alloc(), 3, &[2])?;
    sink.reserve(5)?;
    for (piece, taken) in [
        ("abcd", Some(3)),
        ("defg", None),
        ("defg", Some(2)),
        ("fg", Some(0)),
    ] {
        assert!(rt; sink.write(piece.as_bytes()).ok() == taken, "at {piece}");
    }
    assert!(rt; sink.as_slice() == b"abcde".as_slice());
    Ok(())
}
