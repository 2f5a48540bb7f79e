//! Readers and writers of std some of whose calls fail, are interrupted, or move nothing.
ghost use Rattle.std.specs.Prelude.{◌≤◌, IfOk};

use crate::replayed::{GENERATED, REPORT, TRACE, made, replayed};
use std::alloc::Global;
use std::io::{self, ErrorKind, Read, Write};
use trace_replay::StreamSource;

/// What calls do in place of moving bytes.
#[derive(Clone, Copy)]
pub enum Fault {
    /// They fail.
    Error(ErrorKind),
    /// They move nothing.
    Nothing,
}

/// The calls from the first to the last, which are counted from 1, have a fault.
#[derive(Clone, Copy)]
pub struct Faults {
    first: u32,
    last: u32,
    fault: Fault,
}

/// One call with an error.
pub fn fails_at(call: u32) -> Faults {
    times(Fault::Error(ErrorKind::Other), call, 1)
}

/// So many calls in a row, from this one, with a fault.
fn times(fault: Fault, first: u32, count: u32) -> Faults {
    let last = first.saturating_add(count).saturating_sub(1);
    Faults { first, last, fault }
}

/// A reader or a writer that moves at most a piece a call.
#[derive(Drop)]
pub struct Faulty<T> {
    pub inner: T,
    piece: usize,
    calls: u32,
    faults: Faults,
}

impl<T> Faulty<T> {
    /// A stream of which each call moves at most a piece, and some calls fail.
    pub fn new(inner: T, piece: usize, faults: Faults) -> Faulty<T> {
        Faulty {
            inner,
            piece,
            calls: 0,
            faults,
        }
    }

    /// How many of so many bytes the next call moves.
    fn moves(&mut self, bytes: usize) -> io::Result<usize>
        ensures { IfOk result (λ most. most ≤ bytes) }
    {
        self.calls = self.calls.saturating_add(1);
        if self.calls < self.faults.first || self.faults.last < self.calls {
            return Ok(bytes.min(self.piece));
        }
        match self.faults.fault {
            Fault::Error(kind) => Err(io::Error::new(kind, "as told")),
            Fault::Nothing => Ok(0),
        }
    }
}

impl<R: Read> Read for Faulty<R> {
    fn read(&mut self, buf: &mut [u8]) -> io::Result<usize> {
        let most = self.moves(buf.len())?;
        self.inner.read(&mut buf[..most])
    }
}

impl<W: Write> Write for Faulty<W> {
    fn write(&mut self, buf: &[u8]) -> io::Result<usize> {
        let most = self.moves(buf.len())?;
        if most == 0 {
            return Ok(0);
        }
        self.inner.write(&buf[..most])
    }

    fn flush(&mut self) -> io::Result<()> {
        self.inner.flush()
    }
}

/// The exit status where reads have faults, and what is written then.
fn failing_read(alloc: Global, piece: usize, faults: Faults) -> (u8, Vec<u8>) {
    let reader = Faulty::new(TRACE, piece, faults);
    replayed(alloc, &mut StreamSource::new(reader), Vec::new(alloc))
}

/// The exit status where writes have faults, and what is written then.
fn failing_write(alloc: Global, piece: usize, faults: Faults) -> (u8, Vec<u8>) {
    let writer = Faulty::new(Vec::new(alloc), piece, faults);
    let (status, writer) = replayed(alloc, &mut StreamSource::new(TRACE), writer);
    (status, writer.inner)
}

/// The exit status of a generated trace where writes have faults, and what is written then.
fn failing_make(alloc: Global, piece: usize, faults: Faults) -> (u8, Vec<u8>) {
    let (status, writer) = made(alloc, 0, 1, Faulty::new(Vec::new(alloc), piece, faults));
    (status, writer.inner)
}

/// The pieces, with the reads of the trace, one of which is its end, and the writes of its report that they take.
const PIECES: [(usize, u32, u32); 3] = [(1, 38, 201), (7, 7, 29), (4096, 2, 1)];

#[test]
fn each_read_fails_in_turn(rt: HostRuntime) {
    for (piece, reads, _) in PIECES {
        for failing in 1..=reads {
            let (status, written) = failing_read(rt.alloc(), piece, fails_at(failing));
            assert!(rt; status == 4 && written.is_empty(), "at {piece}, {failing}");
        }
        let (status, written) = failing_read(rt.alloc(), piece, fails_at(reads + 1));
        assert!(rt; status == 0 && written.as_slice() == REPORT, "at {piece}");
    }
}

#[test]
fn each_write_fails_in_turn(rt: HostRuntime) {
    for (piece, _, writes) in PIECES {
        for failing in 1..=writes {
            let (status, taken) = failing_write(rt.alloc(), piece, fails_at(failing));
            let before = piece.saturating_mul(failing as usize - 1);
            assert!(rt;
                status == 5 && taken.len() == before,
                "at {piece}, {failing}"
            );
            assert!(rt;
                REPORT.starts_with(taken.as_slice()),
                "at {piece}, {failing}"
            );
        }
        let (status, taken) = failing_write(rt.alloc(), piece, fails_at(writes + 1));
        assert!(rt; status == 0 && taken.as_slice() == REPORT, "at {piece}");
    }
}

#[test]
fn each_write_of_a_generated_trace_fails_in_turn(rt: HostRuntime) {
    for (piece, writes) in [(1, 134), (7, 20), (4096, 1)] {
        for failing in 1..=writes {
            let (status, taken) = failing_make(rt.alloc(), piece, fails_at(failing));
            let before = piece.saturating_mul(failing as usize - 1);
            assert!(rt;
                status == 5 && taken.len() == before && GENERATED.starts_with(taken.as_slice()),
                "at {piece}, {failing}"
            );
        }
        let (status, taken) = failing_make(rt.alloc(), piece, fails_at(writes + 1));
        assert!(rt; status == 0 && taken.as_slice() == GENERATED, "at {piece}");
    }
}

#[test]
fn interrupted_calls_are_made_again(rt: HostRuntime) {
    for count in [1, 2, 1_000] {
        let interrupted = times(Fault::Error(ErrorKind::Interrupted), 2, count);
        let (read, told) = failing_read(rt.alloc(), 10, interrupted);
        assert!(rt; read == 0 && told.as_slice() == REPORT, "{count} reads");
        let (wrote, taken) = failing_write(rt.alloc(), 10, interrupted);
        assert!(rt; wrote == 0 && taken.as_slice() == REPORT, "{count} writes");
    }
}

#[test]
fn a_write_that_takes_nothing_fails(rt: HostRuntime) {
    for (failing, before) in [(1, 0), (2, 10), (3, 20)] {
        let (status, taken) = failing_write(rt.alloc(), 10, times(Fault::Nothing, failing, 1));
        assert!(rt; status == 5 && taken.len() == before, "at {failing}");
    }
}
