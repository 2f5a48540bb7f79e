//! `vmreplay`: replays a trace of allocator calls from standard input, or runs its callers on threads of their own, and
//! writes its report to standard output, or writes a generated trace there. Where it doesn't end well, what a person needs is written to standard error.
#![tactic(auto)]

mod keeping_source;
mod said;

use keeping_source::KeepingSource;
use said::said;
use section_table::Open;
use std::env::{self, Env};
use std::io::{self, ErrorKind, Write};
use std::process::ExitCode;
use trace_replay::{Status, StreamSink, StreamSource, run};

/// The arguments after the program's name.
fn words<R: Env + AllocGlobal>(rt: &R) -> io::Result<Vec<String>> {
    let mut words = Vec::new(rt.alloc());
    for word in env::args(rt)?.skip(1) {
        words.push(word)?;
    }
    Ok(words)
}

fn main(rt: HostRuntime) -> ExitCode {
    let mut sink = StreamSink::new(io::writer(&rt));
    let mut source = KeepingSource::new(rt.alloc(), StreamSource::new(rt.reader()));
    let words = match words(&rt) {
        Ok(words) => words,
        Err(error) if error.kind() == ErrorKind::OutOfMemory => {
            return ExitCode::from(Status::OutOfMemory.code());
        }
        Err(_) => Vec::new(rt.alloc()),
    };
    let status = run(
        &rt,
        rt.alloc(),
        words.as_slice(),
        &mut source,
        &mut sink,
        &Open,
    );
    if let Ok(said) = said(rt.alloc(), status, source.kept()) {
        let _ = rt.stderr().write_all(said.as_slice());
    }
    ExitCode::from(status.code())
}
