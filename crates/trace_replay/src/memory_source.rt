//! A source over memory whose reads are short and may fail.
ghost use Rattle.std.specs.Prelude.{◌≡◌, ◌≤◌, ◌↔◌, Some, IfOk, OnOk, OnErr, IsErr, IsTrue, length};
ghost use Rattle.trace_replay.specs.Streams.{RoseByOne, Gives, IsEndAt};
ghost use Rattle.trace_replay.specs.FailingCalls.{counted, next_fails};
ghost use Rattle.trace_replay.specs.MemoryStreams.{next_given};

use crate::failing_calls::FailingCalls;
use crate::source::{Failed, Source, SteadySource};
use std::alloc::{AllocError, Global};
use std::marker::Model;

/// A source over memory that gives a piece for each read, and some of whose reads fail.
#[derive(Drop)]
pub struct MemorySource {
    bytes: SteadySource,
    piece: usize,
    calls: FailingCalls,
}

impl Model for MemorySource {
    ghost use Rattle.std.specs.Prelude.{◌≤◌};
    ghost use Rattle.trace_replay.specs.MemoryStreams.{Supply};

    ghost Value = { Supply };

    ghost view = { λ s. record { left = s.bytes; piece = s.piece; calls = s.calls } };

    ghost invariant = { λ s. 1 ≤ s.piece };
}

impl MemorySource {
    /// A source that gives a copy of these bytes, at most a piece for each read. The reads whose numbers, from 1, are
    /// listed will fail.
    pub fn new(
        alloc: Global,
        bytes: &[u8],
        piece: usize,
        failing: &[u32],
    ) -> Result<MemorySource, AllocError>
        requires { 1 ≤ piece }
        ensures { IfOk result (λ source. source ≡ record {
          left = bytes.now;
          piece = piece;
          calls = record { failing = failing.now; made = 0; faults = 0 };
        }) }
    {
        let bytes = SteadySource::new(alloc, bytes)?;
        let calls = FailingCalls::new(alloc, failing)?;
        Ok(MemorySource {
            bytes,
            piece,
            calls,
        })
    }
}

impl Source for MemorySource {
    ghost left = { λ s. Some s.left };

    ghost faults = { λ s. s.calls.faults };

    fn read(&mut self, into: &mut [u8]) -> Result<usize, Failed>
        ensures within { IfOk result (λ n. n ≤ length into.new) }
        ensures gives { Gives self.old.left (Some self.new.left) into.new result }
        ensures end { IsEndAt self.old.left into.new result }
        ensures never_falls { self.old.calls.faults ≤ self.new.calls.faults }
        ensures failed { OnErr result (RoseByOne self.old.calls.faults self.new.calls.faults) }
        ensures no_fault { OnOk result (self.new.calls.faults ≡ self.old.calls.faults) }
        ensures fails { IsErr result ↔ IsTrue (next_fails self.old.calls) }
        ensures calls { self.new.calls ≡ counted self.old.calls }
        ensures count { IfOk result (λ n. n ≡ next_given self.old (length into.old)) }
        ensures piece { self.new.piece ≡ self.old.piece }
    {
        self.calls.count()?;
        Ok(self.bytes.give(into, self.piece))
    }
}
