//! A sink over memory whose writes are short and may fail.
ghost use Rattle.std.specs.Prelude.{◌≡◌, ◌≤◌, ◌<◌, ◌↔◌, [], Some, IfOk, OnOk, OnErr, IsErr, IsTrue, length};
ghost use Rattle.trace_replay.specs.Streams.{RoseByOne, Takes, Fills};
ghost use Rattle.trace_replay.specs.FailingCalls.{counted, next_fails};
ghost use Rattle.trace_replay.specs.MemoryStreams.{next_taken};

use crate::failing_calls::FailingCalls;
use crate::sink::{Sink, SteadySink};
use crate::source::Failed;
use std::alloc::{AllocError, Global};
use std::marker::Model;

/// A sink over memory that takes a piece for each write, and some of whose writes fail. It takes what fits in the room
/// that `reserve` made.
#[derive(Drop)]
pub struct MemorySink {
    bytes: SteadySink,
    piece: usize,
    calls: FailingCalls,
}

impl Model for MemorySink {
    ghost use Rattle.std.specs.Prelude.{◌≤◌};
    ghost use Rattle.trace_replay.specs.MemoryStreams.{Intake};

    ghost Value = { Intake };

    ghost view = { λ s. record {
      taken = s.bytes.taken;
      room = s.bytes.room;
      piece = s.piece;
      calls = s.calls;
    } };

    ghost invariant = { λ s. 1 ≤ s.piece };
}

impl MemorySink {
    /// A sink without room, which takes at most a piece for each write. The writes whose numbers, from 1, are listed
    /// will fail.
    pub fn new(alloc: Global, piece: usize, failing: &[u32]) -> Result<MemorySink, AllocError>
        requires { 1 ≤ piece }
        ensures { IfOk result (λ sink. sink ≡ record {
          taken = [];
          room = 0;
          piece = piece;
          calls = record { failing = failing.now; made = 0; faults = 0 };
        }) }
    {
        let calls = FailingCalls::new(alloc, failing)?;
        Ok(MemorySink {
            bytes: SteadySink::new(alloc),
            piece,
            calls,
        })
    }

    /// Makes room for so many bytes more.
    pub fn reserve(&mut self, bytes: usize) -> Result<(), AllocError>
        ensures ok { OnOk result (bytes ≤ self.new.room) }
        ensures kept { self.old.room ≤ self.new.room }
        ensures err { OnErr result (self.new ≡ self.old) }
        ensures same { self.new ≡ record self.old { room = self.new.room } }
    {
        self.bytes.reserve(bytes)
    }

    /// What it has taken.
    pub fn as_slice(&self) -> &[u8]
        ensures { result.now ≡ self.now.taken }
    {
        self.bytes.as_slice()
    }
}

impl Sink for MemorySink {
    ghost taken = { λ s. Some s.taken };

    ghost room = { λ s. Some s.room };

    ghost faults = { λ s. s.calls.faults };

    fn write(&mut self, piece: &[u8]) -> Result<usize, Failed>
        ensures within { IfOk result (λ n. n ≤ length piece.now) }
        ensures some { 0 < length piece.now → 0 < self.old.room → IfOk result (λ n. 0 < n) }
        ensures takes { Takes self.old.taken (Some self.new.taken) piece.now result }
        ensures fills { Fills self.old.room (Some self.new.room) result }
        ensures never_falls { self.old.calls.faults ≤ self.new.calls.faults }
        ensures failed { OnErr result (RoseByOne self.old.calls.faults self.new.calls.faults) }
        ensures no_fault { OnOk result (self.new.calls.faults ≡ self.old.calls.faults) }
        ensures fails { IsErr result ↔ IsTrue (next_fails self.old.calls) }
        ensures calls { self.new.calls ≡ counted self.old.calls }
        ensures count { IfOk result (λ n. n ≡ next_taken self.old (length piece.now)) }
        ensures piece { self.new.piece ≡ self.old.piece }
    {
        self.calls.count()?;
        let most = piece.len().min(self.piece);
        Ok(self.bytes.take(&piece[..most]))
    }
}
