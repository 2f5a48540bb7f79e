//! Where the text of an answer goes.
ghost use Rattle.std.specs.Prelude.{◌≡◌, ◌<◌, ◌≤◌, ◌-◌, ℕ, List, Option, Some, None, length, vec_len, vec_capacity, min, take, IfOk, OnOk, OnErr, IfSome, IsNone, [], ◌++◌};
ghost use Rattle.std.specs.Option.{ForSome};
ghost use Rattle.std.specs.Io.KnownBytes.{Appends, Keeps};
ghost use Rattle.trace_replay.specs.Streams.{RoseByOne, Takes, Fills};
ghost use Rattle.trace_replay.specs.HeldBytes.{Held};

use crate::source::Failed;
use std::alloc::{AllocError, Global};
use std::io::{ErrorKind, Write};
use std::marker::Model;

/// A writer that counts its faults.
pub trait Sink {
    // the bytes that it has taken, where that is told
    ghost taken: { Self → Option (List ℕ) };

    // how many more it can take, where that is told
    ghost room: { Self → Option ℕ };

    // how many writes have failed
    ghost faults: { Self → ℕ };

    /// Takes some bytes from the front of the piece.
    fn write(&mut self, piece: &[u8]) -> Result<usize, Failed>
        requires { ForSome (room self.old) (λ left. 0 < left) }
        ensures within { IfOk result (λ n. n ≤ length piece.now) }
        ensures some { 0 < length piece.now → IfOk result (λ n. 0 < n) }
        ensures takes { (bytes : List ℕ) → taken self.old ≡ Some bytes
            → Takes bytes (taken self.new) piece.now result }
        ensures fills { (left : ℕ) → room self.old ≡ Some left → Fills left (room self.new) result }
        ensures no_room { room self.old ≡ None → room self.new ≡ None }
        ensures never_falls { faults self.old ≤ faults self.new }
        ensures failed { OnErr result (RoseByOne (faults self.old) (faults self.new)) }
        ensures no_fault { OnOk result (faults self.new ≡ faults self.old) };
}

/// A sink over memory, none of whose writes fails. It takes what fits in the room that `reserve` made.
#[derive(Drop)]
pub struct SteadySink {
    bytes: Vec<u8>,
    room: usize,
}

impl Model for SteadySink {
    ghost use Rattle.std.specs.Prelude.{◌+◌, ◌≤◌, vec_len, vec_capacity};
    ghost use Rattle.trace_replay.specs.HeldBytes.{Held};

    ghost Value = { Held };

    ghost view = { λ s. record { taken = s.bytes.items; room = s.room } };

    ghost invariant = { λ s. vec_len s.bytes + s.room ≤ vec_capacity s.bytes };
}

impl SteadySink {
    /// A sink without room. It takes no memory.
    pub fn new(alloc: Global) -> SteadySink
        ensures { result ≡ record { taken = []; room = 0 } }
    {
        SteadySink {
            bytes: Vec::new(alloc),
            room: 0,
        }
    }

    /// Makes room for so many bytes more.
    pub fn reserve(&mut self, bytes: usize) -> Result<(), AllocError>
        ensures taken { self.new.taken ≡ self.old.taken }
        ensures ok { OnOk result (bytes ≤ self.new.room) }
        ensures kept { self.old.room ≤ self.new.room }
        ensures err { OnErr result (self.new ≡ self.old) }
    {
        self.bytes.reserve(bytes)?;
        self.room = self.room.max(bytes);
        Ok(())
    }

    /// What it has taken.
    pub fn as_slice(&self) -> &[u8]
        ensures { result.now ≡ self.now.taken }
    {
        self.bytes.as_slice()
    }

    /// Takes what fits in the room.
    pub(crate) fn take(&mut self, piece: &[u8]) -> usize
        ensures count { result ≡ min (length piece.now) self.old.room }
        ensures taken { self.new.taken ≡ self.old.taken ++ take result piece.now }
        ensures room { self.new.room ≡ self.old.room - result }
    {
        let count = piece.len().min(self.room);
        match self.bytes.extend_from_slice(&piece[..count]) {
            Ok(()) => {
                self.room -= count;
                count
            }
            Err(_) => unreachable!(),
        }
    }
}

impl Sink for SteadySink {
    ghost taken = { λ s. Some s.taken };

    ghost room = { λ s. Some s.room };

    ghost faults = { λ _. 0 };

    fn write(&mut self, piece: &[u8]) -> Result<usize, Failed> {
        Ok(self.take(piece))
    }
}

/// One write of a writer, tried again where a signal interrupts it. `None` where it fails, or takes nothing of a piece.
#[tactic(auto, using(crate::proofs::GivenAndTaken::kept_first, crate::proofs::GivenAndTaken::kept_after, crate::proofs::GivenAndTaken::appends_after))]
fn write_retrying<W: Write>(writer: &mut W, piece: &[u8]) -> Option<usize>
    ensures within { IfSome result (λ count. count ≤ length piece.now) }
    ensures some { 0 < length piece.now → IfSome result (λ count. 0 < count) }
    ensures took { IfSome result (λ count. Appends (W.contents writer.old) (W.contents writer.new)
        (take count piece.now)) }
    ensures failed { IsNone result → Keeps (W.contents writer.old) (W.contents writer.new) }
{
    for _ in 0..u64::MAX {
        match writer.write(piece) {
            Ok(count) if 0 < count || piece.is_empty() => return Some(count),
            Err(error) if error.kind() == ErrorKind::Interrupted => {}
            _ => break,
        }
    }
    None
}

/// A sink over a writer of std, such as standard output. It tells neither bytes nor room. A write that a signal
/// interrupts is tried again, and one that takes nothing of a piece is a fault.
#[derive(Drop)]
pub struct StreamSink<W> {
    writer: W,
    faults: u64,
}

impl<W: Write> StreamSink<W> {
    /// A sink that has had no fault yet. It takes no memory.
    pub fn new(writer: W) -> StreamSink<W>
        ensures writer { result.writer ≡ writer }
        ensures faults { result.faults ≡ 0 }
    {
        StreamSink { writer, faults: 0 }
    }

    /// The writer, without the count of faults.
    pub fn into_writer(self) -> W
        ensures { result ≡ self.writer }
    {
        self.writer
    }
}

impl<W: Write> Sink for StreamSink<W> {
    ghost taken = { λ _. None };

    ghost room = { λ _. None };

    ghost faults = { λ s. s.faults };

    fn write(&mut self, piece: &[u8]) -> Result<usize, Failed> {
        match write_retrying(&mut self.writer, piece) {
            Some(count) => Ok(count),
            None => {
                self.faults = self.faults.saturating_add(1);
                Err(Failed)
            }
        }
    }
}
