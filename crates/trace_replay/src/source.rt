//! Where the bytes of a trace come from.
ghost use Rattle.std.specs.Prelude.{◌≡◌, ◌<◌, ◌≤◌, ℕ, List, Option, Some, None, length, min, take, drop, IfOk, OnOk, OnErr, IfSome, IsNone};
ghost use Rattle.trace_replay.specs.Streams.{RoseByOne, Gives, IsEndAt};
ghost use Rattle.std.specs.Io.KnownBytes.{Consumes, IsAtEnd, Keeps};

use std::alloc::{AllocError, Global};
use std::io::{ErrorKind, Read};
use std::marker::Model;

/// A read or a write that failed. The source or the sink counts it among its faults.
#[derive(Clone, Copy)]
pub struct Failed;

/// A reader that counts its faults.
pub trait Source {
    // the bytes that are left, where that is told
    ghost left: { Self → Option (List ℕ) };

    // how many reads have failed
    ghost faults: { Self → ℕ };

    /// Reads at most the buffer's length. No byte, into a buffer with room, is the end of the input.
    fn read(&mut self, into: &mut [u8]) -> Result<usize, Failed>
        ensures within { IfOk result (λ n. n ≤ length into.new) }
        ensures gives { (bytes : List ℕ) → left self.old ≡ Some bytes
            → Gives bytes (left self.new) into.new result }
        ensures end { (bytes : List ℕ) → left self.old ≡ Some bytes
            → IsEndAt bytes into.new result }
        ensures never_falls { faults self.old ≤ faults self.new }
        ensures failed { OnErr result (RoseByOne (faults self.old) (faults self.new)) }
        ensures no_fault { OnOk result (faults self.new ≡ faults self.old) };
}

/// A source over memory, none of whose reads fails. Clauses see it as the bytes that are left.
#[derive(Drop)]
pub struct SteadySource {
    bytes: Vec<u8>,
    at: usize,
}

impl Model for SteadySource {
    ghost Value = { List ℕ };

    ghost view = { λ s. drop s.at s.bytes.items };

    ghost invariant = { λ s. s.at ≤ length s.bytes.items };
}

impl SteadySource {
    /// A source that gives a copy of these bytes.
    pub fn new(alloc: Global, bytes: &[u8]) -> Result<SteadySource, AllocError>
        ensures { IfOk result (λ source. source ≡ bytes.now) }
    {
        let bytes = Vec::from_slice(alloc, bytes)?;
        Ok(SteadySource { bytes, at: 0 })
    }

    /// Gives the next bytes, at most so many and no more than fit.
    pub(crate) fn give(&mut self, into: &mut [u8], most: usize) -> usize
        ensures count { result ≡ min most (min (length into.old) (length self.old)) }
        ensures given { take result into.new ≡ take result self.old }
        ensures left { self.new ≡ drop result self.old }
    {
        let rest = &self.bytes.as_slice()[self.at..];
        let count = most.min(into.len().min(rest.len()));
        into[..count].copy_from_slice(&rest[..count]);
        self.at += count;
        count
    }
}

impl Source for SteadySource {
    ghost left = { λ s. Some s };

    ghost faults = { λ _. 0 };

    fn read(&mut self, into: &mut [u8]) -> Result<usize, Failed> {
        Ok(self.give(into, into.len()))
    }
}

/// One read of a reader, tried again where a signal interrupts it. `None` where it fails.
#[tactic(auto, using(crate::proofs::GivenAndTaken::kept_first, crate::proofs::GivenAndTaken::kept_after, crate::proofs::GivenAndTaken::consumes_after))]
fn read_retrying<R: Read>(reader: &mut R, into: &mut [u8]) -> Option<usize>
    ensures within { IfSome result (λ count. count ≤ length into.new) }
    ensures gave { IfSome result
        (λ count. Consumes (R.remaining reader.old) (R.remaining reader.new)
        (take count into.new)) }
    ensures end { IfSome result (λ count. count ≡ 0 → 0 < length into.new
        → IsAtEnd (R.remaining reader.new)) }
    ensures failed { IsNone result → Keeps (R.remaining reader.old) (R.remaining reader.new) }
{
    for _ in 0..u64::MAX {
        match reader.read(into) {
            Ok(count) => return Some(count),
            Err(error) if error.kind() == ErrorKind::Interrupted => {}
            Err(_) => break,
        }
    }
    None
}

/// A source over a reader of std, such as standard input. It tells no bytes. A read that a signal interrupts is tried
/// again.
#[derive(Drop)]
pub struct StreamSource<R> {
    reader: R,
    faults: u64,
}

impl<R: Read> StreamSource<R> {
    /// A source that has had no fault yet. It takes no memory.
    pub fn new(reader: R) -> StreamSource<R>
        ensures reader { result.reader ≡ reader }
        ensures faults { result.faults ≡ 0 }
    {
        StreamSource { reader, faults: 0 }
    }
}

impl<R: Read> Source for StreamSource<R> {
    ghost left = { λ _. None };

    ghost faults = { λ s. s.faults };

    fn read(&mut self, into: &mut [u8]) -> Result<usize, Failed> {
        match read_retrying(&mut self.reader, into) {
            Some(count) => Ok(count),
            None => {
                self.faults = self.faults.saturating_add(1);
                Err(Failed)
            }
        }
    }
}
