//! Reading all that a source has.
ghost use Rattle.std.specs.Prelude.{◌≡◌, ◌≢◌, ◌≤◌, ◌<◌, ℕ, List, [], Some, Err, IfOk, length, vec_len};
ghost use Rattle.trace_replay.specs.Streams.{RoseByOne, IsReadInPart};

use crate::source::{Failed, Source};
use std::alloc::{AllocError, Global};

/// The most bytes that a trace may have.
pub const MOST_BYTES: usize = 16_777_216;

/// How many bytes one read asks for.
const PIECE: usize = 65_536;

/// Why not all of a source was read.
#[derive(Debug, Drop)]
pub enum Cut {
    /// A read failed.
    Failed,
    /// There are more than `MOST_BYTES`.
    TooLong,
    /// Memory was wanting.
    OutOfMemory,
}

impl From<AllocError> for Cut {
    ghost use Rattle.trace_replay.specs.declared.gather.Cut.{Cut};

    ghost from_gives = { λ _ e. e ≡ Cut.OutOfMemory };

    fn from(_error: AllocError) -> Cut {
        Cut::OutOfMemory
    }
}

impl From<Failed> for Cut {
    ghost use Rattle.trace_replay.specs.declared.gather.Cut.{Cut};

    ghost from_gives = { λ _ e. e ≡ Cut.Failed };

    fn from(_error: Failed) -> Cut {
        Cut::Failed
    }
}

/// A buffer for one read.
fn buffer(alloc: Global) -> Result<Vec<u8>, AllocError>
    ensures { IfOk result (λ piece. vec_len piece ≡ PIECE) }
{
    vec![in alloc; 0; PIECE]
}

/// All bytes of a source, up to its end, read through this buffer.
#[tactic(auto, using(crate::proofs::GivenAndTaken::read_in_part))]
fn gather_by<S: Source>(alloc: Global, source: &mut S, piece: &mut [u8]) -> Result<Vec<u8>, Cut>
    requires { 0 < length piece.old }
    ensures all { IfOk result (λ bytes. (told : List ℕ) → S.left source.old ≡ Some told
        → bytes.items ≡ told) }
    ensures to_the_end { IfOk result (λ bytes. (told : List ℕ) → S.left source.old ≡ Some told
        → S.left source.new ≡ Some []) }
    ensures short { IfOk result (λ bytes. length bytes.items ≤ MOST_BYTES) }
    ensures too_long { result ≡ Err Cut.TooLong → (told : List ℕ) → S.left source.old ≡ Some told
        → MOST_BYTES < length told }
    ensures failed { result ≡ Err Cut.Failed
        → RoseByOne (S.faults source.old) (S.faults source.new) }
    ensures in_part { result ≡ Err Cut.Failed → (told : List ℕ) → S.left source.old ≡ Some told
        → IsReadInPart MOST_BYTES told (S.left source.new) }
    ensures no_fault { result ≢ Err Cut.Failed → S.faults source.new ≡ S.faults source.old }
{
    let mut bytes = Vec::new(alloc);
    loop {
        let count = source.read(piece)?;
        if count == 0 {
            return Ok(bytes);
        }
        if MOST_BYTES - bytes.len() < count {
            return Err(Cut::TooLong);
        }
        bytes.extend_from_slice(&piece[..count])?;
    }
}

/// All bytes of a source, up to its end.
pub fn gather<S: Source>(alloc: Global, source: &mut S) -> Result<Vec<u8>, Cut>
    ensures all { IfOk result (λ bytes. (told : List ℕ) → S.left source.old ≡ Some told
        → bytes.items ≡ told) }
    ensures to_the_end { IfOk result (λ bytes. (told : List ℕ) → S.left source.old ≡ Some told
        → S.left source.new ≡ Some []) }
    ensures short { IfOk result (λ bytes. length bytes.items ≤ MOST_BYTES) }
    ensures too_long { result ≡ Err Cut.TooLong → (told : List ℕ) → S.left source.old ≡ Some told
        → MOST_BYTES < length told }
    ensures failed { result ≡ Err Cut.Failed
        → RoseByOne (S.faults source.old) (S.faults source.new) }
    ensures in_part { result ≡ Err Cut.Failed → (told : List ℕ) → S.left source.old ≡ Some told
        → IsReadInPart MOST_BYTES told (S.left source.new) }
    ensures no_fault { result ≢ Err Cut.Failed → S.faults source.new ≡ S.faults source.old }
{
    let mut piece = buffer(alloc)?;
    gather_by(alloc, source, piece.as_mut_slice())
}
