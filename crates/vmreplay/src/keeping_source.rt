//! A source whose bytes are kept as they are read, to be quoted.

use std::alloc::Global;
use trace_replay::{Failed, Source};

/// The most bytes that are kept: those of the longest trace.
const MOST_KEPT: usize = 16_777_216;

/// A source that keeps what another one gives. Where memory is wanting, or there are more bytes than a trace may have,
/// nothing is kept from then on; what it gives stays the same.
#[derive(Drop)]
pub struct KeepingSource<S> {
    source: S,
    kept: Option<Vec<u8>>,
}

impl<S: Source> KeepingSource<S> {
    /// A source that has kept nothing yet. It takes no memory.
    pub fn new(alloc: Global, source: S) -> KeepingSource<S> {
        KeepingSource {
            source,
            kept: Some(Vec::new(alloc)),
        }
    }

    /// What was read. None where not all of it was kept.
    pub fn kept(&self) -> Option<&[u8]> {
        match &self.kept {
            Some(kept) => Some(kept.as_slice()),
            None => None,
        }
    }
}

/// Keeps a piece behind what was kept.
fn keep(kept: &mut Option<Vec<u8>>, piece: &[u8]) {
    let stays = match kept {
        Some(bytes) if piece.len() <= MOST_KEPT.saturating_sub(bytes.len()) => {
            bytes.extend_from_slice(piece).is_ok()
        }
        _ => false,
    };
    if !stays {
        *kept = None;
    }
}

impl<S: Source> Source for KeepingSource<S> {
    ghost left = { λ s. S.left s.source };

    ghost faults = { λ s. S.faults s.source };

    fn read(&mut self, into: &mut [u8]) -> Result<usize, Failed> {
        let count = self.source.read(into)?;
        keep(&mut self.kept, &into[..count]);
        Ok(count)
    }
}
