//! The public call over a text in memory, whole and in pieces.

use section_table::Open;
use std::alloc::{AllocError, Global};
use std::io::{self, Write};
use std::sync::Wait;
use std::thread::Threads;
use trace_replay::{MemorySource, Source, StreamSink, StreamSource, run};

/// How much one read gives and one write takes, beside a run that reads and writes all at once.
const PIECES: [usize; 4] = [1, 7, 100, 4096];

/// A writer into memory that takes at most a piece for each write.
#[derive(Drop)]
struct Pieces {
    taken: Vec<u8>,
    piece: usize,
}

impl Write for Pieces {
    fn write(&mut self, bytes: &[u8]) -> io::Result<usize> {
        let most = bytes.len().min(self.piece);
        self.taken.extend_from_slice(&bytes[..most])?;
        Ok(most)
    }

    fn flush(&mut self) -> io::Result<()> {
        Ok(())
    }
}

/// How a run ended, and what it wrote.
#[derive(Drop)]
pub struct Answer {
    pub status: u8,
    pub written: Vec<u8>,
}

impl Answer {
    fn is(&self, other: &Answer) -> bool {
        self.status == other.status && self.written.as_slice() == other.written.as_slice()
    }
}

/// The answer to what a source gives, written in pieces.
fn answer_to<S: Source, R: Threads + Wait + Sync>(
    threads: &R,
    alloc: Global,
    words: &[String],
    source: &mut S,
    piece: usize,
) -> Answer {
    let taken = Vec::new(alloc);
    let mut sink = StreamSink::new(Pieces { taken, piece });
    let status = run(threads, alloc, words, source, &mut sink, &Open).code();
    let Pieces { taken: written, .. } = sink.into_writer();
    Answer { status, written }
}

/// The answer to a text that is read at once, and written at once.
pub fn answer_at_once<R: Threads + Wait + Sync>(
    threads: &R,
    alloc: Global,
    words: &[String],
    text: &[u8],
) -> Answer {
    answer_to(
        threads,
        alloc,
        words,
        &mut StreamSource::new(text),
        usize::MAX,
    )
}

/// The first size of pieces in which a text is answered otherwise.
pub fn other_in_pieces<R: Threads + Wait + Sync>(
    threads: &R,
    alloc: Global,
    words: &[String],
    text: &[u8],
    answer: &Answer,
) -> Result<Option<usize>, AllocError> {
    for piece in PIECES {
        let mut source = MemorySource::new(alloc, text, piece, &[])?;
        if !answer_to(threads, alloc, words, &mut source, piece).is(answer) {
            return Ok(Some(piece));
        }
    }
    Ok(None)
}
