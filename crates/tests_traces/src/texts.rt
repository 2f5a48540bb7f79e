//! Texts for `replay`, most of them no traces.

use crate::runs::{answer_at_once, other_in_pieces};
use bstr::{ByteSlice, ByteVec};
use std::io;
use std::sync::Wait;
use std::thread::Threads;

/// The exit status of a text, the first line that is written, and the text.
fn show<R: Threads + Wait + Sync>(
    rt: &HostRuntime,
    threads: &R,
    words: &[String],
    escaped: &str,
) -> io::Result<()> {
    let text = Vec::unescape_bytes(rt.alloc(), escaped)?;
    let answer = answer_at_once(threads, rt.alloc(), words, text.as_slice());
    if let Some(piece) = other_in_pieces(threads, rt.alloc(), words, text.as_slice(), &answer)? {
        return println!(*rt; "in pieces of {piece} otherwise: {escaped}");
    }
    let line = answer.written.as_slice().lines().next().unwrap_or(b"");
    println!(*rt; "{} {}: {escaped}", answer.status, line.as_bstr())
}

/// A line for each text of a file.
pub fn show_all<R: Threads + Wait + Sync>(
    rt: &HostRuntime,
    threads: &R,
    file: &str,
) -> io::Result<()> {
    let words = vec![in rt.alloc(); String::from_str(rt.alloc(), "replay")?]?;
    for escaped in file.lines() {
        show(rt, threads, words.as_slice(), escaped)?;
    }
    Ok(())
}
