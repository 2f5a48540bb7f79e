//! Cases with what must be written for each.

use crate::runs::{Answer, answer_at_once, other_in_pieces};
use bstr::ByteSlice;
use std::alloc::{AllocError, Global};
use std::io;
use std::sync::Wait;
use std::thread::Threads;

/// A run: its words, what it reads, and how it must answer.
#[derive(Clone, Copy)]
struct Case<'a> {
    name: &'a str,
    status: &'a str,
    words: &'a str,
    text: &'a str,
    wanted: &'a str,
}

impl<'a> Case<'a> {
    /// A case as it stands in a file, behind its `== `.
    fn of(case: &'a str) -> Option<Case<'a>> {
        let (head, texts) = case.split_once("\n")?;
        let (name, run) = head.split_once(" ")?;
        let (status, words) = run.split_once(" ").unwrap_or((run, ""));
        let (text, wanted) = texts.split_once("--\n")?;
        Some(Case {
            name,
            status,
            words,
            text,
            wanted,
        })
    }

    fn words(&self, alloc: Global) -> Result<Vec<String>, AllocError> {
        let mut words = Vec::new(alloc);
        for word in self.words.split_whitespace() {
            words.push(String::from_str(alloc, word)?)?;
        }
        Ok(words)
    }
}

/// The number of the first line in which two texts differ, with that line of the first.
fn first_other<'a>(written: &'a [u8], wanted: &[u8]) -> Option<(usize, &'a [u8])> {
    let mut rest = wanted.lines();
    for (place, line) in written.lines().enumerate() {
        if rest.next() != Some(line) {
            return Some((place, line));
        }
    }
    None
}

/// Tells whether an answer is the wanted one.
fn tell(rt: &HostRuntime, case: Case<'_>, answer: &Answer) -> io::Result<()> {
    let name = case.name;
    let status = answer.status;
    if case.status.parse() != Ok(status) {
        return println!(*rt; "{name} {status}, wanted {}", case.status);
    }
    let written = answer.written.as_slice();
    if written == case.wanted.as_bytes() {
        return println!(*rt; "{name} {status} as wanted");
    }
    match first_other(written, case.wanted.as_bytes()) {
        Some((place, line)) => println!(*rt;
            "{name} {status}, but behind {place} lines {}",
            line.as_bstr()
        ),
        None => println!(*rt; "{name} {status}, but is cut off"),
    }
}

fn show<R: Threads + Wait + Sync>(rt: &HostRuntime, threads: &R, case: Case<'_>) -> io::Result<()> {
    let words = case.words(rt.alloc())?;
    let text = case.text.as_bytes();
    let answer = answer_at_once(threads, rt.alloc(), words.as_slice(), text);
    if let Some(piece) = other_in_pieces(threads, rt.alloc(), words.as_slice(), text, &answer)? {
        return println!(*rt; "{} in pieces of {piece} otherwise", case.name);
    }
    tell(rt, case, &answer)
}

/// A line for each case of a file.
pub fn show_all<R: Threads + Wait + Sync>(
    rt: &HostRuntime,
    threads: &R,
    file: &str,
) -> io::Result<()> {
    for case in file.split("== ").skip(1) {
        match Case::of(case) {
            Some(case) => show(rt, threads, case)?,
            None => println!(*rt; "no case: {case}")?,
        }
    }
    Ok(())
}
