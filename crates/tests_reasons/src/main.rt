//! What is said of bad traces, and the table of the forms of lines.
//!
//! Without words it writes the forms, as docs/TRACE.md shows them. Each word names a file in `data/`, whose lines are the
//! number of a bad line, a space, and a text with the escapes `\n`, `\r`, `\t`, `\0`, `\\` and `\xHH`; each is written
//! with what is said of it.
#![tactic(auto)]

use bstr::{ByteSlice, ByteVec};
use fault_reasons::forms::{CALLS, Form, HEADER, PARTS};
use fault_reasons::reason;
use std::{env, fs, io};

/// Writes the forms, one a line.
fn show_forms(rt: &HostRuntime, forms: &[Form]) -> io::Result<()> {
    for form in forms {
        let Form { line, ranges, .. } = *form;
        println!(*rt; "{line}: {ranges}")?;
    }
    Ok(())
}

/// What is said of one text.
fn show(rt: &HostRuntime, numbered: &str) -> io::Result<()> {
    let Some((number, escaped)) = numbered.split_once(' ') else {
        return println!(*rt; "no number: {numbered}");
    };
    let line = number.parse::<u32>().unwrap_or(0);
    let text = Vec::unescape_bytes(rt.alloc(), escaped)?;
    let said = reason(rt.alloc(), text.as_slice(), line)?;
    println!(*rt; "{numbered}")?;
    println!(*rt; "{}", said.as_slice().as_bstr())
}

fn main(rt: HostRuntime) -> io::Result<()> {
    show_forms(&rt, &HEADER)?;
    show_forms(&rt, &CALLS)?;
    show_forms(&rt, &PARTS)?;
    for name in env::args(&rt)?.skip(1) {
        let file = fs::read_to_string(&rt, name.as_str())?;
        for numbered in file.lines() {
            show(&rt, numbered)?;
        }
    }
    Ok(())
}
