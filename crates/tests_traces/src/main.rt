//! Runs of the command over the cases that lie in `data/`, and a line for each.
//!
//! Its words name the files of cases. In a `.cases` file a case is a line `== NAME STATUS WORDS`, the text that the command
//! reads, a line `--`, and what it must write; its line tells whether it did. In a `.texts` file each line is the text of a
//! `replay`, with the escapes `\n`, `\r`, `\t`, `\0`, `\\` and `\xHH`; its line tells the exit status and what was written.
//! What these lines must be stands in `stdout`.
#![tactic(auto)]

mod cases;
mod runs;
mod texts;

use std::{env, fs, io};

fn main(rt: HostRuntime) -> io::Result<()> {
    for name in env::args(&rt)?.skip(1) {
        println!(rt; "{name}")?;
        let file = fs::read_to_string(&rt, name.as_str())?;
        if name.as_str().ends_with(".texts") {
            texts::show_all(&rt, &rt, file.as_str())?;
        } else {
            cases::show_all(&rt, &rt, file.as_str())?;
        }
    }
    Ok(())
}
