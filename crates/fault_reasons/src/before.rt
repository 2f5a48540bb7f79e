//! What stands before a line: how far the text has come, and which names its open list has.
use crate::forms::{CALLS, HEADER, PARTS, find};
use crate::lines::{field, word};

/// The place of a line of calls.
pub const CALL: usize = 9;

/// The place of an `order` line.
pub const ORDER: usize = 10;

/// The place of `end`.
pub const END: usize = 11;

/// Where lines with this word stand, from 0 for the first line of the header. None where it is no word of a line.
pub fn place(word: &[u8]) -> Option<usize> {
    if let Some(place) = HEADER.iter().position(|form| form.word.as_bytes() == word) {
        return Some(place);
    }
    if find(&CALLS, word).is_some() || word == b"caller".as_slice() {
        return Some(CALL);
    }
    if word == b"order".as_slice() {
        return Some(ORDER);
    }
    if find(&PARTS, word).is_some() {
        Some(END)
    } else {
        None
    }
}

/// The place of the last line. None where there is no line.
pub fn reached(before: &[u8]) -> Option<usize> {
    let mut reached = None;
    for line in before.split(|byte| *byte == b'\n') {
        if let Some(place) = place(word(line)) {
            reached = Some(place);
        }
    }
    reached
}

/// What a name stands for.
#[derive(Clone, Copy, PartialEq, Eq)]
pub enum Kind {
    /// An area of `vmalloc`.
    Area,
    /// Pages of `map_ram`.
    Mapping,
    /// A per-CPU object.
    Object,
}

/// What a line with this word makes.
pub fn made_by(word: &[u8]) -> Option<Kind> {
    if word == b"vmalloc".as_slice() {
        return Some(Kind::Area);
    }
    if word == b"map_ram".as_slice() {
        return Some(Kind::Mapping);
    }
    if word == b"alloc_percpu".as_slice() || word == b"alloc_atomic".as_slice() {
        return Some(Kind::Object);
    }
    None
}

/// What the target of a line with this word is.
pub fn wanted_by(word: &[u8]) -> Option<Kind> {
    if word == b"vfree".as_slice() {
        return Some(Kind::Area);
    }
    if word == b"unmap_ram".as_slice() {
        return Some(Kind::Mapping);
    }
    if word == b"free_percpu".as_slice() || word == b"add".as_slice() || word == b"sum".as_slice() {
        return Some(Kind::Object);
    }
    None
}

/// The line that made a name.
#[derive(Clone, Copy)]
pub struct Maker {
    /// Its number, from 1.
    pub line: usize,
    /// What it makes.
    pub kind: Kind,
}

/// What a line makes under this name.
fn makes(line: &[u8], name: &[u8]) -> Option<Kind> {
    if field(line, 1) == name {
        made_by(word(line))
    } else {
        None
    }
}

/// The line of the open list that made this name: of those behind the last `caller` line, or of all where none stands.
pub fn maker_in_list(before: &[u8], name: &[u8]) -> Option<Maker> {
    let mut found = None;
    for (earlier, line) in before.split(|byte| *byte == b'\n').enumerate() {
        if word(line) == b"caller".as_slice() {
            found = None;
        } else if let Some(kind) = makes(line, name) {
            found = Some(Maker {
                line: earlier.saturating_add(1),
                kind,
            });
        }
    }
    found
}

/// The line of the opening that made this name. None where the text is still in the opening.
pub fn maker_in_opening(before: &[u8], name: &[u8]) -> Option<Maker> {
    let mut found = None;
    for (earlier, line) in before.split(|byte| *byte == b'\n').enumerate() {
        if word(line) == b"caller".as_slice() {
            return found;
        }
        if let Some(kind) = makes(line, name) {
            found = Some(Maker {
                line: earlier.saturating_add(1),
                kind,
            });
        }
    }
    None
}

/// The line that made this target.
pub fn maker_of_target(before: &[u8], target: &[u8]) -> Option<Maker> {
    match target.strip_prefix(b"0.".as_slice()) {
        Some(name) => maker_in_opening(before, name),
        None => maker_in_list(before, target),
    }
}
