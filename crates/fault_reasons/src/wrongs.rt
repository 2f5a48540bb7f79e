//! What is wrong with a line, as far as its word and the lines before it tell.
use crate::before::{
    CALL, END, ORDER, made_by, maker_in_list, maker_of_target, place, reached, wanted_by,
};
use crate::lines::{field, first_line, word};

/// What is wrong with a line.
#[derive(Clone, Copy)]
pub enum Wrong {
    /// The text is over, and `end` hasn't come.
    NoEnd,
    /// The text ends without a line end.
    NoLineEnd,
    /// The line stands behind `end`.
    BehindEnd,
    /// The first lines of the header are missing.
    NoHead,
    /// The line comes too late in the header, or a second time.
    Late,
    /// A call or a list behind an `order` line.
    BehindOrder,
    /// No line has this word.
    UnknownWord,
    /// This line made the name.
    OldName {
        /// Its number, from 1.
        line: usize,
    },
    /// No line of the list made the target.
    UnknownTarget,
    /// This line made the target, which is of another kind.
    OtherKind {
        /// Its number, from 1.
        line: usize,
    },
    /// A field, or how the fields are parted.
    Fields,
}

/// Whether more than one line may stand at this place of the order.
fn repeats(place: usize) -> bool {
    place == 6 || place == CALL || place == ORDER
}

/// What is wrong with a line's place, where the text has come so far.
fn wrong_place(reached: Option<usize>, place: usize) -> Option<Wrong> {
    let next = match reached {
        Some(reached) => reached.saturating_add(1),
        None => 0,
    };
    if next <= 1 && place != next {
        return Some(Wrong::NoHead);
    }
    if next == 11 && place == CALL {
        return Some(Wrong::BehindOrder);
    }
    if place >= next || (repeats(place) && place.saturating_add(1) == next) {
        None
    } else {
        Some(Wrong::Late)
    }
}

/// What is wrong with the name that a line makes, or with its target.
fn wrong_name(before: &[u8], line: &[u8]) -> Option<Wrong> {
    let name = field(line, 1);
    if made_by(word(line)).is_some() {
        return maker_in_list(before, name).map(|maker| Wrong::OldName { line: maker.line });
    }
    let wanted = wanted_by(word(line))?;
    match maker_of_target(before, name) {
        None => Some(Wrong::UnknownTarget),
        Some(maker) if maker.kind != wanted => Some(Wrong::OtherKind { line: maker.line }),
        Some(_) => None,
    }
}

/// What is wrong with the line at the head of the rest.
pub fn what_is_wrong(before: &[u8], rest: &[u8]) -> Wrong {
    let reached = reached(before);
    if reached == Some(END) {
        return Wrong::BehindEnd;
    }
    if rest.is_empty() {
        return Wrong::NoEnd;
    }
    let line = first_line(rest);
    if line.len() == rest.len() {
        return Wrong::NoLineEnd;
    }
    match place(word(line)) {
        None => Wrong::UnknownWord,
        Some(place) => match wrong_place(reached, place) {
            Some(wrong) => wrong,
            None => wrong_name(before, line).unwrap_or(Wrong::Fields),
        },
    }
}
