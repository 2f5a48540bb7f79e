//! The words for what is wrong.
ghost use Rattle.std.specs.Prelude.{◌≡◌, ◌++◌, IfOk};
ghost use Rattle.fault_reasons.specs.Quotes.{Begins, head};

use crate::before::{CALL, END, ORDER, reached};
use crate::forms::{CALLS, Form, HEADER, PARTS, find};
use crate::lines::{first_line, skip_lines, word};
use crate::quotes::head;
use crate::wrongs::{Wrong, what_is_wrong};
use std::alloc::{AllocError, Global};

/// What may stand where the text has come so far.
fn may_stand(reached: Option<usize>) -> &'static str {
    match reached {
        None => "vmtrace 1",
        Some(0) => "space P",
        Some(place) if place < CALL => "a header line, a call, caller, order or end",
        Some(CALL) => "a call, caller, order or end",
        Some(ORDER) => "order or end",
        Some(_) => "nothing",
    }
}

/// What is wrong, as a line.
fn wrong_line(alloc: Global, before: &[u8], wrong: Wrong) -> Result<String, AllocError> {
    let may_stand = may_stand(reached(before));
    match wrong {
        Wrong::NoEnd => format!(in alloc; "the text is over, and its line `end` is missing\n"),
        Wrong::NoLineEnd => format!(in alloc; "the last line has no line end\n"),
        Wrong::BehindEnd => format!(in alloc; "nothing may stand behind `end`\n"),
        Wrong::NoHead => format!(in alloc; "what may stand here: {may_stand}\n"),
        Wrong::Late => format!(in alloc;
            "a header line stands once, and in order; what may stand here: {may_stand}\n"
        ),
        Wrong::BehindOrder => format!(in alloc;
            "behind an `order` line stands no call and no list: {may_stand}\n"
        ),
        Wrong::UnknownWord => format!(in alloc;
            "no line has this word; what may stand here: {may_stand}\n"
        ),
        Wrong::OldName { line } => format!(in alloc; "the name is not new: line {line} made it\n"),
        Wrong::UnknownTarget => format!(in alloc;
            "no line that may be named here made this target\n"
        ),
        Wrong::OtherKind { line } => format!(in alloc;
            "the target is of another kind: line {line} made it\n"
        ),
        Wrong::Fields => format!(in alloc;
            "its fields are not those of this line, or not in range\n"
        ),
    }
}

/// The form of the lines with this word.
fn form_of(word: &[u8]) -> Option<Form> {
    if let Some(form) = find(&HEADER, word) {
        return Some(form);
    }
    if let Some(form) = find(&CALLS, word) {
        return Some(form);
    }
    find(&PARTS, word)
}

/// The form of the lines with this word, as a line; no text where there is none.
fn form_line(alloc: Global, word: &[u8]) -> Result<String, AllocError> {
    match form_of(word) {
        Some(form) => {
            let Form { line, ranges, .. } = form;
            format!(in alloc; "its form: {line} ({ranges})\n")
        }
        None => Ok(String::new(alloc)),
    }
}

/// What is wrong with a line, and the form that it has.
fn body(alloc: Global, bytes: &[u8], line: u32) -> Result<Vec<u8>, AllocError> {
    let rest = skip_lines(bytes, line.saturating_sub(1)).unwrap_or(b"".as_slice());
    let before = &bytes[..bytes.len().saturating_sub(rest.len())];
    let wrong = wrong_line(alloc, before, what_is_wrong(before, rest))?;
    let form = form_line(alloc, word(first_line(rest)))?;
    let mut body = Vec::from_slice(alloc, wrong.as_bytes())?;
    body.extend_from_slice(form.as_bytes())?;
    Ok(body)
}

/// The line with this number as it is shown, and what is said of it.
fn said_of(alloc: Global, bytes: &[u8], line: u32, said: &[u8]) -> Result<Vec<u8>, AllocError>
    ensures { IfOk result (λ text. text.items ≡ head bytes.now line ++ said.now) }
{
    let mut text = head(alloc, bytes, line)?;
    text.extend_from_slice(said)?;
    Ok(text)
}

/// Why the line with this number, the first bad one of these bytes, can't stand, in at most three lines: the line
/// itself and its number, what is wrong, and the form of the lines with its word. What is wrong is told as far as the
/// words and names before it tell.
pub fn reason(alloc: Global, bytes: &[u8], line: u32) -> Result<Vec<u8>, AllocError>
    ensures quotes { IfOk result (λ text. Begins text.items (head bytes.now line)) }
{
    let body = body(alloc, bytes, line)?;
    said_of(alloc, bytes, line, body.as_slice())
}
