//! Lines and fields of a text, told from its bytes alone.
ghost use Rattle.std.specs.Prelude.{◌≡◌, [], IfSome, IfNone};
ghost use Rattle.fault_reasons.specs.Quotes.{first_line, after_line, skip_lines};

/// The text up to its first line end.
pub fn first_line(text: &[u8]) -> &[u8]
    ensures { result.now ≡ first_line text.now }
{
    for i in 0..text.len() {
        if text[i] == b'\n' {
            return &text[..i];
        }
    }
    text
}

/// The text behind its first line end. None where it has none.
pub fn after_line(text: &[u8]) -> Option<&[u8]>
    ensures rest { IfSome result (λ rest. rest.now ≡ after_line text.now) }
    ensures none { IfNone result (after_line text.now ≡ []) }
{
    for i in 0..text.len() {
        if text[i] == b'\n' {
            return Some(&text[i + 1..]);
        }
    }
    None
}

#[tactic(auto, using(crate::proofs::SkippedLines::skip_on, crate::proofs::SkippedLines::skip_nothing))]
/// The text behind so many lines. None where it has fewer line ends.
pub fn skip_lines(text: &[u8], lines: u32) -> Option<&[u8]>
    ensures rest { IfSome result (λ rest. rest.now ≡ skip_lines lines text.now) }
    ensures none { IfNone result (skip_lines lines text.now ≡ []) }
{
    let mut rest = text;
    for _skipped in 0..lines {
        rest = after_line(rest)?;
    }
    Some(rest)
}

/// The field with this number, from 0; no byte where there are fewer.
pub fn field(line: &[u8], number: usize) -> &[u8] {
    line.split(|byte| *byte == b' ')
        .nth(number)
        .unwrap_or(b"".as_slice())
}

/// The line's word.
pub fn word(line: &[u8]) -> &[u8] {
    field(line, 0)
}
