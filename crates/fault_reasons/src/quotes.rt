//! A line as a person is shown it.
ghost use Rattle.std.specs.Prelude.{◌≡◌, ◌<◌, ◌++◌, IfOk, OnOk, flat_map};
ghost use Rattle.fault_reasons.specs.Quotes.{digit, shown, quoted, head};

use crate::lines::{first_line, skip_lines};
use std::alloc::{AllocError, Global};

/// A hexadecimal digit.
fn digit(value: u8) -> u8
    requires { value < 16 }
    ensures { result ≡ digit value }
{
    if value <= 9 {
        b'0' + value
    } else {
        b'a' - 10 + value
    }
}

/// Puts a byte as it is shown: itself where it prints, else two digits behind `\x`.
fn push_shown(text: &mut Vec<u8>, byte: u8) -> Result<(), AllocError>
    ensures { OnOk result (text.new.items ≡ text.old.items ++ shown byte) }
{
    if b' ' <= byte && byte <= b'~' {
        text.push(byte)?;
        return Ok(());
    }
    text.extend_from_slice(&[b'\\', b'x', digit(byte / 16), digit(byte % 16)])
}

/// Puts bytes as they are shown.
fn push_all(text: &mut Vec<u8>, bytes: &[u8]) -> Result<(), AllocError>
    ensures { OnOk result (text.new.items ≡ text.old.items ++ flat_map shown bytes.now) }
{
    for byte in bytes {
        push_shown(text, *byte)?;
    }
    Ok(())
}

/// Puts a line: its first 80 bytes as they are shown, and two dots where it has more.
fn push_quoted(text: &mut Vec<u8>, line: &[u8]) -> Result<(), AllocError>
    ensures { OnOk result (text.new.items ≡ text.old.items ++ quoted line.now) }
{
    if line.len() <= 80 {
        return push_all(text, line);
    }
    let (cut, _) = line.split_at(80);
    push_all(text, cut)?;
    text.extend_from_slice(b" ..")
}

/// The line with this number, as it is shown, and its number in front of it.
pub fn head(alloc: Global, text: &[u8], line: u32) -> Result<Vec<u8>, AllocError>
    ensures { IfOk result (λ quote. quote.items ≡ head text.now line) }
{
    let number = format!(in alloc; "line {line}: ")?;
    let mut quote = Vec::from_slice(alloc, number.as_bytes())?;
    let shown = first_line(skip_lines(text, line.saturating_sub(1)).unwrap_or(b"".as_slice()));
    push_quoted(&mut quote, shown)?;
    quote.push(b'\n')?;
    Ok(quote)
}
