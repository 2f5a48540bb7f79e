//! The fields of a line.
ghost use Rattle.std.specs.Prelude.{◌≡◌, ◌++◌, OnOk, decimal};
ghost use Rattle.std.specs.Fmt.{signed_decimal};
ghost use Rattle.text_lines.specs.Fields.{field_text};

use itoa::Buffer;
use std::alloc::AllocError;

/// What stands between two spaces of a line.
#[derive(Clone, Copy)]
pub enum Field<'a> {
    /// Bytes as they are.
    Word(&'a [u8]),
    /// A number in decimal digits.
    Number(u64),
    /// The same, with `-` before it where it is negative.
    Amount(i64),
    /// A number right behind some bytes.
    Tagged(&'a [u8], u64),
    /// Bytes right behind others.
    Joined(&'a [u8], &'a [u8]),
    /// Two numbers with some bytes between them.
    Pair(u64, &'a [u8], u64),
}

/// Writes a number behind a text.
fn put_number(text: &mut Vec<u8>, n: u64) -> Result<(), AllocError>
    ensures { OnOk result (text.new.items ≡ text.old.items ++ decimal n) }
{
    let mut buffer = Buffer::new();
    text.extend_from_slice(buffer.format(n).as_bytes())
}

/// Writes a signed number behind a text.
fn put_amount(text: &mut Vec<u8>, n: i64) -> Result<(), AllocError>
    ensures { OnOk result (text.new.items ≡ text.old.items ++ signed_decimal n) }
{
    let mut buffer = Buffer::new();
    text.extend_from_slice(buffer.format(n).as_bytes())
}

/// Writes a field behind a text.
pub fn put_field(text: &mut Vec<u8>, field: Field) -> Result<(), AllocError>
    ensures { OnOk result (text.new.items ≡ text.old.items ++ field_text field.entry) }
{
    match field {
        Field::Word(word) => text.extend_from_slice(word),
        Field::Number(n) => put_number(text, n),
        Field::Amount(n) => put_amount(text, n),
        Field::Tagged(tag, n) => {
            text.extend_from_slice(tag)?;
            put_number(text, n)
        }
        Field::Joined(front, back) => {
            text.extend_from_slice(front)?;
            text.extend_from_slice(back)
        }
        Field::Pair(a, mark, b) => {
            put_number(text, a)?;
            text.extend_from_slice(mark)?;
            put_number(text, b)
        }
    }
}
