//! Lines, field by field.
ghost use Rattle.std.specs.Prelude.{◌≡◌, ◌++◌, ◌∷◌, [], OnOk};
ghost use Rattle.text_lines.specs.Fields.{field_text, field_texts};
ghost use Rattle.vm_model.specs.Words.{fields, line};

use crate::field::{Field, put_field};
use crate::line_end::{write_line, write_words};
use std::alloc::AllocError;

/// How many bytes of a line are written together. Longer lines are written field by field.
const ROOM: usize = 128;

/// Writes a field behind a text, a space before it.
fn put_spaced(text: &mut Vec<u8>, field: Field) -> Result<(), AllocError>
    ensures { OnOk result (text.new.items ≡ text.old.items ++ 32 ∷ field_text field.entry) }
{
    text.extend_from_slice(b" ")?;
    put_field(text, field)
}

/// Writes fields behind a text, a space before each, one after another.
fn put_each(text: &mut Vec<u8>, words: &[Field]) -> Result<(), AllocError>
    ensures { OnOk result (text.new.items ≡ text.old.items ++ fields ([] ∷ field_texts words.now)) }
{
    for word in words {
        put_spaced(text, *word)?;
    }
    Ok(())
}

/// Writes fields behind a text, a space before each.
pub fn put_words(text: &mut Vec<u8>, words: &[Field]) -> Result<(), AllocError>
    ensures { OnOk result (text.new.items ≡ text.old.items ++ fields ([] ∷ field_texts words.now)) }
{
    let mut bytes = [0; ROOM];
    match write_words(words, &mut bytes, ROOM) {
        Some(start) => text.extend_from_slice(&bytes[start..]),
        None => put_each(text, words),
    }
}

/// Writes a line behind a text, field by field.
fn put_long_line(text: &mut Vec<u8>, first: Field, rest: &[Field]) -> Result<(), AllocError>
    ensures { OnOk result (text.new.items
        ≡ text.old.items ++ line (field_text first.entry ∷ field_texts rest.now)) }
{
    put_field(text, first)?;
    put_each(text, rest)?;
    text.extend_from_slice(b"\n")
}

/// Writes a line behind a text: its first field, the fields after it, and its end.
pub fn put_fields(text: &mut Vec<u8>, first: Field, rest: &[Field]) -> Result<(), AllocError>
    ensures { OnOk result (text.new.items
        ≡ text.old.items ++ line (field_text first.entry ∷ field_texts rest.now)) }
{
    let mut bytes = [0; ROOM];
    match write_line(first, rest, &mut bytes) {
        Some(start) => text.extend_from_slice(&bytes[start..]),
        None => put_long_line(text, first, rest),
    }
}

/// Writes a line behind a text: its first word, the fields after it, and its end.
pub fn put_line(text: &mut Vec<u8>, first: &[u8], rest: &[Field]) -> Result<(), AllocError>
    ensures { OnOk result (text.new.items
        ≡ text.old.items ++ line (first.now ∷ field_texts rest.now)) }
{
    put_fields(text, Field::Word(first), rest)
}
