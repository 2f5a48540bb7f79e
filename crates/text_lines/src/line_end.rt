//! The end of a line, written from its last field to its first: so each digit is written where it stays.
ghost use Rattle.std.specs.Prelude.{◌≡◌, ◌≤◌, ◌<◌, ◌++◌, ◌∷◌, [], IfSome, decimal, drop, length};
ghost use Rattle.std.specs.Fmt.{signed_decimal};
ghost use Rattle.text_lines.specs.Fields.{field_text, field_texts, StandsBefore};
ghost use Rattle.vm_model.specs.Words.{fields, line};

use crate::field::Field;
use itoa::{Buffer, write_digits};

/// The most digits of a number of 64 bits.
const MOST_DIGITS: usize = 20;

/// Writes a word before the byte at `end`, and gives its place, or none where there is too little room.
fn write_word(word: &[u8], bytes: &mut [u8], end: usize) -> Option<usize>
    requires { end ≤ length bytes.old }
    ensures { IfSome result (λ start. StandsBefore word.now bytes.old end bytes.new start) }
{
    if end < word.len() {
        return None;
    }
    let start = end - word.len();
    if word.len() == 1 {
        bytes[start] = word[0];
        return Some(start);
    }
    bytes[start..end].copy_from_slice(word);
    Some(start)
}

/// Writes a number so, digit by digit to its place.
fn write_number(n: u64, bytes: &mut [u8], end: usize) -> Option<usize>
    requires { end ≤ length bytes.old }
    ensures { IfSome result (λ start. StandsBefore (decimal n) bytes.old end bytes.new start) }
{
    if end < MOST_DIGITS {
        return None;
    }
    Some(write_digits(n, bytes, end))
}

/// Writes a signed number so.
fn write_amount(n: i64, bytes: &mut [u8], end: usize) -> Option<usize>
    requires { end ≤ length bytes.old }
    ensures { IfSome result (λ start.
        StandsBefore (signed_decimal n) bytes.old end bytes.new start) }
{
    let mut buffer = Buffer::new();
    write_word(buffer.format(n).as_bytes(), bytes, end)
}

/// Writes bytes right before a number.
#[inline(always)]
fn write_tagged(tag: &[u8], n: u64, bytes: &mut [u8], end: usize) -> Option<usize>
    requires { end ≤ length bytes.old }
    ensures { IfSome result (λ start.
        StandsBefore (tag.now ++ decimal n) bytes.old end bytes.new start) }
{
    let Some(number) = write_number(n, bytes, end) else {
        return None;
    };
    write_word(tag, bytes, number)
}

/// Writes bytes right behind others.
#[inline(always)]
fn write_joined(front: &[u8], back: &[u8], bytes: &mut [u8], end: usize) -> Option<usize>
    requires { end ≤ length bytes.old }
    ensures { IfSome result (λ start.
        StandsBefore (front.now ++ back.now) bytes.old end bytes.new start) }
{
    let Some(behind) = write_word(back, bytes, end) else {
        return None;
    };
    write_word(front, bytes, behind)
}

/// Writes two numbers with bytes between them.
#[inline(always)]
fn write_pair(a: u64, mark: &[u8], b: u64, bytes: &mut [u8], end: usize) -> Option<usize>
    requires { end ≤ length bytes.old }
    ensures { IfSome result (λ start.
        StandsBefore (decimal a ++ mark.now ++ decimal b) bytes.old end bytes.new start) }
{
    let Some(behind) = write_tagged(mark, b, bytes, end) else {
        return None;
    };
    write_number(a, bytes, behind)
}

/// Writes a field before the byte at `end`.
#[inline(always)]
fn write_field(field: Field, bytes: &mut [u8], end: usize) -> Option<usize>
    requires { end ≤ length bytes.old }
    ensures { IfSome result (λ start.
        StandsBefore (field_text field.entry) bytes.old end bytes.new start) }
{
    match field {
        Field::Word(word) => write_word(word, bytes, end),
        Field::Number(n) => write_number(n, bytes, end),
        Field::Amount(n) => write_amount(n, bytes, end),
        Field::Tagged(tag, n) => write_tagged(tag, n, bytes, end),
        Field::Joined(front, back) => write_joined(front, back, bytes, end),
        Field::Pair(a, mark, b) => write_pair(a, mark, b, bytes, end),
    }
}

/// Writes a field, and a space before it.
#[inline(always)]
fn write_spaced(field: Field, bytes: &mut [u8], end: usize) -> Option<usize>
    requires { end ≤ length bytes.old }
    ensures { IfSome result (λ start.
        StandsBefore (32 ∷ field_text field.entry) bytes.old end bytes.new start) }
{
    let Some(word) = write_field(field, bytes, end) else {
        return None;
    };
    if word == 0 {
        return None;
    }
    bytes[word - 1] = b' ';
    Some(word - 1)
}

/// Writes fields before the byte at `end`, a space before each, and gives the place of the first space, or none where there
/// is too little room.
#[inline(always)]
pub(crate) fn write_words(words: &[Field], bytes: &mut [u8], end: usize) -> Option<usize>
    requires { end ≤ length bytes.old }
    ensures { IfSome result (λ start.
        StandsBefore (fields ([] ∷ field_texts words.now)) bytes.old end bytes.new start) }
{
    let mut start = end;
    for i in 0..words.len() {
        let Some(next) = write_spaced(words[words.len() - 1 - i], bytes, start) else {
            return None;
        };
        start = next;
    }
    Some(start)
}

/// Writes a line at the end of the bytes: its first field, the fields after it, and its end.
#[inline(always)]
pub(crate) fn write_line(first: Field, rest: &[Field], bytes: &mut [u8]) -> Option<usize>
    requires { 0 < length bytes.old }
    ensures within { IfSome result (λ start. start ≤ length bytes.new) }
    ensures line { IfSome result (λ start.
        drop start bytes.new ≡ line (field_text first.entry ∷ field_texts rest.now)) }
{
    let end = bytes.len() - 1;
    bytes[end] = b'\n';
    let Some(words) = write_words(rest, bytes, end) else {
        return None;
    };
    write_field(first, bytes, words)
}
