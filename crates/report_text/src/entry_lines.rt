//! The lines of the replies, and their tally.
ghost use Rattle.std.specs.Prelude.{◌≡◌, ◌++◌, ◌∷◌, [], OnOk};
ghost use Rattle.text_lines.specs.Fields.{field_text};
ghost use Rattle.vm_model.specs.Words.{line};
ghost use Rattle.report_text.specs.Numerals.{reply_words};
ghost use Rattle.report_text.specs.Tally.{counts_line, tally_line};

use crate::numerals::hex_digits;
use crate::rows::Row;
use crate::tally::{Tally, tally_of};
use std::alloc::AllocError;
use text_lines::Field::{self, Amount, Joined, Number, Pair, Tagged, Word};
use text_lines::{put_fields, put_line};
use vm_model::{Entry, Reply};

/// Writes the line of a reply, between the call that it answers and the event at which it came.
fn put_reply(text: &mut Vec<u8>, call: Field, reply: &Reply, event: Field) -> Result<(), AllocError>
    ensures { OnOk result (text.new.items
        ≡ text.old.items ++ line (field_text call.entry
        ∷ (reply_words reply.now ++ field_text event.entry ∷ []))) }
{
    match reply {
        Reply::Address(number) => {
            let digits = hex_digits(*number);
            put_fields(text, call, &[Joined(b"0x", &digits), event])
        }
        Reply::Done => put_fields(text, call, &[Word(b"done"), event]),
        Reply::Sum(total) => put_fields(text, call, &[Word(b"sum"), Amount(*total), event]),
        Reply::Count(pages) => {
            put_fields(text, call, &[Word(b"count"), Number(*pages as u64), event])
        }
        Reply::NoSpace => put_fields(text, call, &[Word(b"no-space"), event]),
        Reply::NoFrames => put_fields(text, call, &[Word(b"no-frames"), event]),
        Reply::NoAtomic => put_fields(text, call, &[Word(b"no-atomic"), event]),
        Reply::NotLive => put_fields(text, call, &[Word(b"not-live"), event]),
        Reply::BadSize => put_fields(text, call, &[Word(b"bad-size"), event]),
        Reply::BadAlign => put_fields(text, call, &[Word(b"bad-align"), event]),
        Reply::Unbound => put_fields(text, call, &[Word(b"unbound"), event]),
    }
}

impl Row for Entry {
    ghost use Rattle.report_text.specs.Tally.{entry_line};

    ghost line = { entry_line };

    fn put(&self, text: &mut Vec<u8>) -> Result<(), AllocError> {
        let call = Pair(self.caller as u64, b".", self.call as u64);
        put_reply(text, call, &self.reply, Tagged(b"@", self.event))
    }
}

fn put_counts(text: &mut Vec<u8>, calls: u64, tally: &Tally) -> Result<(), AllocError>
    ensures { OnOk result (text.new.items ≡ text.old.items ++ counts_line calls tally.now) }
{
    let rest = [
        Word(b"calls"),
        Number(calls),
        Word(b"ok"),
        Number(tally.ok),
        Word(b"no-space"),
        Number(tally.no_space),
        Word(b"no-frames"),
        Number(tally.no_frames),
        Word(b"no-atomic"),
        Number(tally.no_atomic),
        Word(b"not-live"),
        Number(tally.not_live),
        Word(b"refused"),
        Number(tally.refused),
    ];
    put_line(text, b"tally", &rest)
}

/// Writes how many replies there are of each kind.
pub fn put_tally(text: &mut Vec<u8>, entries: &[Entry]) -> Result<(), AllocError>
    ensures { OnOk result (text.new.items ≡ text.old.items ++ tally_line entries.now) }
{
    put_counts(text, entries.len() as u64, &tally_of(entries))
}
