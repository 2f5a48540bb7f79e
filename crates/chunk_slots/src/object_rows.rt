//! The live objects of chunks, one after another.
ghost use Rattle.std.specs.Prelude.{◌≡◌, ◌+◌, ◌*◌, ◌≤◌, ◌<◌, Some, None, OnOk, ◌++◌};
ghost use Rattle.chunk_slots.specs.KeptObjects.{holder_in};
ghost use Rattle.chunk_slots.specs.LiveObjectRows.{live_of, live_rows, seek};

use crate::holders::Holders;
use crate::kept_chunk::KeptChunk;
use std::alloc::AllocError;
use vm_model::{ObjectRow, Span};

/// The live object that was sought, or how many more were to be passed over.
#[derive(Clone, Copy)]
pub(crate) enum Sought {
    Found(ObjectRow),
    Past(u32),
}

/// The row of an object of a chunk by its bits, where it lives.
fn live_row(chunk: u32, holders: &Holders, span: Span) -> Option<ObjectRow>
    requires start { span.start ≤ 65536 }
    requires pages { span.pages ≤ 65536 }
    ensures { result ≡ live_of (holder_in holders.now) chunk span }
{
    let off = 4 * span.start;
    let holder = holders.get(chunk, off)?;
    if holder.serial == 0 {
        return None;
    }
    Some(ObjectRow {
        chunk,
        off,
        bytes: 4 * span.pages,
        caller: holder.caller,
        serial: holder.serial,
    })
}

/// Seeks the live object of a chunk behind so many others.
pub(crate) fn seek_in(chunk: &KeptChunk, holders: &Holders, skip: u32) -> Sought
    ensures { result ≡ seek (live_rows (holder_in holders.now) chunk.now) skip }
{
    let number = chunk.number();
    let mut from = 0;
    let mut left = skip;
    while let Some(span) = chunk.next_object(from) {
        from = span.start + span.pages;
        if let Some(row) = live_row(number, holders, span) {
            if left == 0 {
                return Sought::Found(row);
            }
            left -= 1;
        }
    }
    Sought::Past(left)
}

/// Appends the rows of the live objects of a chunk. After an error some of them may be there.
pub(crate) fn push_rows(
    chunk: &KeptChunk,
    holders: &Holders,
    rows: &mut Vec<ObjectRow>,
) -> Result<(), AllocError>
    ensures { OnOk result (rows.new.items ≡ rows.old.items ++ live_rows
        (holder_in holders.now) chunk.now) }
{
    let number = chunk.number();
    let mut from = 0;
    while let Some(span) = chunk.next_object(from) {
        from = span.start + span.pages;
        if let Some(row) = live_row(number, holders, span) {
            rows.push(row)?;
        }
    }
    Ok(())
}
