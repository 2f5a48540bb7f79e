//! The lines of the tables.
ghost use Rattle.std.specs.Prelude.{◌≡◌, ◌++◌, ◌∷◌, [], OnOk};
ghost use Rattle.std.specs.List.{flat_map};
ghost use Rattle.text_lines.specs.Fields.{field_text};
ghost use Rattle.vm_model.specs.Words.{line};
ghost use Rattle.report_text.specs.Numerals.{range};
ghost use Rattle.report_text.specs.TableLines.{events_line, frames_line, area_line, dirty_range, block_line, part_line, chunk_line, object_line, counter_line, counter_lines};

use crate::rows::Row;
use std::alloc::AllocError;
use text_lines::Field::{self, Amount, Number, Pair, Word};
use text_lines::put_line;
use vm_model::{Area, AreaKind, BlockRow, ChunkRow, CounterRow, ObjectRow, PartRow, Span};

/// Writes how many events there were.
pub fn put_events(text: &mut Vec<u8>, events: u64) -> Result<(), AllocError>
    ensures { OnOk result (text.new.items ≡ text.old.items ++ events_line events) }
{
    put_line(text, b"events", &[Number(events)])
}

/// Writes how many frames are free, and how many pages are mapped and stale.
pub fn put_frames(
    text: &mut Vec<u8>,
    frames: u32,
    mapped: u32,
    stale: u32,
) -> Result<(), AllocError>
    ensures { OnOk result (text.new.items ≡ text.old.items ++ frames_line frames mapped stale) }
{
    let rest = [
        Number(frames as u64),
        Word(b"mapped"),
        Number(mapped as u64),
        Word(b"stale"),
        Number(stale as u64),
    ];
    put_line(text, b"frames", &rest)
}

/// Writes a word and where a span starts and ends.
fn put_span(text: &mut Vec<u8>, word: &[u8], span: &Span) -> Result<(), AllocError>
    ensures { OnOk result (text.new.items
        ≡ text.old.items ++ line (word.now ∷ range span.now ∷ [])) }
{
    let end = span.start as u64 + span.pages as u64;
    put_line(text, word, &[Pair(span.start as u64, b"..", end)])
}

/// Writes a line for each span, under a word.
pub fn put_spans(text: &mut Vec<u8>, word: &[u8], spans: &[Span]) -> Result<(), AllocError>
    ensures { OnOk result (text.new.items
        ≡ text.old.items ++ flat_map (λ (s : Span). line (word.now ∷ range s ∷ [])) spans.now) }
{
    for span in spans {
        put_span(text, word, span)?;
    }
    Ok(())
}

impl Row for Area {
    ghost use Rattle.report_text.specs.TableLines.{area_line};

    ghost line = { area_line };

    fn put(&self, text: &mut Vec<u8>) -> Result<(), AllocError> {
        let end = self.span.start as u64 + self.span.pages as u64;
        let place = Pair(self.span.start as u64, b"..", end);
        let (by, caller) = (Word(b"caller"), Number(self.caller as u64));
        let (of, serial) = (Word(b"serial"), Number(self.serial as u64));
        match self.kind {
            AreaKind::Vmalloc => {
                let kind = Word(b"vmalloc");
                put_line(text, b"area", &[place, kind, by, caller, of, serial])
            }
            AreaKind::MapRam => {
                let kind = Word(b"ram");
                put_line(text, b"area", &[place, kind, by, caller, of, serial])
            }
            AreaKind::Block { cpu } => {
                let (kind, at, cpu) = (Word(b"block"), Word(b"cpu"), Number(cpu as u64));
                let rest = [place, kind, at, cpu, by, caller, of, serial];
                put_line(text, b"area", &rest)
            }
            AreaKind::Chunk { chunk, group } => {
                let (kind, chunk) = (Word(b"chunk"), Number(chunk as u64));
                let (at, group) = (Word(b"group"), Number(group as u64));
                let rest = [place, kind, chunk, at, group, by, caller, of, serial];
                put_line(text, b"area", &rest)
            }
        }
    }
}

/// The range that is dirty in a block, if any is.
fn dirty_range(block: &BlockRow) -> Field<'static>
    ensures { field_text result ≡ dirty_range block.now }
{
    if block.dirty == 0 {
        Word(b"-")
    } else {
        Pair(block.low as u64, b"..", block.high as u64)
    }
}

impl Row for BlockRow {
    ghost use Rattle.report_text.specs.TableLines.{block_line};

    ghost line = { block_line };

    fn put(&self, text: &mut Vec<u8>) -> Result<(), AllocError> {
        let end = self.start as u64 + self.pages as u64;
        let rest = [
            Pair(self.start as u64, b"..", end),
            Word(b"cpu"),
            Number(self.cpu as u64),
            Word(b"free"),
            Number(self.free as u64),
            Word(b"dirty"),
            Number(self.dirty as u64),
            Word(b"range"),
            dirty_range(self),
        ];
        put_line(text, b"block", &rest)
    }
}

impl Row for PartRow {
    ghost use Rattle.report_text.specs.TableLines.{part_line};

    ghost line = { part_line };

    fn put(&self, text: &mut Vec<u8>) -> Result<(), AllocError> {
        let end = self.span.start as u64 + self.span.pages as u64;
        let rest = [
            Pair(self.span.start as u64, b"..", end),
            Word(b"cpu"),
            Number(self.cpu as u64),
            Word(b"caller"),
            Number(self.caller as u64),
            Word(b"serial"),
            Number(self.serial as u64),
        ];
        put_line(text, b"part", &rest)
    }
}

impl Row for ChunkRow {
    ghost use Rattle.report_text.specs.TableLines.{chunk_line};

    ghost line = { chunk_line };

    fn put(&self, text: &mut Vec<u8>) -> Result<(), AllocError> {
        let rest = [
            Number(self.chunk as u64),
            Word(b"base"),
            Number(self.base as u64),
            Word(b"slot"),
            Number(self.slot as u64),
            Word(b"free"),
            Number(self.free as u64),
            Word(b"populated"),
            Number(self.populated as u64),
            Word(b"empty"),
            Number(self.empty as u64),
        ];
        put_line(text, b"chunk", &rest)
    }
}

impl Row for ObjectRow {
    ghost use Rattle.report_text.specs.TableLines.{object_line};

    ghost line = { object_line };

    fn put(&self, text: &mut Vec<u8>) -> Result<(), AllocError> {
        let rest = [
            Number(self.chunk as u64),
            Word(b"off"),
            Number(self.off as u64),
            Word(b"size"),
            Number(self.bytes as u64),
            Word(b"caller"),
            Number(self.caller as u64),
            Word(b"serial"),
            Number(self.serial as u64),
        ];
        put_line(text, b"object", &rest)
    }
}

fn put_counter(text: &mut Vec<u8>, number: u64, counter: &CounterRow) -> Result<(), AllocError>
    ensures { OnOk result (text.new.items ≡ text.old.items ++ counter_line number counter.now) }
{
    let rest = [Number(number), Word(b"total"), Amount(counter.total)];
    put_line(text, b"counter", &rest)
}

/// Writes a line for each counter.
pub fn put_counters(text: &mut Vec<u8>, counters: &[CounterRow]) -> Result<(), AllocError>
    ensures { OnOk result (text.new.items ≡ text.old.items ++ counter_lines counters.now) }
{
    for (i, counter) in counters.iter().enumerate() {
        put_counter(text, i as u64, counter)?;
    }
    Ok(())
}
